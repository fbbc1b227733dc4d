// A single seven-bit symbol. In arrays and slices symbols lie plain; this type carries the bound.
ghost use Rattle.std.specs.Prelude.{◌≡◌, ◌<◌, ◌≤◌, cond, MatchOption};

#[derive(Clone, Copy, PartialEq, Eq, Debug)]
pub struct SevenBit {
    number: u8,
    ghost below: { number < 128 },
}

impl SevenBit {
    // The symbol with this number, where there is one.
    pub fn new(number: u8) -> Option<Self>
        ensures { MatchOption result (128 ≤ number) (λ s. s.number ≡ number) }
    {
        if number < 128 {
            Some(SevenBit { number })
        } else {
            None
        }
    }

    // The symbol with this number, where the caller knows that there is one.
    pub fn of(number: u8) -> Self
        requires { number < 128 }
        ensures { result.number ≡ number }
    {
        SevenBit { number }
    }

    pub fn number(self) -> u8
        ensures { result ≡ self.number }
    {
        self.number
    }
}
