// Scrambling of a stream of bits.
ghost use Rattle.bits.specs.Scrambling.{earlier as earlier_at, following, scrambled, Scrambling};
ghost use Rattle.std.specs.Prelude.{◌≡◌, ◌∷◌, take};

// Where the sequence stands: the nine values before the next one, newest first.
#[derive(Drop)]
struct Sequence {
    earlier: [bool; 9],
}

impl Sequence {
    #[tactic(auto, unfolding(crate::specs::Scrambling::earlier))]
    fn new() -> Self
        ensures { result.earlier ≡ earlier_at 0 }
    {
        Sequence { earlier: [true; 9] }
    }

    fn next(&mut self) -> bool
        ensures value { result ≡ following self.old.earlier }
        ensures after { self.new.earlier ≡ result ∷ take 8 self.old.earlier }
    {
        let value = self.earlier[4] ^ self.earlier[8];
        self.earlier.rotate_right(1);
        self.earlier[0] = value;
        value
    }
}

// Adds the sequence to the bits. The same call takes it off again.
pub fn scramble(bits: &mut [bool])
    ensures value { bits.new ≡ scrambled 0 bits.old }
    ensures recurrence { Scrambling bits.old bits.new }
{
    let mut sequence = Sequence::new();
    for bit in bits.iter_mut() {
        *bit ^= sequence.next();
    }
}
