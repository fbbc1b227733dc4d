// The field GF(128) by tables of powers and logarithms.
ghost use Rattle.std.specs.Prelude.{◌≡◌, ◌%◌, ◌<◌, ◌==◌, cond, map, drop, bit_xor};
ghost use Rattle.std.specs.List.{range_with_len};
ghost use Rattle.reed_solomon.specs.Field.{raised, times};

use codes::seven::SevenBit;

// The powers of α: α^k stands at k. They come round after 127, and stand here twice,
// so that the sum of two logarithms is a place too.
static POWERS: [u8; 254] = [
    1, 2, 4, 8, 16, 32, 64, 9, 18, 36, 72, 25, 50, 100, 65, 11, 22, 44, 88, 57, 114, 109, 83, 47,
    94, 53, 106, 93, 51, 102, 69, 3, 6, 12, 24, 48, 96, 73, 27, 54, 108, 81, 43, 86, 37, 74, 29,
    58, 116, 97, 75, 31, 62, 124, 113, 107, 95, 55, 110, 85, 35, 70, 5, 10, 20, 40, 80, 41, 82, 45,
    90, 61, 122, 125, 115, 111, 87, 39, 78, 21, 42, 84, 33, 66, 13, 26, 52, 104, 89, 59, 118, 101,
    67, 15, 30, 60, 120, 121, 123, 127, 119, 103, 71, 7, 14, 28, 56, 112, 105, 91, 63, 126, 117,
    99, 79, 23, 46, 92, 49, 98, 77, 19, 38, 76, 17, 34, 68, 1, 2, 4, 8, 16, 32, 64, 9, 18, 36, 72,
    25, 50, 100, 65, 11, 22, 44, 88, 57, 114, 109, 83, 47, 94, 53, 106, 93, 51, 102, 69, 3, 6, 12,
    24, 48, 96, 73, 27, 54, 108, 81, 43, 86, 37, 74, 29, 58, 116, 97, 75, 31, 62, 124, 113, 107,
    95, 55, 110, 85, 35, 70, 5, 10, 20, 40, 80, 41, 82, 45, 90, 61, 122, 125, 115, 111, 87, 39, 78,
    21, 42, 84, 33, 66, 13, 26, 52, 104, 89, 59, 118, 101, 67, 15, 30, 60, 120, 121, 123, 127, 119,
    103, 71, 7, 14, 28, 56, 112, 105, 91, 63, 126, 117, 99, 79, 23, 46, 92, 49, 98, 77, 19, 38, 76,
    17, 34, 68,
];

// The logarithms: α to the entry at a is a, but for a = 0, which is no power of α.
static LOGARITHMS: [u8; 128] = [
    0, 0, 1, 31, 2, 62, 32, 103, 3, 7, 63, 15, 33, 84, 104, 93, 4, 124, 8, 121, 64, 79, 16, 115,
    34, 11, 85, 38, 105, 46, 94, 51, 5, 82, 125, 60, 9, 44, 122, 77, 65, 67, 80, 42, 17, 69, 116,
    23, 35, 118, 12, 28, 86, 25, 39, 57, 106, 19, 47, 89, 95, 71, 52, 110, 6, 14, 83, 92, 126, 30,
    61, 102, 10, 37, 45, 50, 123, 120, 78, 114, 66, 41, 68, 22, 81, 59, 43, 76, 18, 88, 70, 109,
    117, 27, 24, 56, 36, 49, 119, 113, 13, 91, 29, 101, 87, 108, 26, 55, 40, 21, 58, 75, 107, 54,
    20, 74, 48, 112, 90, 100, 96, 97, 72, 98, 53, 73, 111, 99,
];

#[tactic(auto, unfolding(crate::specs::Field::alpha, crate::specs::Field::raised))]
fn powers() -> &'static [u8; 254]
    ensures { result.now ≡ map (λ k. raised k 1) (range_with_len 0 254) }
{
    &POWERS
}

#[tactic(auto, unfolding(crate::specs::Field::alpha, crate::specs::Field::raised))]
fn logarithms() -> &'static [u8; 128]
    ensures powers { map (λ x. raised x 1) (drop 1 result.now) ≡ range_with_len 1 127 }
    ensures below { map (λ x. x % 127) result.now ≡ result.now }
{
    &LOGARITHMS
}

// α^k, where the table has it.
#[tactic(auto, using(crate::specs::Powers::raised_lt, crate::proofs::Tables::power_there))]
fn listed_power(k: usize) -> SevenBit
    requires { k < 254 }
    ensures { result.number ≡ raised k 1 }
{
    SevenBit::of(powers()[k])
}

// α^k
#[tactic(auto, using(crate::proofs::Tables::power_around))]
pub(crate) fn power(k: usize) -> SevenBit
    ensures { result.number ≡ raised k 1 }
{
    listed_power(k % 127)
}

// The k below 127 with a = α^k.
#[tactic(auto, using(crate::proofs::Tables::logarithm_at, crate::proofs::Tables::logarithm_below))]
fn logarithm(a: SevenBit) -> usize
    requires { 0 < a.number }
    ensures below { result < 127 }
    ensures power { a.number ≡ raised result 1 }
{
    logarithms()[a.number() as usize] as usize
}

// The p below 127 with b = α^p · a.
#[tactic(auto, using(crate::proofs::Tables::raised_between))]
pub(crate) fn ratio(a: SevenBit, b: SevenBit) -> usize
    requires a_some { 0 < a.number }
    requires b_some { 0 < b.number }
    ensures below { result < 127 }
    ensures power { b.number ≡ raised result a.number }
{
    (logarithm(b) + 127 - logarithm(a)) % 127
}

// The sum of two symbols.
#[tactic(auto, using(crate::specs::Powers::xor_below))]
pub(crate) fn sum(a: SevenBit, b: SevenBit) -> SevenBit
    ensures { result.number ≡ bit_xor a.number b.number }
{
    SevenBit::of(a.number() ^ b.number())
}

// A symbol that others are multiplied by; its logarithm is taken once.
#[derive(Clone, Copy)]
pub(crate) struct Factor {
    symbol: SevenBit,
    // of a symbol that is not 0
    logarithm: usize,
    ghost below: { logarithm < 127 },
    ghost power: { symbol.number ≡ cond (symbol.number == 0) 0 (raised logarithm 1) },
}

impl Factor {
    pub(crate) fn new(symbol: SevenBit) -> Self
        ensures { result.symbol ≡ symbol }
    {
        let logarithm = if symbol.number() == 0 {
            0
        } else {
            logarithm(symbol)
        };
        Factor { symbol, logarithm }
    }

    // The product with another symbol.
    #[tactic(auto, using(crate::proofs::Tables::times_powers, crate::proofs::Tables::none_times, crate::specs::Powers::times_zero))]
    pub(crate) fn times(self, other: SevenBit) -> SevenBit
        ensures { result.number ≡ times self.symbol.number other.number }
    {
        if self.symbol.number() == 0 || other.number() == 0 {
            return SevenBit::of(0);
        }
        listed_power(self.logarithm + logarithm(other))
    }
}

// The product of two symbols.
pub fn product(a: SevenBit, b: SevenBit) -> SevenBit
    ensures { result.number ≡ times a.number b.number }
{
    Factor::new(a).times(b)
}
