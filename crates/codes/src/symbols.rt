// Kinds of symbols, told apart by their numbers, and the places in which two runs of them differ.
ghost use Rattle.std.specs.Prelude.{◌≡◌, ℕ, ◌<◌, ◌≤◌, ◌==◌, Bool, cond, not, Some, None, length, min, count_by, zip};
ghost use Rattle.codes.specs.Symbols.{bit_number, differing};
ghost use Rattle.std.proofs.Common.{rules};

// A kind of symbol. Its meaning is the symbol's number, by which symbols of the kind are told apart.
pub trait Symbol: Copy {
    ghost number: { Self → ℕ };

    fn to_number(self) -> u8
        ensures { result ≡ number self };

    ghost told_apart: { (x y : Self) → number x ≡ number y → x ≡ y };
}

// Seven-bit symbols lie plain in arrays and slices.
impl Symbol for u8 {
    ghost number = { λ x. x };

    ghost told_apart = { Prim.search rules };

    fn to_number(self) -> u8 {
        self
    }
}

impl Symbol for bool {
    ghost number = { bit_number };

    ghost told_apart = { Prim.search rules };

    fn to_number(self) -> u8 {
        u8::from(self)
    }
}

// In how many of the places that both runs have their symbols differ.
fn count_apart<S: Symbol>(a: &[S], b: &[S]) -> usize
    ensures places { result ≡ count_by (λ p. not (S.number p.0 == S.number p.1)) (zip a.now b.now) }
    ensures few { result ≤ min (length a.now) (length b.now) }
{
    a.iter()
        .zip(b)
        .map(|(x, y)| usize::from(x.to_number() != y.to_number()))
        .sum()
}

// In how many places two runs of symbols differ; a place that only one of them has counts too.
#[tactic(auto, using(crate::proofs::Differing::differing_pairs))]
pub fn count_differing<S: Symbol>(a: &[S], b: &[S]) -> usize
    ensures { result ≡ differing S.number a.now b.now }
{
    count_apart(a, b) + a.len().abs_diff(b.len())
}
