// The exponents of a code, in a slice of the caller's.
ghost use Rattle.std.specs.Prelude.{Decides};
ghost use Rattle.staircase.specs.Staircase.{Filled, InRange};

use crate::shape::Shape;

// The exponents of a code of a shape, row by row. The type carries their number and their bounds.
#[derive(Clone, Copy)]
pub struct Exponents<'a> {
    pub(crate) shape: Shape,
    pub(crate) values: &'a [i16],
    ghost filled: { Filled shape.lift shape.rows shape.columns values.now },
}

// Why numbers are not the exponents of a code.
#[derive(Clone, Copy, PartialEq, Eq, Debug)]
pub enum ExponentsFault {
    // there are not M × K of them
    Count,
    // the place of one that is out of range
    OutOfRange(usize),
}

// Whether an exponent is in range.
fn in_range(exponent: i16, shape: Shape) -> bool
    ensures { Decides result (InRange shape.lift exponent) }
{
    (-1..shape.lift as i16).contains(&exponent)
}

impl<'a> Exponents<'a> {
    ghost use Rattle.std.specs.Prelude.{◌≡◌, MatchResult};
    ghost use Rattle.staircase.specs.Faults.{Faulty};

    // The numbers as the exponents of a code of the shape, where they are.
    pub fn new(shape: Shape, values: &'a [i16]) -> Result<Self, ExponentsFault>
        ensures { MatchResult result (λ e. (e.shape ≡ shape) × (e.values.now ≡ values.now)) (λ fault. Faulty shape.lift shape.rows shape.columns values.now fault) }
    {
        if values.len() != shape.exponents() {
            return Err(ExponentsFault::Count);
        }
        match values
            .iter()
            .position(|exponent| !in_range(*exponent, shape))
        {
            Some(place) => Err(ExponentsFault::OutOfRange(place)),
            None => Ok(Exponents { shape, values }),
        }
    }
}
