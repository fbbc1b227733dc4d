// The numbers of a staircase code.
ghost use Rattle.std.specs.Prelude.{◌≡◌, ◌≤◌, vec_capacity};
ghost use Rattle.staircase.specs.Staircase.{Filled};

use crate::data_code::DataCode;
use crate::exponents::Exponents;
use crate::shape::{COLUMNS, ROWS, Shape};
use std::alloc::{AllocError, Global};

// A code with its shape, and its exponents row by row.
// Room for all exponents that a code can have is reserved when it is made, so that filling it again needs no memory.
#[derive(Drop)]
pub struct Staircase {
    pub(crate) shape: Shape,
    pub(crate) exponents: Vec<i16>,
    ghost filled: { Filled shape.lift shape.rows shape.columns exponents.items },
    ghost room: { 384 ≤ vec_capacity exponents },
}

// the most exponents that a code has
const ROOM: usize = ROWS * COLUMNS;

impl DataCode for Staircase {
    ghost use Rattle.std.specs.Prelude.{refl};
    ghost use Rattle.staircase.specs.Staircase.{word_of};

    ghost shape = { λ c. c.shape };

    ghost exponents = { λ c. c.exponents.items };

    ghost message_sized = { λ c. refl };

    ghost word_sized = { λ c. refl };

    ghost same_shape = { λ c d same. same.0 };

    ghost same_exponents = { λ c d same. same.1 };

    ghost same_words = { λ c d same i. word_of (same.0 i).lift (same.0 i).rows (same.0 i).columns (same.1 i) };

    // One bit and its check, with no column in the row's sum.
    fn new(heap: Global) -> Result<Self, AllocError> {
        let mut exponents = Vec::with_capacity(heap, ROOM)?;
        exponents.push_reserved(-1);
        Ok(Staircase {
            shape: Shape {
                lift: 1,
                rows: 1,
                columns: 1,
            },
            exponents,
        })
    }

    fn fill(&mut self, given: Exponents<'_>) {
        self.exponents.clear();
        // there is room, so this does not fail
        let _ = self.exponents.extend_from_slice(given.values);
        self.shape = given.shape;
    }
}

// A clone has the same numbers, and room for all exponents too.
impl Clone for Staircase {
    ghost is_clone = { λ c d. (d.shape ≡ c.shape) × (d.exponents.items ≡ c.exponents.items) };

    fn clone(&self) -> Result<Self, AllocError> {
        let mut exponents = Vec::with_capacity(*self.exponents.allocator(), ROOM)?;
        exponents.extend_from_slice(self.exponents.as_slice())?;
        Ok(Staircase {
            shape: self.shape,
            exponents,
        })
    }
}
