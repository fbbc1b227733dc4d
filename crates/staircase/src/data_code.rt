// Codes of the data: their numbers are a shape and exponents.
ghost use Rattle.std.specs.Prelude.{◌≡◌, ◌+◌, ◌*◌, IfOk, List, ℤ};
ghost use Rattle.staircase.specs.Staircase.{Smallest};
ghost use Rattle.staircase.specs.declared.shape.Shape.{Shape};

use crate::exponents::Exponents;
use codes::words::SendingCode;
use std::alloc::{AllocError, Global};

// A code of the data, which can be filled again. What its words are is for the code to say.
pub trait DataCode: SendingCode<Symbol = bool> + Clone {
    ghost shape: { Self → Shape };

    ghost exponents: { Self → List ℤ };

    // The smallest code, which is to be filled.
    fn new(heap: Global) -> Result<Self, AllocError>
        ensures { IfOk result (λ c. Smallest (shape c).lift (shape c).rows (shape c).columns (exponents c)) };

    // Makes this the code with the exponents given.
    fn fill(&mut self, given: Exponents<'_>)
        ensures shape { shape self.new ≡ given.entry.shape }
        ensures exponents { exponents self.new ≡ given.entry.values.now };

    // k = K × L and n = (K + M) × L
    ghost message_sized: { (c : Self) → Self.message_length c ≡ (shape c).columns * (shape c).lift };

    ghost word_sized: { (c : Self) → Self.word_length c ≡ ((shape c).columns + (shape c).rows) * (shape c).lift };

    // a clone has the same numbers, and the same words
    ghost same_shape: { (c d : Self) → Self.is_clone c d → shape d ≡ shape c };

    ghost same_exponents: { (c d : Self) → Self.is_clone c d → exponents d ≡ exponents c };

    ghost same_words: { (c d : Self) → Self.is_clone c d → Self.word d ≡ Self.word c };
}
