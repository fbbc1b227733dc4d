// Polynomials over GF(128), by their coefficients: the highest power stands first.
ghost use Rattle.std.specs.Prelude.{◌≡◌, length};
ghost use Rattle.reed_solomon.specs.Words.{Symbols, value_at};
ghost use Rattle.reed_solomon.specs.ValuesLemmas.{symbols_prop};

use crate::field::{power, product, sum};
use codes::seven::SevenBit;

// The coefficients, which are symbols.
#[derive(Clone, Copy)]
pub(crate) struct Polynomial<'a> {
    coefficients: &'a [u8],
    ghost below: { Symbols coefficients.now } by { symbols_prop coefficients.now },
}

impl<'a> Polynomial<'a> {
    pub(crate) fn new(coefficients: &'a [u8]) -> Self
        requires { Symbols coefficients.now }
        ensures { result.coefficients.now ≡ coefficients.now }
    {
        Polynomial { coefficients }
    }

    pub(crate) fn as_slice(self) -> &'a [u8]
        ensures { result.now ≡ self.entry.coefficients.now }
    {
        self.coefficients
    }

    // How many coefficients there are.
    pub(crate) fn len(self) -> usize
        ensures { result ≡ length self.entry.coefficients.now }
    {
        self.coefficients.len()
    }

    // The value at α^j.
    #[tactic(auto, using(crate::specs::ValuesLemmas::symbols_at, crate::specs::ValuesLemmas::value_at_none))]
    pub(crate) fn value_at(self, j: usize) -> SevenBit
        ensures { result.number ≡ value_at j self.entry.coefficients.now }
    {
        let point = power(j);
        let mut value = SevenBit::of(0);
        for c in self.coefficients {
            value = sum(product(value, point), SevenBit::of(*c));
        }
        value
    }
}
