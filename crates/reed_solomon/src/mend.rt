// Mending one wrong symbol by the values at α and α^2.
ghost use Rattle.std.specs.Prelude.{◌≡◌, ℕ, ◌+◌, ◌-◌, ◌<◌, ◌≤◌, List, length, MatchOption, MatchResult};
ghost use Rattle.std.proofs.Common.{arith};
ghost use Rattle.codes.specs.Mending.{Within};
ghost use Rattle.reed_solomon.specs.Errors.{OneWrong, OnlyNear, changed};
ghost use Rattle.reed_solomon.specs.Generators.{generator_of};
ghost use Rattle.reed_solomon.specs.Words.{Symbols, value_at, word_of};

use crate::code::ReedSolomon;
use crate::field::{power, product, ratio, sum};
use crate::polynomials::Polynomial;
use codes::seven::SevenBit;
use codes::words::{BeyondReach, MendingCode, SendingCode};

// One wrong symbol: its place, counted from the end, and what to add to it.
#[derive(Clone, Copy)]
struct WrongSymbol {
    place: usize,
    error: SevenBit,
}

impl WrongSymbol {
    // The one that gives the values at α and α^2, and none where the first of them is 0.
    fn by_values(given: Polynomial) -> Result<Option<Self>, BeyondReach>
        requires { length given.coefficients.now ≤ 127 }
        ensures { MatchResult result (λ o. MatchOption o (value_at 1 given.entry.coefficients.now ≡ 0) (λ w. OneWrong 2 given.entry.coefficients.now w.place w.error.number)) (λ _. (0 < value_at 1 given.entry.coefficients.now) × ((p e : ℕ) → OneWrong 2 given.entry.coefficients.now p e → ⊥)) }
    {
        let first = given.value_at(1);
        if first.number() == 0 {
            return Ok(None);
        }
        let second = given.value_at(2);
        if second.number() == 0 {
            return Err(BeyondReach);
        }
        let place = ratio(first, second);
        if place >= given.len() {
            return Err(BeyondReach);
        }
        let error = product(first, power(127 - place));
        Ok(Some(WrongSymbol { place, error }))
    }

    // Adds the error at its place.
    #[tactic(auto, using(crate::specs::ValuesLemmas::symbols_at))]
    fn mend(self, word: &mut [u8])
        requires place { self.place < length word.old }
        requires below { Symbols word.old }
        ensures { word.new ≡ changed word.old self.place self.error.number }
    {
        let at = word.len() - 1 - self.place;
        word[at] = sum(SevenBit::of(word[at]), self.error).number();
    }
}

impl<const ROOTS: usize, const MESSAGE: usize, const WORD: usize> ReedSolomon<
    ROOTS,
    MESSAGE,
    WORD,
> {
    // Makes of the symbols the only ones within one place that may be a word,
    // and answers in how many places these differ.
    fn mend_one(&self, symbols: &mut [u8]) -> Result<usize, BeyondReach>
        requires size { length symbols.old ≡ WORD }
        requires below { Symbols symbols.old }
        ensures { MatchResult result (λ n. OnlyNear ROOTS MESSAGE 1 symbols.old symbols.new n) (λ _. (m : List ℕ) (e : ℕ) → Within (λ x. x) MESSAGE (word_of (generator_of ROOTS)) 1 symbols.old m e → ⊥) }
    {
        match WrongSymbol::by_values(Polynomial::new(symbols))? {
            None => Ok(0),
            Some(wrong) => {
                wrong.mend(symbols);
                Ok(1)
            }
        }
    }
}

impl<const ROOTS: usize, const MESSAGE: usize, const WORD: usize> MendingCode
    for ReedSolomon<ROOTS, MESSAGE, WORD> {
    ghost reach = { λ _. 1 };

    ghost unique = { λ c. omega arith };

    fn mend(&self, given: &[u8], message: &mut [u8]) -> Result<usize, BeyondReach> {
        let mut word = [0; WORD];
        word.copy_from_slice(given);
        let mended = self.mend_one(&mut word)?;
        // the values at the other roots may still be of no word
        if !self.is_word(&word) {
            return Err(BeyondReach);
        }
        message.copy_from_slice(&word[..MESSAGE]);
        Ok(mended)
    }
}
