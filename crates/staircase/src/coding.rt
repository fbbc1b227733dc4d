// The staircase code as a code of bits. It finds wrong bits by its checks, and mends none.
ghost use Rattle.std.specs.Prelude.{◌≡◌, ◌*◌, Bool, List, take};
ghost use Rattle.std.proofs.Common.{sym, ap, ◌∙◌, arith, rules};
ghost use Rattle.codes.specs.Symbols.{bit_number};
ghost use Rattle.codes.specs.SymbolsLemmas.{below-bits, same_from_none, tell_bits};
ghost use Rattle.staircase.specs.Coding.{message_size, word_in, word_size};
ghost use Rattle.staircase.specs.Holding.{length-word, word-short, message_of_lem};
ghost use Rattle.staircase.specs.Staircase.{word_of};

use crate::code::Staircase;
use codes::words::{BeyondReach, MendingCode, SendingCode};

impl SendingCode for Staircase {
    type Symbol = bool;

    ghost message_length = { message_size };

    ghost word_length = { word_size };

    ghost distance = { λ c. 1 };

    ghost word = { word_in };

    ghost sized = { λ c m h. length-word c.shape.lift c.shape.rows c.shape.columns c.exponents.items m h };

    ghost below = { λ c m h b. below-bits (word_of c.shape.lift c.shape.rows c.shape.columns c.exponents.items m) };

    ghost short = { λ c. word-short c.shape.lift c.shape.rows c.shape.columns c.shape.lifted c.shape.shaped };

    ghost positive = { Prim.search rules };

    // words that differ in no place begin with the same message
    ghost distant = { λ c m o h k b d near.
        let word : List Bool → List Bool = word_of c.shape.lift c.shape.rows c.shape.columns c.exponents.items in
        let same : word m ≡ word o = same_from_none bit_number tell_bits (word m) (word o) (omega arith) in
        sym (message_of_lem c.shape.lift c.shape.rows c.shape.columns c.exponents.items m h)
        ∙ ap (take (c.shape.columns * c.shape.lift)) same
        ∙ message_of_lem c.shape.lift c.shape.rows c.shape.columns c.exponents.items o k };

    fn message_length(&self) -> usize {
        self.shape.message_length()
    }

    fn word_length(&self) -> usize {
        self.shape.word_length()
    }

    fn encode(&self, message: &[bool], out: &mut [bool]) {
        let (front, checks) = out.split_at_mut(message.len());
        front.copy_from_slice(message);
        self.write_checks(message, checks);
    }
}

impl MendingCode for Staircase {
    ghost reach = { λ c. 0 };

    ghost unique = { Prim.search rules };

    fn mend(&self, given: &[bool], message: &mut [bool]) -> Result<usize, BeyondReach> {
        if !self.checks_hold(given) {
            return Err(BeyondReach);
        }
        message.copy_from_slice(&given[..self.shape.message_length()]);
        Ok(0)
    }
}
