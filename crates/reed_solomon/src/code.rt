// Reed-Solomon codes over GF(128), by their generators.
ghost use Rattle.std.specs.Prelude.{◌≡◌, ◌+◌, ◌≤◌, Decides, length, replicate, take};
ghost use Rattle.reed_solomon.specs.Generators.{generator_of};
ghost use Rattle.reed_solomon.specs.Theorems.{WordsByRoots};
ghost use Rattle.reed_solomon.specs.Words.{Symbols, divide_step, divided, word_of};
ghost use Rattle.std.proofs.Common.{arith, rules, sym, ◌∙◌};
ghost use Rattle.reed_solomon.specs.Codes.{code_sized, code_below, code_distant};

use crate::field::{Factor, sum};
use crate::polynomials::Polynomial;
use codes::lengths::FixedCode;
use codes::seven::SevenBit;
use codes::words::SendingCode;

// The words of MESSAGE symbols and ROOTS check symbols whose roots are α … α^ROOTS.
// The generator (X + α)…(X + α^ROOTS) stands without its leading 1.
#[derive(Clone, Copy)]
pub struct ReedSolomon<const ROOTS: usize, const MESSAGE: usize, const WORD: usize> {
    pub(crate) generator: [u8; ROOTS],
    ghost by_roots: { generator ≡ generator_of ROOTS },
    ghost two: { 2 ≤ ROOTS },
    ghost lengths: { WORD ≡ MESSAGE + ROOTS },
    ghost short: { WORD ≤ 127 },
}

impl<const ROOTS: usize, const MESSAGE: usize, const WORD: usize> ReedSolomon<
    ROOTS,
    MESSAGE,
    WORD,
> {
    // How many powers of α, from α on, are the roots of the words. The roots tell the words.
    pub fn roots(&self) -> usize
        ensures number { result ≡ ROOTS }
        ensures words { WordsByRoots result MESSAGE (word_of (generator_of ROOTS)) }
    {
        ROOTS
    }

    // One more symbol of what is divided goes into the remainder of a division by the generator.
    fn step(&self, rest: &mut [u8; ROOTS], symbol: SevenBit)
        requires { Symbols rest.old }
        ensures { rest.new ≡ divide_step (generator_of ROOTS) rest.old symbol.number }
    {
        let factor = Factor::new(sum(symbol, SevenBit::of(rest[0])));
        let last = ROOTS - 1;
        for i in 0..last {
            let taken = factor.times(SevenBit::of(self.generator[i]));
            rest[i] = sum(SevenBit::of(rest[i + 1]), taken).number();
        }
        // nothing stands behind the last place
        rest[last] = factor.times(SevenBit::of(self.generator[last])).number();
    }

    // The remainder of the message's division by the generator.
    #[tactic(auto, using(crate::specs::ValuesLemmas::symbols_at, crate::specs::ValuesLemmas::symbols_zeros, crate::specs::Division::symbols_step, crate::specs::GeneratorsLemmas::generator_is, crate::proofs::Steps::divided_more, crate::proofs::Steps::divided_all))]
    fn remainder(&self, message: Polynomial) -> [u8; ROOTS]
        ensures { result ≡ divided (generator_of ROOTS) (replicate ROOTS 0) message.entry.coefficients.now }
    {
        let mut rest = [0; ROOTS];
        for symbol in message.as_slice() {
            self.step(&mut rest, SevenBit::of(*symbol));
        }
        rest
    }

    // Whether the symbols are a word: behind the message stands its remainder.
    pub(crate) fn is_word(&self, symbols: &[u8]) -> bool
        requires size { length symbols.now ≡ WORD }
        requires below { Symbols symbols.now }
        ensures { Decides result (symbols.now ≡ word_of (generator_of ROOTS) (take MESSAGE symbols.now)) }
    {
        let (message, checks) = symbols.split_at(symbols.len() - self.roots());
        let rest = self.remainder(Polynomial::new(message));
        rest.as_slice() == checks
    }
}

impl<const ROOTS: usize, const MESSAGE: usize, const WORD: usize> SendingCode
    for ReedSolomon<ROOTS, MESSAGE, WORD> {
    type Symbol = u8;

    ghost message_length = { λ _. MESSAGE };

    ghost word_length = { λ _. WORD };

    ghost distance = { λ _. ROOTS + 1 };

    ghost word = { λ _ m. word_of (generator_of ROOTS) m };

    ghost sized = { λ c m h. code_sized ROOTS MESSAGE (omega arith) (omega arith) m h ∙ sym c.lengths };

    ghost below = { λ c m h s. code_below ROOTS MESSAGE (omega arith) (omega arith) m s };

    ghost short = { λ c. omega arith };

    ghost positive = { λ c. omega arith };

    ghost distant = { λ c m o h k s t d. code_distant ROOTS MESSAGE (omega arith) (omega arith) m o h k s t d };

    fn message_length(&self) -> usize {
        MESSAGE
    }

    fn word_length(&self) -> usize {
        self.roots() + MESSAGE
    }

    fn encode(&self, message: &[u8], out: &mut [u8]) {
        let (front, rest) = out.split_at_mut(MESSAGE);
        front.copy_from_slice(message);
        rest.copy_from_slice(&self.remainder(Polynomial::new(message)));
    }
}

impl<const ROOTS: usize, const MESSAGE: usize, const WORD: usize> FixedCode<MESSAGE, WORD>
    for ReedSolomon<ROOTS, MESSAGE, WORD> {
    ghost message = { Prim.search rules };

    ghost word = { Prim.search rules };
}
