// Codes by their words: each message of k symbols has one word of n symbols.
ghost use Rattle.std.specs.Prelude.{◌≡◌, ℕ, ◌*◌, ◌<◌, ◌≤◌, List, length};
ghost use Rattle.codes.specs.Symbols.{differing, Below128};
ghost use Rattle.codes.specs.Mending.{Mended};

use crate::symbols::Symbol;

// No word of the code is within its reach of the symbols given.
#[derive(Clone, Copy, PartialEq, Eq, Debug)]
pub struct BeyondReach;

// A code that answers the word of every message.
pub trait SendingCode {
    type Symbol: Symbol;

    // k, n and the distance d
    ghost message_length: { Self → ℕ };

    ghost word_length: { Self → ℕ };

    ghost distance: { Self → ℕ };

    ghost word: { Self → List Self.Symbol → List Self.Symbol };

    fn message_length(&self) -> usize
        ensures { result ≡ message_length self.now };

    fn word_length(&self) -> usize
        ensures { result ≡ word_length self.now };

    // Writes the word of the message.
    fn encode(&self, message: &[Self::Symbol], out: &mut [Self::Symbol])
        requires size { length message.now ≡ message_length self.now }
        requires below { Below128 Self.Symbol.Symbol.number message.now }
        requires room { length out.old ≡ word_length self.now }
        ensures { out.new ≡ word self.now message.now };

    ghost sized: { (c : Self) (m : List Self.Symbol) → length m ≡ message_length c → length (word c m) ≡ word_length c };

    ghost below: { (c : Self) (m : List Self.Symbol) → length m ≡ message_length c → Below128 Self.Symbol.Symbol.number m → Below128 Self.Symbol.Symbol.number (word c m) };

    ghost short: { (c : Self) → word_length c ≤ 5120 };

    ghost positive: { (c : Self) → 1 ≤ distance c };

    // words of different messages differ in at least d places
    ghost distant: { (c : Self) (m o : List Self.Symbol) → length m ≡ message_length c → length o ≡ message_length c → Below128 Self.Symbol.Symbol.number m → Below128 Self.Symbol.Symbol.number o → differing Self.Symbol.Symbol.number (word c m) (word c o) < distance c → m ≡ o };
}

// A sending code that also answers the message of a word with wrong symbols, as far as its reach goes:
// the reach is the largest number of wrong symbols that it mends.
pub trait MendingCode: SendingCode {
    ghost reach: { Self → ℕ };

    // Writes the message whose word is within reach of the symbols given, and answers in how many places they differ.
    fn mend(
        &self,
        given: &[Self::Symbol],
        message: &mut [Self::Symbol],
    ) -> Result<usize, BeyondReach>
        requires size { length given.now ≡ Self.SendingCode.word_length self.now }
        requires below { Below128 Self.Symbol.Symbol.number given.now }
        requires room { length message.old ≡ Self.SendingCode.message_length self.now }
        ensures { Mended Self.Symbol.Symbol.number (Self.SendingCode.message_length self.now) (Self.SendingCode.word self.now) (reach self.now) given.now message.old message.new result };

    // no two words are within reach of the same symbols
    ghost unique: { (c : Self) → 2 * reach c < Self.SendingCode.distance c };
}
