// The codes that the streams of seven-bit symbols ask for, by their lengths.
ghost use Rattle.std.specs.Prelude.{◌≡◌};

use crate::words::SendingCode;

// A code of seven-bit symbols with words of one length: MESSAGE symbols to WORD.
pub trait FixedCode<const MESSAGE: usize, const WORD: usize>: SendingCode<Symbol = u8> {
    ghost message: { (c : Self) → Self.SendingCode.message_length c ≡ MESSAGE };

    ghost word: { (c : Self) → Self.SendingCode.word_length c ≡ WORD };
}
