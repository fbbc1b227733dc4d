// Data words that follow one another.
ghost use Rattle.std.specs.Prelude.{◌≡◌, ◌+◌, ◌-◌, ◌*◌, ◌<◌, ◌≤◌, length};
ghost use Rattle.frames.specs.Words.{coded, DataMended};

use crate::fault::LostWord;
use codes::words::{MendingCode, SendingCode};

// Writes the words of so many messages.
pub(crate) fn encode_words<D: SendingCode<Symbol = bool>>(
    code: &D,
    count: usize,
    messages: &[bool],
    words: &mut [bool],
)
    requires messages { length messages.now ≡ count * D.message_length code.now }
    requires words { length words.old ≡ count * D.word_length code.now }
    ensures { words.new ≡ coded (D.word code.now) (D.message_length code.now) count messages.now }
{
    if count == 0 {
        return;
    }
    let (message, more) = messages.split_at(code.message_length());
    let (word, rest) = words.split_at_mut(code.word_length());
    code.encode(message, word);
    encode_words(code, count - 1, more, rest);
}

// Mends the messages of so many words, or answers the first one that is beyond reach.
pub(crate) fn mend_words<D: MendingCode<Symbol = bool>>(
    code: &D,
    count: usize,
    words: &[bool],
    messages: &mut [bool],
) -> Result<(), LostWord>
    requires words { length words.now ≡ count * D.SendingCode.word_length code.now }
    requires messages { length messages.old ≡ count * D.SendingCode.message_length code.now }
    ensures size { length messages.new ≡ length messages.old }
    ensures answer { DataMended (D.SendingCode.word code.now) (D.MendingCode.reach code.now) (D.SendingCode.message_length code.now) (D.SendingCode.word_length code.now) count words.now messages.new result }
{
    if count == 0 {
        return Ok(());
    }
    let (before, word) = words.split_at(words.len() - code.word_length());
    let (earlier, message) = messages.split_at_mut(messages.len() - code.message_length());
    mend_words(code, count - 1, before, earlier)?;
    code.mend(word, message)
        .map_err(|_| LostWord { word: count - 1 })?;
    Ok(())
}
