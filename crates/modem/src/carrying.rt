// The symbols of any stream on cells, by any code and constellation, and back.
ghost use Rattle.std.specs.Prelude.{◌≡◌, ◌*◌, ◌≤◌, length};
ghost use Rattle.cells.specs.Cells.{cell_bits};
ghost use Rattle.modem.specs.Carrying.{cells_of, symbols_of};
ghost use Rattle.modem.specs.Reading.{RecordMended};

use bits::{cut, scramble, spread};
use cells::{Cell, Constellation, Modulation};
use codes::words::{BeyondReach, MendingCode};

// the symbols of the longest word
const MOST_SYMBOLS: usize = 5120;

// its bits, seven to a symbol
const MOST_BITS: usize = 7 * MOST_SYMBOLS;

// What a stream's record states, and how many symbols were mended.
#[derive(Clone, Copy)]
pub struct Reading<T> {
    pub stated: T,
    pub mended: usize,
}

// Fills the cells with the word's symbols; further cells are zero.
pub fn carry<Q: Constellation>(modulation: &Modulation<'_, Q>, word: &[u8], cells: &mut [Cell])
    requires short { length word.now ≤ 5120 }
    requires room { 7 * length word.now ≤ cell_bits modulation.now.order * length cells.old }
    ensures { cells.new ≡ cells_of (Q.point modulation.now.points.now modulation.now.order) (cell_bits modulation.now.order) (length cells.old) word.now }
{
    let mut store = [false; MOST_BITS];
    let bits = &mut store[0..7 * word.len()];
    spread::<7>(word, bits);
    modulation.map_bits(bits, cells);
}

// Decides the symbols of a word from its cells.
pub fn decide_word<Q: Constellation>(
    modulation: &Modulation<'_, Q>,
    cells: &[Cell],
    word: &mut [u8],
)
    requires short { length word.old ≤ 5120 }
    requires room { 7 * length word.old ≤ cell_bits modulation.now.order * length cells.now }
    ensures { word.new ≡ symbols_of (Q.decided modulation.now.points.now modulation.now.order) (length word.old) cells.now }
{
    let mut store = [false; MOST_BITS];
    let bits = &mut store[0..7 * word.len()];
    modulation.decide_bits(cells, bits);
    cut::<7>(bits, word);
}

// Mends the message that cells carry, and writes its record's bits; where it is beyond reach nothing is written.
pub(crate) fn mend_record<C: MendingCode<Symbol = u8>, Q: Constellation>(
    code: &C,
    modulation: &Modulation<'_, Q>,
    cells: &[Cell],
    message: &mut [u8],
    bits: &mut [bool],
) -> Result<usize, BeyondReach>
    requires size { length message.old ≡ C.SendingCode.message_length code.now }
    requires record_size { length bits.old ≡ 7 * length message.old }
    requires room { 7 * C.SendingCode.word_length code.now ≤ cell_bits modulation.now.order * length cells.now }
    ensures { RecordMended (C.SendingCode.message_length code.now) (C.SendingCode.word_length code.now) (C.SendingCode.word code.now) (C.MendingCode.reach code.now) (Q.Constellation.decided modulation.now.points.now modulation.now.order) cells.now message.old message.new bits.old bits.new result }
{
    let mut store = [0; MOST_SYMBOLS];
    let given = &mut store[0..code.word_length()];
    decide_word(modulation, cells, given);
    let mended = code.mend(given, message)?;
    spread::<7>(message, bits);
    scramble(bits);
    Ok(mended)
}
