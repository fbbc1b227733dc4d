// Any stream whole: record, scrambling, symbols, word, cells, and back.
ghost use Rattle.std.specs.Prelude.{◌≡◌, ℕ, ◌*◌, ◌-◌, ◌≤◌, length};
ghost use Rattle.cells.specs.Cells.{cell_bits};
ghost use Rattle.streams.specs.Records.{record_read, with_check};
ghost use Rattle.modem.specs.Carrying.{ToldApart};
ghost use Rattle.modem.specs.Reading.{ReadsBack, StreamAnswer};
ghost use Rattle.modem.specs.Stream.{stream_trace};

use crate::carrying::{Reading, carry, mend_record};
use crate::fault::StreamFault;
use bits::{cut, scramble};
use cells::{Cell, Constellation, Modulation};
use codes::lengths::FixedCode;
use codes::words::{MendingCode, SendingCode};
use streams::{Record, read_record, write_record};

// A stream at every step of sending.
#[derive(Clone, Copy)]
pub struct Trace<const BITS: usize, const MESSAGE: usize, const WORD: usize, const CELLS: usize> {
    pub record: [bool; BITS],
    pub scrambled: [bool; BITS],
    pub message: [u8; MESSAGE],
    pub word: [u8; WORD],
    pub cells: [Cell; CELLS],
}

// Every step from what is stated to its cells. Words of different records are told apart by the code's distance.
pub(crate) fn write_stream<
    R: Record<BITS>,
    C: FixedCode<MESSAGE, WORD>,
    Q: Constellation,
    const BITS: usize,
    const MESSAGE: usize,
    const WORD: usize,
    const CELLS: usize,
>(code: &C, modulation: &Modulation<'_, Q>, stated: R) -> Trace<BITS, MESSAGE, WORD, CELLS>
    requires symbols { BITS ≡ 7 * MESSAGE }
    requires short { WORD ≤ 5120 }
    requires room { 7 * WORD ≤ cell_bits modulation.now.order * CELLS }
    ensures steps { result ≡ stream_trace BITS MESSAGE WORD CELLS (λ (r : R). with_check (R.Record.field_bits r)) (C.SendingCode.word code.now) (Q.Constellation.point modulation.now.points.now modulation.now.order) (cell_bits modulation.now.order) stated }
    ensures apart { ToldApart (λ (r : R). with_check (R.Record.field_bits r)) MESSAGE (C.SendingCode.word code.now) (C.SendingCode.distance code.now) stated }
{
    let record = write_record(stated);
    let mut scrambled = record;
    scramble(&mut scrambled[..]);
    let mut message = [0; MESSAGE];
    cut::<7>(&scrambled[..], &mut message[..]);
    let mut word = [0; WORD];
    code.encode(&message[..], &mut word[..]);
    let mut cells = [Cell::ORIGIN; CELLS];
    carry(modulation, &word[..], &mut cells[..]);
    Trace {
        record,
        scrambled,
        message,
        word,
        cells,
    }
}

// What the cells of a stream state, and the symbols mended, or what is wrong with it.
// What was sent is read back, on however many cells its word was.
pub(crate) fn read_stream<
    R: Record<BITS>,
    C: FixedCode<MESSAGE, WORD> + MendingCode<Symbol = u8>,
    Q: Constellation,
    const BITS: usize,
    const MESSAGE: usize,
    const WORD: usize,
>(code: &C, modulation: &Modulation<'_, Q>, cells: &[Cell]) -> Result<Reading<R>, StreamFault>
    requires symbols { BITS ≡ 7 * MESSAGE }
    requires short { BITS ≤ 35840 }
    requires room { 7 * WORD ≤ cell_bits modulation.now.order * length cells.now }
    ensures answer { StreamAnswer MESSAGE WORD (C.SendingCode.word code.now) (C.MendingCode.reach code.now) (Q.Constellation.decided modulation.now.points.now modulation.now.order) (λ (r : R). with_check (R.Record.field_bits r)) (record_read (BITS - 8) R.Record.stated) cells.now result }
    ensures reads_back { (count : ℕ) → 7 * WORD ≤ cell_bits modulation.now.order * count → ReadsBack MESSAGE WORD (C.SendingCode.word code.now) (C.MendingCode.reach code.now) (Q.Constellation.decided modulation.now.points.now modulation.now.order) (λ (r : R). with_check (R.Record.field_bits r)) (record_read (BITS - 8) R.Record.stated) (Q.Constellation.point modulation.now.points.now modulation.now.order) (cell_bits modulation.now.order) count cells.now result }
{
    let mut message = [0; MESSAGE];
    let mut record = [false; BITS];
    let mended = mend_record(code, modulation, cells, &mut message[..], &mut record[..])?;
    let stated = read_record(&record)?;
    Ok(Reading { stated, mended })
}
