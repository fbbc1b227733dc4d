// The MIS whole: 14 bits of record, four symbols, 14 cells, and back.
ghost use Rattle.std.specs.Prelude.{◌≡◌, ℕ};
ghost use Rattle.cells.specs.declared.cell.Order.TheVariants.{Four};
ghost use Rattle.streams.specs.Mis.{mis_record};
ghost use Rattle.modem.specs.Carrying.{ToldApart};
ghost use Rattle.modem.specs.MisStream.{mis_trace, MisAnswer, MisReadsBack};

use crate::carrying::Reading;
use crate::fault::StreamFault;
use crate::stream::{Trace, read_stream, write_stream};
use cells::{Cell, Constellation, Modulation, Order};
use codes::lengths::FixedCode;
use codes::words::{MendingCode, SendingCode};
use modes::Mis;

// The MIS at every step of sending.
pub type MisTrace = Trace<14, 2, 4, 14>;

// Every step from the three numbers of a MIS to its cells. Words of different records are told apart by the code's distance.
pub fn write_mis<C: FixedCode<2, 4>, Q: Constellation>(code: &C, points: &Q, mis: Mis) -> MisTrace
    ensures apart { ToldApart mis_record 2 (C.SendingCode.word code.now) (C.SendingCode.distance code.now) mis }
    ensures steps { result ≡ mis_trace (C.SendingCode.word code.now) (Q.Constellation.point points.now Four) mis }
{
    let modulation = Modulation {
        points,
        order: Order::Four,
    };
    write_stream(code, &modulation, mis)
}

// The three numbers that the cells of a MIS state, and the symbols mended, or what is wrong with it.
pub fn read_mis<C: FixedCode<2, 4> + MendingCode<Symbol = u8>, Q: Constellation>(
    code: &C,
    points: &Q,
    cells: &[Cell; 14],
) -> Result<Reading<Mis>, StreamFault>
    ensures answer { MisAnswer (C.SendingCode.word code.now) (C.MendingCode.reach code.now) (Q.Constellation.decided points.now Four) cells.now result }
    ensures reads_back { MisReadsBack (C.SendingCode.word code.now) (C.MendingCode.reach code.now) (Q.Constellation.decided points.now Four) (Q.Constellation.point points.now Four) cells.now result }
{
    let modulation = Modulation {
        points,
        order: Order::Four,
    };
    read_stream(code, &modulation, cells)
}
