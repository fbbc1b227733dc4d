// The TIS whole: 63 bits of record, 29 symbols, up to 102 cells, and back.
ghost use Rattle.std.specs.Prelude.{◌≡◌};
ghost use Rattle.streams.specs.Tis.{tis_record};
ghost use Rattle.modem.specs.Carrying.{ToldApart};
ghost use Rattle.modem.specs.TisStream.{tis_order, tis_trace, TisAnswer, TisReadsBack};

use crate::carrying::Reading;
use crate::fault::StreamFault;
use crate::stream::{Trace, read_stream, write_stream};
use cells::{Cell, Constellation, Modulation, Order};
use codes::lengths::FixedCode;
use codes::words::{MendingCode, SendingCode};
use modes::{Tis, TisConstellation};

// The TIS at every step of sending. At 16-QAM the last 51 cells are (0,0).
pub type TisTrace = Trace<63, 9, 29, 102>;

// The order of a constellation of the TIS.
fn order_of(constellation: TisConstellation) -> Order
    ensures { result ≡ tis_order constellation }
{
    match constellation {
        TisConstellation::Qam4 => Order::Four,
        TisConstellation::Qam16 => Order::Sixteen,
    }
}

// Every step from what a TIS states to its cells. Words of different records are told apart by the code's distance.
pub fn write_tis<C: FixedCode<9, 29>, Q: Constellation>(
    code: &C,
    points: &Q,
    constellation: TisConstellation,
    tis: Tis,
) -> TisTrace
    ensures steps { result ≡ tis_trace (C.SendingCode.word code.now) (Q.Constellation.point points.now) constellation tis }
    ensures apart { ToldApart tis_record 9 (C.SendingCode.word code.now) (C.SendingCode.distance code.now) tis }
{
    let modulation = Modulation {
        points,
        order: order_of(constellation),
    };
    write_stream(code, &modulation, tis)
}

// What the cells of a TIS state, and the symbols mended, or what is wrong with it. At 16-QAM the last 51 cells are ignored.
pub fn read_tis<C: FixedCode<9, 29> + MendingCode<Symbol = u8>, Q: Constellation>(
    code: &C,
    points: &Q,
    constellation: TisConstellation,
    cells: &[Cell; 102],
) -> Result<Reading<Tis>, StreamFault>
    ensures answer { TisAnswer (C.SendingCode.word code.now) (C.MendingCode.reach code.now) (Q.Constellation.decided points.now) constellation cells.now result }
    ensures reads_back { TisReadsBack (C.SendingCode.word code.now) (C.MendingCode.reach code.now) (Q.Constellation.decided points.now) (Q.Constellation.point points.now) constellation cells.now result }
{
    let modulation = Modulation {
        points,
        order: order_of(constellation),
    };
    read_stream(code, &modulation, cells)
}
