// The cells of a frame, and the kinds that a plan gives them.
ghost use Rattle.std.specs.Prelude.{◌≡◌, ◌≤◌, length, MatchOption, vec_capacity};
ghost use Rattle.modes.specs.Modes.{occupancy_number, tis_number};
ghost use Rattle.lineup.specs.Kinds.{kind_number, plan_bytes};
ghost use Rattle.lineup.specs.LineUps.{BadByte, BytesKnown, cells_of, cells_of_kind, streams_fit};

use crate::kind::CellKind;
use modes::{Occupancy, TisConstellation};

// the cells that the MIS takes
const MIS_CELLS: usize = 14;

// the symbols of a frame
const SYMBOLS: usize = 15;

// The cells of a frame.
pub(crate) fn frame_cells(occupancy: Occupancy) -> usize
    ensures { result ≡ cells_of (occupancy_number occupancy) }
{
    let carriers = match occupancy {
        Occupancy::Khz1 => 23,
        Occupancy::Khz3 => 69,
        Occupancy::Khz5 => 115,
        Occupancy::Khz10 => 229,
    };
    SYMBOLS * carriers
}

// How many cells of a plan are of a kind.
pub(crate) fn count(plan: &[u8], kind: CellKind) -> usize
    ensures { result ≡ cells_of_kind (kind_number kind) plan.now }
{
    let number = u8::from(kind);
    plan.iter().map(|byte| usize::from(*byte == number)).sum()
}

// The place of a byte that stands for no kind, if there is one.
pub(crate) fn bad_byte(plan: &[u8]) -> Option<usize>
    ensures { MatchOption result (BytesKnown plan.now) (λ place. BadByte plan.now place) }
{
    let last = u8::from(CellKind::Data);
    plan.iter().position(|byte| *byte > last)
}

// Whether the MIS and the TIS have cells enough.
#[tactic(auto, using(crate::proofs::Sizes::tis_cells_counted))]
pub(crate) fn streams_fit(tis: TisConstellation, plan: &[u8]) -> bool
    ensures { result ≡ streams_fit (tis_number tis) plan.now }
{
    let mis = count(plan, CellKind::Mis);
    mis >= MIS_CELLS && count(plan, CellKind::Tis) >= tis.cell_count()
}

// Makes the plan the kinds that the bytes stand for. There is room for them, so no memory is needed.
pub(crate) fn write_plan(bytes: &[u8], plan: &mut Vec<CellKind>)
    requires known { BytesKnown bytes.now }
    requires room { length bytes.now ≤ vec_capacity plan.old }
    ensures kinds { plan_bytes plan.new.items ≡ bytes.now }
    ensures room { vec_capacity plan.old ≤ vec_capacity plan.new }
{
    let _there_is_room = plan.resize(bytes.len(), CellKind::Empty);
    for (i, kind) in plan.iter_mut().enumerate() {
        *kind = CellKind::try_from(bytes[i]).unwrap_or(CellKind::Empty);
    }
}
