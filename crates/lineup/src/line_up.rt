// A line-up, empty or filled.
ghost use Rattle.std.specs.Prelude.{◌≤◌, vec_capacity};
ghost use Rattle.lineup.specs.Judging.{held};
ghost use Rattle.lineup.specs.LineUps.{Holds, Pass8};

use crate::kind::CellKind;
use crate::mode::Mode;
use staircase::code::Staircase;
use staircase::data_code::DataCode;

// The mode of a frame, what each cell carries and the code of the data. It has no mode while it is empty.
// What it holds passes all that is asked of a line-up.
// Room for the widest frame's plan is reserved when it is made, so that filling it needs no memory.
#[derive(Drop)]
pub struct LineUp<D: DataCode> {
    pub(crate) mode: Option<Mode>,
    pub(crate) plan: Vec<CellKind>,
    pub(crate) code: D,
    ghost passed: { Holds (held mode plan.items (D.DataCode.shape code) (D.DataCode.exponents code)) Pass8 },
    ghost room: { 3435 ≤ vec_capacity plan },
}

// The line-up whose data have the staircase code.
pub type StaircaseLineUp = LineUp<Staircase>;
