// What the shape of the data code asks of a frame.
ghost use Rattle.std.specs.Prelude.{◌≡◌, ◌≤◌};
ghost use Rattle.modes.specs.Modes.{data_number, rate_number};
ghost use Rattle.lineup.specs.LineUps.{block_fits, columns_for, data_fits, data_words};

use crate::cells::count;
use crate::kind::CellKind;
use modes::{DataConstellation, Rate};
use staircase::shape::Shape;

// How many columns a code of so many rows has.
pub(crate) fn columns_for(rate: Rate, rows: usize) -> usize
    requires { rows ≤ 16 }
    ensures { result ≡ columns_for (rate_number rate) rows }
{
    match rate {
        Rate::Half => rows,
        Rate::ThreeQuarters => 3 * rows,
    }
}

// The data words of a frame.
pub(crate) fn data_words(data: DataConstellation) -> usize
    ensures words { result ≡ data_words (data_number «data») }
    ensures few { result ≤ 3 }
{
    match data {
        DataConstellation::Qam4 => 1,
        DataConstellation::Qam16 => 2,
        DataConstellation::Qam64 => 3,
    }
}

// Whether a frame's block is of whole bytes, and of 7 or more.
pub(crate) fn block_fits(data: DataConstellation, shape: Shape) -> bool
    ensures { result ≡ block_fits (data_number «data») shape.lift shape.columns }
{
    let bits = data_words(data) * shape.message_length();
    bits % 8 == 0 && bits / 8 >= 7
}

// Whether the data have cells enough.
pub(crate) fn data_fits(shape: Shape, plan: &[u8]) -> bool
    ensures { result ≡ data_fits shape.lift shape.rows shape.columns plan.now }
{
    shape.word_length() / 2 <= count(plan, CellKind::Data)
}
