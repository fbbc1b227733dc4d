// What is asked of a line-up, and whether it may be.
ghost use Rattle.std.specs.Prelude.{◌≡◌, ◌*◌, false, true, MatchOption, MatchResult};
ghost use Rattle.modes.specs.Modes.{rate_number};
ghost use Rattle.lineup.specs.Faults.{refusal_for};
ghost use Rattle.lineup.specs.LineUps.{code_shaped, mode_known};

use crate::cells::{bad_byte, frame_cells, streams_fit};
use crate::mode::Mode;
use crate::shape::{block_fits, columns_for, data_fits};
use modes::{DataConstellation, Occupancy, Rate, TisConstellation, UnknownNumber};
use refusals::Refusal;
use staircase::exponents::{Exponents, ExponentsFault};
use staircase::shape::Shape;

// The numbers of the mode, a byte for each cell, and the numbers of the data code. Any numbers may be asked for.
#[derive(Clone, Copy)]
pub struct Asked<'a> {
    pub occupancy: u32,
    pub tis: u32,
    pub data: u32,
    pub rate: u32,
    pub plan: &'a [u8],
    pub lift: u32,
    pub rows: u32,
    pub columns: u32,
    pub exponents: &'a [i16],
}

// Why exponents are refused.
fn refusal_for(fault: ExponentsFault) -> Refusal
    ensures { result ≡ refusal_for fault }
{
    match fault {
        ExponentsFault::Count => Refusal::CodeShape,
        ExponentsFault::OutOfRange(place) => Refusal::ExponentOutOfRange(place),
    }
}

impl<'a> Asked<'a> {
    ghost use Rattle.lineup.specs.Judging.{asked_by, Forms, FrameJudged, Judged, Names};

    // The mode of the four numbers, where each is in range.
    fn mode(&self) -> Result<Mode, UnknownNumber>
        ensures { let a = asked_by self.now in let known = mode_known a.occupancy a.tis a.constellation a.rate in MatchResult result (λ m. (known ≡ true) × Names m a) (λ e. known ≡ false) }
    {
        Ok(Mode {
            occupancy: Occupancy::try_from(self.occupancy)?,
            tis: TisConstellation::try_from(self.tis)?,
            data: DataConstellation::try_from(self.data)?,
            rate: Rate::try_from(self.rate)?,
        })
    }

    // The shape of the code, where its numbers are in range and fit one another.
    fn shape(&self, rate: Rate) -> Option<Shape>
        ensures { let a = asked_by self.now in let fits = code_shaped (rate_number rate) a.lift a.rows a.columns (a.rows * a.columns) in MatchOption result (fits ≡ false) (λ s. (fits ≡ true) × Forms s a) }
    {
        let shape = Shape::new(
            self.lift as usize,
            self.rows as usize,
            self.columns as usize,
        )?;
        let fits = shape.columns() == columns_for(rate, shape.rows());
        fits.then_some(shape)
    }

    // The mode, where its numbers are in range and the plan fits it.
    fn frame(&self) -> Result<Mode, Refusal>
        ensures { FrameJudged (asked_by self.now) result }
    {
        let mode = self.mode().map_err(|_| Refusal::ModeOutOfRange)?;
        if self.plan.len() != frame_cells(mode.occupancy) {
            return Err(Refusal::PlanLength);
        }
        if let Some(place) = bad_byte(self.plan) {
            return Err(Refusal::PlanByte(place));
        }
        if !streams_fit(mode.tis, self.plan) {
            return Err(Refusal::FewStreamCells);
        }
        Ok(mode)
    }

    // The mode and the exponents of the code that are asked for, or why that is refused: the first reason that holds.
    pub(crate) fn judge(&self) -> Result<(Mode, Exponents<'a>), Refusal>
        ensures { Judged (asked_by self.now) result }
    {
        let mode = self.frame()?;
        let shape = self.shape(mode.rate).ok_or(Refusal::CodeShape)?;
        let exponents = Exponents::new(shape, self.exponents).map_err(refusal_for)?;
        if !block_fits(mode.data, shape) {
            return Err(Refusal::BlockLength);
        }
        if !data_fits(shape, self.plan) {
            return Err(Refusal::FewDataCells);
        }
        Ok((mode, exponents))
    }
}
