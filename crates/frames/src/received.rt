// The cells of a received frame, by the plan.
ghost use Rattle.std.specs.Prelude.{◌≡◌, ◌≢◌, ◌-◌, ◌++◌, ◌*◌, ◌<◌, ◌≤◌, length, replicate, take, MatchOption};
ghost use Rattle.frames.specs.Laying.{cell_at, cells_in, of_kind, picked};
ghost use Rattle.cells.specs.Mapping.{origin};
ghost use Rattle.lineup.specs.Layouts.{kind_count};
ghost use Rattle.lineup.specs.declared.kind.CellKind.TheVariants.{Tis};
ghost use Rattle.modes.specs.Modes.{tis_count};

use cells::Cell;
use lineup::kind::CellKind;
use modes::TisConstellation;

// What each cell carries, and two numbers for each.
#[derive(Clone, Copy)]
pub struct ReceivedCells<'a> {
    plan: &'a [CellKind],
    numbers: &'a [i16],
    ghost pairs: { length numbers.now ≡ 2 * length plan.now },
}

// Whether a cell's kind is the one wanted.
fn is_of(kind: CellKind, wanted: CellKind) -> bool
    ensures { result ≡ of_kind wanted kind }
{
    u8::from(kind) == u8::from(wanted)
}

impl<'a> ReceivedCells<'a> {
    // The cells of a plan, where there are two numbers for each.
    pub fn new(plan: &'a [CellKind], numbers: &'a [i16]) -> Option<Self>
        ensures { MatchOption result (length numbers.now ≢ 2 * length plan.now) (λ r. (r.plan.now ≡ plan.now) × (r.numbers.now ≡ numbers.now)) }
    {
        if numbers.len() == 2 * plan.len() {
            Some(ReceivedCells { plan, numbers })
        } else {
            None
        }
    }

    // The cell at a place.
    fn cell(self, i: usize) -> Cell
        requires { i < length self.plan.now }
        ensures { result ≡ cell_at self.entry.numbers.now i }
    {
        Cell {
            real: self.numbers[2 * i],
            imaginary: self.numbers[2 * i + 1],
        }
    }

    // Copies the first cells of a kind.
    pub(crate) fn gather(self, wanted: CellKind, cells: &mut [Cell])
        requires { length cells.old ≤ kind_count wanted self.plan.now }
        ensures { cells.new ≡ take (length cells.old) (picked wanted self.entry.plan.now (cells_in self.entry.numbers.now)) }
    {
        let mut found = 0;
        for (i, kind) in self.plan.iter().enumerate() {
            if is_of(*kind, wanted) && found < cells.len() {
                cells[found] = self.cell(i);
                found += 1;
            }
        }
    }

    // The cells of the TIS, as many as its constellation takes; those behind them are (0, 0).
    pub(crate) fn tis_cells(self, constellation: TisConstellation) -> [Cell; 102]
        requires { tis_count constellation ≤ kind_count Tis self.plan.now }
        ensures { result ≡ take (tis_count constellation) (picked Tis self.entry.plan.now (cells_in self.entry.numbers.now)) ++ replicate (102 - tis_count constellation) origin }
    {
        let mut cells = [Cell::ORIGIN; 102];
        self.gather(CellKind::Tis, &mut cells[..constellation.cell_count()]);
        cells
    }
}
