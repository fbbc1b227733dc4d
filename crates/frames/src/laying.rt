// Laying the cells of the streams on a plan.
ghost use Rattle.std.specs.Prelude.{◌≡◌, ◌*◌, [], ◌∷◌, drop, length};
ghost use Rattle.frames.specs.Laying.{cell_for, first, laid, left, numbers_of};
ghost use Rattle.lineup.specs.declared.kind.CellKind.TheVariants.{Mis, Tis, Data};

use cells::Cell;
use lineup::kind::CellKind;

// the fixed cells: one unit length along the real axis
const PLUS: Cell = Cell {
    real: 256,
    imaginary: 0,
};

const MINUS: Cell = Cell {
    real: -256,
    imaginary: 0,
};

// The cells of the streams that are still to be laid.
#[derive(Clone, Copy)]
pub(crate) struct Streams<'a> {
    pub(crate) mis: &'a [Cell],
    pub(crate) tis: &'a [Cell],
    pub(crate) data: &'a [Cell],
}

// The next cell of a stream, (0, 0) where none is left, and those behind it.
fn next_of(cells: &[Cell]) -> (Cell, &[Cell])
    ensures next { result.0 ≡ first cells.now }
    ensures behind { result.1.now ≡ drop 1 cells.now }
{
    match cells {
        [next, behind @ ..] => (*next, behind),
        [] => (Cell::ORIGIN, cells),
    }
}

impl Streams<'_> {
    // The cell of a kind; a stream's is taken from its cells.
    fn next(&mut self, kind: CellKind) -> Cell
        ensures cell { result ≡ cell_for kind self.old.mis.now self.old.tis.now self.old.«data».now }
        ensures mis { self.new.mis.now ≡ left Mis kind self.old.mis.now }
        ensures tis { self.new.tis.now ≡ left Tis kind self.old.tis.now }
        ensures data { self.new.«data».now ≡ left Data kind self.old.«data».now }
    {
        let cell;
        match kind {
            CellKind::Empty => return Cell::ORIGIN,
            CellKind::Plus => return PLUS,
            CellKind::Minus => return MINUS,
            CellKind::Mis => (cell, self.mis) = next_of(self.mis),
            CellKind::Tis => (cell, self.tis) = next_of(self.tis),
            CellKind::Data => (cell, self.data) = next_of(self.data),
        }
        cell
    }
}

// Writes the two numbers of a cell.
fn write_cell(cell: Cell, numbers: &mut [i16])
    requires { length numbers.old ≡ 2 }
    ensures { numbers.new ≡ cell.real ∷ cell.imaginary ∷ [] }
{
    numbers.copy_from_slice(&[cell.real, cell.imaginary]);
}

// Writes the numbers of all cells of the plan, two a cell.
pub(crate) fn lay(plan: &[CellKind], mut streams: Streams<'_>, numbers: &mut [i16])
    requires { length numbers.old ≡ 2 * length plan.now }
    ensures { numbers.new ≡ numbers_of (laid plan.now streams.entry.mis.now streams.entry.tis.now streams.entry.«data».now) }
{
    for (i, kind) in plan.iter().enumerate() {
        let cell = streams.next(*kind);
        write_cell(cell, &mut numbers[2 * i..2 * i + 2]);
    }
}
