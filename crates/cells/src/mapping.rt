// The bits of a stream on its cells, over any constellation.
ghost use Rattle.std.specs.Prelude.{◌≡◌, ◌*◌, ◌≤◌, Bool, List, length, take};
ghost use Rattle.cells.specs.Cells.{cell_bits};
ghost use Rattle.cells.specs.Mapping.{decided_bits, filled, mapped, Moved, next_cell};

use crate::cell::{Cell, Order};
use crate::constellation::Constellation;

// The most bits that a cell carries.
const MOST_BITS: usize = 6;

// A constellation at one of its orders.
#[derive_where(Clone, Copy)]
pub struct Modulation<'a, Q> {
    pub points: &'a Q,
    pub order: Order,
}

// Copies as many bits as a cell has, missing ones being 0.
fn fill_up(bits: &[bool], cell: &mut [bool])
    ensures { cell.new ≡ filled (length cell.old) bits.now }
{
    let present = cell.len().min(bits.len());
    cell.fill(false);
    cell[..present].copy_from_slice(&bits[..present]);
}

impl<Q: Constellation> Modulation<'_, Q> {
    // The cell for the next bits of a stream, (0, 0) where none is left.
    fn next_cell(&self, bits: &[bool]) -> Cell
        ensures { result ≡ next_cell (Q.point self.now.points.now self.now.order) (cell_bits self.now.order) bits.now }
    {
        if bits.is_empty() {
            return Cell::ORIGIN;
        }
        let mut store = [false; MOST_BITS];
        let all = &mut store[..self.order.cell_bits()];
        fill_up(bits, all);
        self.points.map(self.order, all)
    }

    // Maps a stream on its cells, in order. Missing bits of its last cell are 0, and further cells are (0, 0).
    pub fn map_bits(&self, bits: &[bool], cells: &mut [Cell])
        requires { length bits.now ≤ cell_bits self.now.order * length cells.old }
        ensures { cells.new ≡ mapped (Q.point self.now.points.now self.now.order) (cell_bits self.now.order) (length cells.old) bits.now }
    {
        let width = self.order.cell_bits();
        let mut rest = bits;
        for cell in cells.iter_mut() {
            *cell = self.next_cell(rest);
            rest = &rest[width.min(rest.len())..];
        }
    }

    // The first bits that a cell is decided for.
    fn decide_part(&self, cell: Cell, bits: &mut [bool])
        requires { length bits.old ≤ cell_bits self.now.order }
        ensures { bits.new ≡ take (length bits.old) (Q.decided self.now.points.now self.now.order cell) }
    {
        let mut store = [false; MOST_BITS];
        let all = &mut store[..self.order.cell_bits()];
        self.points.decide(self.order, cell, all);
        bits.copy_from_slice(&all[..bits.len()]);
    }

    // Decides the bits of a stream from its cells. What its last cell has beyond them, and further cells, are ignored.
    pub fn decide_bits(&self, cells: &[Cell], bits: &mut [bool])
        requires { length bits.old ≤ cell_bits self.now.order * length cells.now }
        ensures value { bits.new ≡ take (length bits.old) (decided_bits (Q.decided self.now.points.now self.now.order) cells.now) }
        ensures as_sent { (sent : List Bool) → length sent ≡ length bits.old → Moved (mapped (Q.point self.now.points.now self.now.order) (cell_bits self.now.order) (length cells.now) sent) cells.now → bits.new ≡ sent }
    {
        let width = self.order.cell_bits();
        for (i, cell) in cells.iter().enumerate() {
            let start = bits.len().min(width * i);
            let end = bits.len().min(start + width);
            self.decide_part(*cell, &mut bits[start..end]);
        }
    }
}
