// What a constellation is to the layers above: a point for each cell's bits, and bits for each cell.
ghost use Rattle.std.specs.Prelude.{◌≡◌, Bool, List, length};
ghost use Rattle.cells.specs.declared.cell.Cell.{Cell};
ghost use Rattle.cells.specs.declared.cell.Order.{Order};
ghost use Rattle.cells.specs.Cells.{cell_bits, Steady};

use crate::cell::{Cell, Order};

// A constellation for each order.
pub trait Constellation {
    // The point for a cell's bits.
    ghost point: { Self → Order → List Bool → Cell };

    // The bits that a cell is decided for.
    ghost decided: { Self → Order → Cell → List Bool };

    fn map(&self, order: Order, bits: &[bool]) -> Cell
        requires { length bits.now ≡ cell_bits order }
        ensures { result ≡ point self.now order bits.now };

    fn decide(&self, order: Order, cell: Cell, bits: &mut [bool])
        requires { length bits.old ≡ cell_bits order }
        ensures { bits.new ≡ decided self.now order cell };

    ghost sized: { (q : Self) (o : Order) (x : Cell) → length (decided q o x) ≡ cell_bits o };

    // A point moved by at most 255 units on each axis is decided as sent.
    ghost steady: { (q : Self) (o : Order) → Steady (point q o) (cell_bits o) (decided q o) };
}
