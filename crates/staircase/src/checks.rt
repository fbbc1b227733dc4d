// The check groups of a message.
ghost use Rattle.std.specs.Prelude.{◌≡◌, ◌*◌, length};
ghost use Rattle.staircase.specs.Coding.{checks_in, message_size};

use crate::code::Staircase;
use crate::shape::LIFT;

impl Staircase {
    // Writes the check groups of a message: the sums run on from row to row.
    pub(crate) fn write_checks(&self, message: &[bool], checks: &mut [bool])
        requires size { length message.now ≡ message_size self.now }
        requires room { length checks.old ≡ self.now.shape.rows * self.now.shape.lift }
        ensures { checks.new ≡ checks_in self.now message.now }
    {
        let lift = self.shape.lift;
        let mut store = [false; LIFT];
        let sums = &mut store[..lift];
        let rows = self.exponents.as_slice().chunks(self.shape.columns);
        for (i, row) in rows.enumerate() {
            self.shape.add_row(row, message, sums);
            checks[i * lift..(i + 1) * lift].copy_from_slice(sums);
        }
    }
}
