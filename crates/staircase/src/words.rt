// Whether bits are a word of the code.
ghost use Rattle.std.specs.Prelude.{◌≡◌, length, Decides};
ghost use Rattle.staircase.specs.Staircase.{Exactly};
ghost use Rattle.staircase.specs.Coding.{HoldIn, WordIn, word_size};

use crate::code::Staircase;
use crate::shape::LIFT;

impl Staircase {
    // Whether there are as many bits as a word has, and every check of theirs holds, which is so exactly where they are a word of the code.
    // The first row whose checks do not hold ends it.
    pub fn checks_hold(&self, bits: &[bool]) -> bool
        ensures checks { Decides result ((length bits.now ≡ word_size self.now) × HoldIn self.now bits.now) }
        ensures words { length bits.now ≡ word_size self.now → Exactly (HoldIn self.now bits.now) (WordIn self.now bits.now) }
    {
        if bits.len() != self.shape.word_length() {
            return false;
        }
        let lift = self.shape.lift;
        let (message, checks) = bits.split_at(self.shape.message_length());
        let mut store = [false; LIFT];
        let sums = &mut store[..lift];
        let rows = self.exponents.as_slice().chunks(self.shape.columns);
        for (i, row) in rows.enumerate() {
            self.shape.add_row(row, message, sums);
            if sums[..] != checks[i * lift..(i + 1) * lift] {
                return false;
            }
        }
        true
    }
}
