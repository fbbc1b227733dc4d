// The block that a frame of a line-up carries.
ghost use Rattle.std.specs.Prelude.{◌≡◌};
ghost use Rattle.lineup.specs.Views.{block_length, view_of};

use crate::line_up::LineUp;
use crate::shape::data_words;
use codes::words::SendingCode;
use staircase::data_code::DataCode;

impl<D: DataCode> LineUp<D> {
    // The bytes of a frame's block; an empty line-up has none.
    pub fn block_length(&self) -> usize
        ensures { result ≡ block_length (view_of self.now) }
    {
        match self.mode {
            Some(mode) => data_words(mode.data) * self.code.message_length() / 8,
            None => 0,
        }
    }
}
