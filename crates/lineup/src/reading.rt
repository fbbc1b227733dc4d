// What a line-up holds.
ghost use Rattle.std.specs.Prelude.{◌≡◌};

use crate::kind::CellKind;
use crate::line_up::LineUp;
use crate::mode::Mode;
use staircase::data_code::DataCode;

impl<D: DataCode> LineUp<D> {
    // The mode, unless the line-up is empty.
    pub fn mode(&self) -> Option<Mode>
        ensures { result ≡ self.now.mode }
    {
        self.mode
    }

    // What each cell carries.
    pub fn plan(&self) -> &[CellKind]
        ensures { result.now ≡ self.now.plan.items }
    {
        self.plan.as_slice()
    }
}
