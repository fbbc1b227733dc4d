// What a filled line-up is to a frame: its mode, what each cell carries, and the code of its data.
ghost use Rattle.std.specs.Prelude.{◌≡◌, ◌/◌, ◌≤◌};
ghost use Rattle.lineup.specs.Layouts.{Roomy, block_length_of, words_of};

use crate::kind::CellKind;
use crate::line_up::LineUp;
use crate::mode::Mode;
use crate::shape::data_words;
use codes::words::SendingCode;
use staircase::data_code::DataCode;

// The cells suffice for what the streams carry, and the data words carry whole bytes.
#[derive(Drop)]
pub struct Layout<'a, D: SendingCode<Symbol = bool>> {
    pub mode: Mode,
    pub plan: &'a [CellKind],
    pub code: &'a D,
    ghost roomy: { Roomy mode plan.now (D.SendingCode.message_length code.now) (D.SendingCode.word_length code.now) },
}

impl<'a, D: SendingCode<Symbol = bool>> Layout<'a, D> {
    // The data words of a frame.
    pub fn words(&self) -> usize
        ensures count { result ≡ words_of self.now.mode }
        ensures few { result ≤ 3 }
    {
        data_words(self.mode.data)
    }

    // The cells that the data words fill, two bits of each word to a cell.
    pub fn data_cells(&self) -> usize
        ensures count { result ≡ D.SendingCode.word_length self.now.code.now / 2 }
        ensures most { result ≤ 2560 }
    {
        self.code.word_length() / 2
    }

    // The bytes of a frame's block.
    pub fn block_length(&self) -> usize
        ensures { result ≡ block_length_of self.now.mode (D.SendingCode.message_length self.now.code.now) }
    {
        self.words() * self.code.message_length() / 8
    }
}

impl<D: DataCode> LineUp<D> {
    ghost use Rattle.std.specs.Prelude.{IfSome, MatchOption, None, Some};
    ghost use Rattle.lineup.specs.Views.{block_length, view_of};

    // What the line-up is to a frame, unless it is empty.
    pub fn layout(&self) -> Option<Layout<'_, D>>
        ensures parts { MatchOption result (self.now.mode ≡ None) (λ l. (self.now.mode ≡ Some l.mode) × (l.plan.now ≡ self.now.plan.items) × (l.code.now ≡ self.now.code)) }
        ensures block { IfSome result (λ l. block_length_of l.mode (D.SendingCode.message_length l.code.now) ≡ block_length (view_of self.now)) }
    {
        Some(Layout {
            mode: self.mode?,
            plan: self.plan.as_slice(),
            code: &self.code,
        })
    }
}
