// What sending a stream gives, step by step, as it is printed.
ghost use Rattle.std.specs.Prelude.{◌≤◌};

use desk::text::Steps;
use modem::Trace;

// The steps of a trace, with so many of its cells.
pub(crate) fn steps_of<
    const BITS: usize,
    const MESSAGE: usize,
    const WORD: usize,
    const CELLS: usize,
>(trace: &Trace<BITS, MESSAGE, WORD, CELLS>, count: usize) -> Steps<'_>
    requires { count ≤ CELLS }
{
    let cells = &trace.cells[..];
    Steps {
        record: &trace.record,
        scrambled: &trace.scrambled,
        message: &trace.message,
        word: &trace.word,
        cells: &cells[..count],
    }
}
