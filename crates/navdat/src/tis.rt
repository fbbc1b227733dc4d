// `tis O D R S H M U Q [I=V …]`: the TIS of a mode and a station, step by step, and what reading its cells gives.
ghost use Rattle.std.specs.Prelude.{◌≤◌};

use crate::steps::steps_of;
use cells::{Cell, Qam};
use desk::parts::{tis, tis_constellation};
use desk::settings::set_numbers;
use desk::shown::{Refused, TisNumbers};
use desk::text::steps_text;
use desk::trouble::{Stop, Trouble};
use frames::FrameFault;
use modem::{TisTrace, read_tis, write_tis};
use modes::TisConstellation;
use reed_solomon::streams::TisReedSolomon;
use std::alloc::Global;
use std::io;

// Prints the steps, with so many of the cells.
fn print_steps(rt: &impl Print, heap: Global, trace: &TisTrace, count: usize) -> io::Result<()>
    requires { count ≤ 102 }
{
    print!(rt; "{}", steps_text(heap, "tis", steps_of(trace, count))?)
}

// Prints what reading the cells gives.
fn print_read(
    rt: &impl Print,
    constellation: TisConstellation,
    cells: &[Cell; 102],
) -> io::Result<()> {
    match read_tis(&TisReedSolomon::default(), &Qam, constellation, cells) {
        Ok(tis) => println!(rt;
            "tis: reads {} mended {}",
            TisNumbers(tis.stated),
            tis.mended
        ),
        Err(fault) => println!(rt; "tis: {}", Refused(FrameFault::Tis(fault).into())),
    }
}

// Runs the command's words, and prints nothing where one of them is wrong.
pub(crate) fn run_tis(rt: &impl Print, heap: Global, words: &[&str]) -> Result<(), Stop> {
    let [o, d, r, s, h, m, u, q, settings @ ..] = words else {
        return Err(Trouble::TooFew.into());
    };
    let stated = tis(o, d, r, s, h, m, u)?;
    let constellation = tis_constellation(q)?;
    let trace = write_tis(&TisReedSolomon::default(), &Qam, constellation, stated);
    let count = constellation.cell_count();
    let mut cells = trace.cells;
    set_numbers(settings, &mut cells[..count])?;
    print_steps(rt, heap, &trace, count)?;
    print_read(rt, constellation, &cells)?;
    Ok(())
}
