// `mis O T D [I=V …]`: the MIS of three mode numbers, step by step, and what reading its cells gives.
use crate::steps::steps_of;
use cells::{Cell, Qam};
use desk::parts::mode;
use desk::settings::set_numbers;
use desk::shown::{ModeNumbers, Refused};
use desk::text::steps_text;
use desk::trouble::{Stop, Trouble};
use frames::FrameFault;
use modem::{MisTrace, read_mis, write_mis};
use reed_solomon::streams::MisReedSolomon;
use std::alloc::Global;
use std::io;

// Prints the steps.
fn print_steps(rt: &impl Print, heap: Global, trace: &MisTrace) -> io::Result<()> {
    let steps = steps_of(trace, trace.cells.len());
    print!(rt; "{}", steps_text(heap, "mis", steps)?)
}

// Prints what reading the cells gives.
fn print_read(rt: &impl Print, cells: &[Cell; 14]) -> io::Result<()> {
    match read_mis(&MisReedSolomon::default(), &Qam, cells) {
        Ok(mis) => println!(rt;
            "mis: reads {} mended {}",
            ModeNumbers(mis.stated),
            mis.mended
        ),
        Err(fault) => println!(rt; "mis: {}", Refused(FrameFault::Mis(fault).into())),
    }
}

// Runs the command's words, and prints nothing where one of them is wrong.
pub(crate) fn run_mis(rt: &impl Print, heap: Global, words: &[&str]) -> Result<(), Stop> {
    let [o, t, d, settings @ ..] = words else {
        return Err(Trouble::TooFew.into());
    };
    let trace = write_mis(&MisReedSolomon::default(), &Qam, mode(o, t, d)?);
    let mut cells = trace.cells;
    set_numbers(settings, &mut cells)?;
    print_steps(rt, heap, &trace)?;
    print_read(rt, &cells)?;
    Ok(())
}
