// `plan RUN…`, `exponents RUN…` and `fill O T D R L M K`: drafts, and the line-up that is filled from them.
use desk::numbers::all_numbers;
use desk::runs::{exponents, plan_bytes};
use desk::shown::Answered;
use desk::trouble::Stop;
use lineup::asked::Asked;
use lineup::line_up::StaircaseLineUp;
use std::alloc::Global;

pub(crate) fn run_plan(
    rt: &impl Print,
    heap: Global,
    plan: &mut Vec<u8>,
    words: &[&str],
) -> Result<(), Stop> {
    *plan = plan_bytes(heap, words)?;
    println!(rt; "plan: {} bytes", plan.len())?;
    Ok(())
}

pub(crate) fn run_exponents(
    rt: &impl Print,
    heap: Global,
    draft: &mut Vec<i16>,
    words: &[&str],
) -> Result<(), Stop> {
    *draft = exponents(heap, words)?;
    println!(rt; "exponents: {}", draft.len())?;
    Ok(())
}

pub(crate) fn run_fill(
    rt: &impl Print,
    line_up: &mut StaircaseLineUp,
    plan: &[u8],
    exponents: &[i16],
    words: &[&str],
) -> Result<(), Stop> {
    let [occupancy, tis, data, rate, lift, rows, columns] = all_numbers::<u32, 7>(words)?;
    let answer = line_up.fill(Asked {
        occupancy,
        tis,
        data,
        rate,
        plan,
        lift,
        rows,
        columns,
        exponents,
    });
    println!(rt; "fill: {}", Answered(answer))?;
    Ok(())
}
