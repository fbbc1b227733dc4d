// `exciter`, `station S H M D`, `load hex HEX`, `load ramp N`, `send`, `send N` and `clear`: the exciter's calls.
use crate::held::Held;
use desk::loads::loaded_bytes;
use desk::numbers::{all_numbers, count_or};
use desk::shown::{Answered, Refused};
use desk::trouble::Stop;
use desk::words::exactly;
use radio::{Exciter, NavdatExciter};
use std::alloc::Global;

pub(crate) fn run_exciter(rt: &impl Print, held: &mut Held, words: &[&str]) -> Result<(), Stop> {
    let [] = exactly::<_, 0>(words)?;
    held.exciter = Exciter::new(held.heap, held.channel, held.line_up.clone()?)?;
    held.numbers = held.line_up.plan().len().saturating_mul(2);
    println!(rt; "exciter: new")?;
    Ok(())
}

pub(crate) fn run_station(
    rt: &impl Print,
    exciter: &mut NavdatExciter,
    words: &[&str],
) -> Result<(), Stop> {
    let [station, hour, minute, duration] = all_numbers::<u32, 4>(words)?;
    let answer = exciter.station(station, hour, minute, duration);
    println!(rt; "station: {}", Answered(answer))?;
    Ok(())
}

pub(crate) fn run_load(
    rt: &impl Print,
    heap: Global,
    exciter: &mut NavdatExciter,
    words: &[&str],
) -> Result<(), Stop> {
    let bytes = loaded_bytes(heap, words)?;
    println!(rt; "load: {}", Answered(exciter.load(&bytes)))?;
    Ok(())
}

// The sent frame joins the list; a refused send leaves the list as it was. A word says how many numbers the frame is to have.
pub(crate) fn run_send(rt: &impl Print, held: &mut Held, words: &[&str]) -> Result<(), Stop> {
    let mut numbers = vec![in held.heap; 0i16; count_or(held.numbers, words)?]?;
    match held.exciter.send(&mut numbers) {
        Ok(()) => {
            let frame = held.frames.push(numbers)?;
            println!(rt; "send: frame {frame}")?;
        }
        Err(refusal) => println!(rt; "send: {}", Refused(refusal))?,
    }
    Ok(())
}

pub(crate) fn run_clear(
    rt: &impl Print,
    exciter: &mut NavdatExciter,
    words: &[&str],
) -> Result<(), Stop> {
    let [] = exactly::<_, 0>(words)?;
    println!(rt; "clear: {}", Answered(exciter.clear()))?;
    Ok(())
}
