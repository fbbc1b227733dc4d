// `copy F`, `set F I V`, `resize F N` and `show F`: the list of frames, numbered from 0.
use desk::frames::Frames;
use desk::numbers::{all_numbers, count, signed};
use desk::text::values_text;
use desk::trouble::Stop;
use desk::words::exactly;
use std::alloc::Global;

pub(crate) fn run_copy(rt: &impl Print, frames: &mut Frames, words: &[&str]) -> Result<(), Stop> {
    let [frame] = all_numbers::<usize, 1>(words)?;
    let copy = frames.copy(frame)?;
    println!(rt; "copy: frame {copy}")?;
    Ok(())
}

pub(crate) fn run_set(rt: &impl Print, frames: &mut Frames, words: &[&str]) -> Result<(), Stop> {
    let [frame, place, value] = exactly::<_, 3>(words)?;
    let frame = count(frame)?;
    frames.set(frame, count(place)?, signed(value)?)?;
    println!(rt; "set: frame {frame}")?;
    Ok(())
}

pub(crate) fn run_resize(rt: &impl Print, frames: &mut Frames, words: &[&str]) -> Result<(), Stop> {
    let [frame, size] = all_numbers::<usize, 2>(words)?;
    frames.resize(frame, size)?;
    println!(rt; "resize: frame {frame}")?;
    Ok(())
}

pub(crate) fn run_show(
    rt: &impl Print,
    heap: Global,
    frames: &Frames,
    words: &[&str],
) -> Result<(), Stop> {
    let [frame] = all_numbers::<usize, 1>(words)?;
    let numbers = frames.get(frame)?;
    println!(rt; "show:{}", values_text(heap, numbers)?)?;
    Ok(())
}
