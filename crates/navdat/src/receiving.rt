// `receiver`, `take F` and `fetch N`: the receiver's calls.
use crate::held::Held;
use desk::frames::Frames;
use desk::numbers::all_numbers;
use desk::shown::{ModeNumbers, Refused, StationNumbers};
use desk::trouble::Stop;
use desk::words::exactly;
use radio::{NavdatReceiver, Receiver, Taken};
use std::alloc::Global;
use std::io;

pub(crate) fn run_receiver(rt: &impl Print, held: &mut Held, words: &[&str]) -> Result<(), Stop> {
    let [] = exactly::<_, 0>(words)?;
    held.receiver = Receiver::new(held.heap, held.channel, held.line_up.clone()?)?;
    println!(rt; "receiver: new")?;
    Ok(())
}

// What became of the piece, the mode, the station and the mended symbols.
fn print_taken(rt: &impl Print, taken: Taken) -> io::Result<()> {
    println!(rt;
        "take: {} mode {} {} station {} mended {} {}",
        taken.placing.name(),
        ModeNumbers(taken.mode.mis()),
        u8::from(taken.mode.rate),
        StationNumbers(taken.station),
        taken.mended.mis,
        taken.mended.tis
    )
}

pub(crate) fn run_take(
    rt: &impl Print,
    receiver: &mut NavdatReceiver,
    frames: &Frames,
    words: &[&str],
) -> Result<(), Stop> {
    let [frame] = all_numbers::<usize, 1>(words)?;
    match receiver.take(frames.get(frame)?) {
        Ok(taken) => print_taken(rt, taken)?,
        Err(refusal) => println!(rt; "take: {}", Refused(refusal))?,
    }
    Ok(())
}

// The bytes are 255 where the message is not copied to.
pub(crate) fn run_fetch(
    rt: &impl Print,
    heap: Global,
    receiver: &NavdatReceiver,
    words: &[&str],
) -> Result<(), Stop> {
    let [size] = all_numbers::<usize, 1>(words)?;
    let mut bytes = vec![in heap; 255u8; size]?;
    match receiver.fetch(&mut bytes) {
        Ok(length) => println!(rt; "fetch: {length} bytes {}", hex::encode(heap, bytes)?)?,
        Err(refusal) => println!(rt; "fetch: {}", Refused(refusal))?,
    }
    Ok(())
}
