// A line of the script: its words, its command, and what is wrong with it.
use crate::drafts::{run_exponents, run_fill, run_plan};
use crate::exciting::{run_clear, run_exciter, run_load, run_send, run_station};
use crate::held::Held;
use crate::listing::{run_copy, run_resize, run_set, run_show};
use crate::mis::run_mis;
use crate::packet::{run_block, run_packet};
use crate::receiving::{run_fetch, run_receiver, run_take};
use crate::tis::run_tis;
use desk::trouble::{Stop, Trouble};
use std::alloc::{AllocError, Global};
use std::io;

// The words of a line, which one or more spaces part.
fn words(heap: Global, line: &str) -> Result<Vec<&str>, AllocError> {
    line.split(' ')
        .filter(|word| !word.is_empty())
        .collect(heap)
}

// Runs the words of a line.
fn run_words(rt: &impl Print, held: &mut Held, words: &[&str]) -> Result<(), Stop> {
    let [command, rest @ ..] = words else {
        return Ok(());
    };
    match *command {
        "plan" => run_plan(rt, held.heap, &mut held.plan, rest),
        "exponents" => run_exponents(rt, held.heap, &mut held.exponents, rest),
        "fill" => run_fill(rt, &mut held.line_up, &held.plan, &held.exponents, rest),
        "exciter" => run_exciter(rt, held, rest),
        "receiver" => run_receiver(rt, held, rest),
        "station" => run_station(rt, &mut held.exciter, rest),
        "load" => run_load(rt, held.heap, &mut held.exciter, rest),
        "send" => run_send(rt, held, rest),
        "clear" => run_clear(rt, &mut held.exciter, rest),
        "copy" => run_copy(rt, &mut held.frames, rest),
        "set" => run_set(rt, &mut held.frames, rest),
        "resize" => run_resize(rt, &mut held.frames, rest),
        "show" => run_show(rt, held.heap, &held.frames, rest),
        "take" => run_take(rt, &mut held.receiver, &held.frames, rest),
        "fetch" => run_fetch(rt, held.heap, &held.receiver, rest),
        "mis" => run_mis(rt, held.heap, rest),
        "tis" => run_tis(rt, held.heap, rest),
        "packet" => run_packet(rt, held.heap, rest),
        "block" => run_block(rt, held.heap, rest),
        _ => Err(Trouble::NoCommand.into()),
    }
}

// Runs the text of a line; a `#` in front makes it a remark.
fn run_text(rt: &impl Print, held: &mut Held, line: &[u8]) -> Result<(), Stop> {
    let text = std::str::from_utf8(line).map_err(Trouble::from)?;
    if text.starts_with('#') {
        return Ok(());
    }
    let text = text.strip_suffix('\n').unwrap_or(text);
    let all = words(held.heap, text.strip_suffix('\r').unwrap_or(text))?;
    run_words(rt, held, &all)
}

// Runs one line, and prints what it does or what is wrong with it.
pub(crate) fn run_line(rt: &impl Print, held: &mut Held, line: &[u8]) -> io::Result<()> {
    match run_text(rt, held, line) {
        Err(Stop::Line(why)) => println!(rt; "error: {why}"),
        Err(Stop::Output(error)) => Err(error),
        Ok(()) => Ok(()),
    }
}
