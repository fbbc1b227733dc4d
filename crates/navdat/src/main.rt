// The desk program: a script of commands in, what the library's calls answer out.
#![tactic(auto)]

mod drafts;
mod exciting;
mod held;
mod listing;
mod mis;
mod packet;
mod receiving;
mod script;
mod steps;
mod tis;

use held::Held;
use radio::NavdatChannel;
use script::run_line;
use std::io;
use std::io::{BufRead, BufReader};

fn main(rt: HostRuntime) -> io::Result<()> {
    let mut input = BufReader::new(rt.alloc(), rt.stdin())?;
    let channel = NavdatChannel::default();
    let mut held = Held::new(rt.alloc(), &channel)?;
    // one store for every line, so that lines take no more memory than the longest
    let mut line = Vec::new(rt.alloc());
    for _ in 0..u64::MAX {
        line.clear();
        if input.read_until(b'\n', &mut line)? == 0 {
            break;
        }
        run_line(&rt, &mut held, &line)?;
    }
    Ok(())
}
