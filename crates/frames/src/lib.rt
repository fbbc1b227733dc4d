// Frames: a mode, a station and a packet on all cells of a plan, and from its cells back.
#![tactic(auto)]

mod channel;
mod fault;
mod laying;
mod reading;
mod received;
mod words;
mod writing;

pub use channel::Channel;
pub use fault::{FrameFault, LostWord};
pub use reading::{Heard, Mended};
pub use received::ReceivedCells;
