// What happens to a message between load and fetch: it is cut into pieces, sent in packets, and collected again.
#![tactic(auto)]

mod collecting;
mod content;
mod piece_length;
mod pieces;
mod sending;
mod states;
mod together;

pub use collecting::Collector;
pub use content::{NextPacket, Placing};
pub use sending::Sender;
pub use together::pair;
