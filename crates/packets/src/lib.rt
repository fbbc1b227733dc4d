// Packets: a header, data and a check, one packet to a block.
#![tactic(auto)]

mod parts;
mod reading;
mod writing;

pub use parts::{BadPacket, Header, LEAST_BLOCK, MOST_BLOCK, NoRoom, Packet};
pub use reading::read_packet;
pub use writing::write_packet;
