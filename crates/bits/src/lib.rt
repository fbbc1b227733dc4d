// Bits of a stream: fields and numbers highest bit first, checks, and scrambling.
#![tactic(auto)]

mod crc;
mod fields;
mod numbers;
mod scrambling;

pub use crc::{Generator, crc8, crc16};
pub use fields::{read_number, write_number};
pub use numbers::{cut, spread};
pub use scrambling::scramble;
