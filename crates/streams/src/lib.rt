// The records of the streams: the MIS and the TIS.
#![tactic(auto)]

mod mis;
mod records;
mod tis;

pub use records::{BadRecord, Record, read_record, write_record};
