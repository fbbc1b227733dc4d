// A stream's symbols on cells and back, and the MIS and the TIS whole.
#![tactic(auto)]

mod carrying;
mod fault;
mod mis;
mod stream;
mod tis;

pub use carrying::{Reading, carry, decide_word};
pub use fault::StreamFault;
pub use mis::{MisTrace, read_mis, write_mis};
pub use stream::Trace;
pub use tis::{TisTrace, read_tis, write_tis};
