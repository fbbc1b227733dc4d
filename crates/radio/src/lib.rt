// The exciter and the receiver of a channel.
#![tactic(auto)]

mod answer;
mod exciter;
mod next;
mod product;
mod receiver;
mod together;

pub use answer::Taken;
pub use exciter::Exciter;
pub use product::{NavdatChannel, NavdatExciter, NavdatReceiver, navdat_pair};
pub use receiver::Receiver;
pub use together::pair;
