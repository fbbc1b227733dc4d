// The mode of a frame, and the station that sends it.
#![tactic(auto)]

mod mode;
mod rate;
mod station;
mod unknown;

pub use mode::{DataConstellation, Mis, Occupancy, TisConstellation};
pub use rate::{Rate, data_coding};
pub use station::{Station, Tis};
pub use unknown::UnknownNumber;
