// Cells and constellations: bits to points of the plane, and back by deciding.
#![tactic(auto)]

mod cell;
mod constellation;
mod mapping;
mod qam;

pub use cell::{Cell, Order};
pub use constellation::Constellation;
pub use mapping::Modulation;
pub use qam::{Qam, amplitude, decide_axis};
