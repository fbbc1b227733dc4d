// The staircase code: check groups that each add a row sum of the message to the one before.
#![tactic(auto)]

mod checks;
pub mod code;
pub mod coding;
pub mod data_code;
pub mod exponents;
pub mod shape;
mod sums;
mod words;
