// Reed-Solomon codes over GF(128), by their roots.
#![tactic(auto)]

pub mod code;
pub mod field;
mod mend;
mod polynomials;
pub mod streams;
