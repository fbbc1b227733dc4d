// Symbols and codes: what a code of the frame layer owes, for every kind of symbol.
#![tactic(auto)]

pub mod lengths;
pub mod seven;
pub mod symbols;
pub mod words;
