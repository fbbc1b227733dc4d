// What a script's words say, and what is printed of bits, numbers and cells.
#![tactic(auto)]

pub mod blocks;
mod digits;
pub mod frames;
pub mod loads;
pub mod numbers;
pub mod parts;
pub mod runs;
pub mod settings;
pub mod shown;
pub mod text;
pub mod trouble;
pub mod words;
