// Line-ups: the mode of a frame, what each of its cells carries, and the code of its data.
#![tactic(auto)]

pub mod asked;
mod block;
mod cells;
mod filling;
pub mod kind;
pub mod layout;
pub mod line_up;
pub mod mode;
mod reading;
mod shape;
