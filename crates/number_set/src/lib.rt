//! Sets of numbers in order, and values by number. Once there is room, numbers come and go without memory.
#![tactic(auto)]

mod map;
mod set;

pub use map::NumberMap;
pub use set::NumberSet;
