//! Values by number, on pages of 16 numbers. It is made for numbers that are given in rising order, as those of connections: a
//! look-up costs about the same beside ten and beside ten thousand, and no step moves more than a page's worth of all.
#![tactic(auto)]

mod key;
mod map;
mod page;
mod pages;

pub use key::Key;
pub use map::PagedMap;
