//! Linked lists over raw pointers, whose nodes move from list to list in a few steps.
//!
//! `heap` follows pointers. `member` reads and writes the links of what lies in the heap. `rings` keeps the members in
//! rings, with `note` as what its proof remembers of them. `lists` is what the other crates use.
#![tactic(auto)]

mod heap;
mod lists;
mod member;
mod note;
mod rings;
mod spares;
mod steps;

pub use lists::{Lists, Node};
pub use steps::Steps;
