//! Readers and writers of a program, which keep why they failed last.
#![tactic(auto)]

mod outside;

pub use outside::{Input, Output};
