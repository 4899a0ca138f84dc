//! The lines of sessions: what each spells, and which may follow those before it.
#![tactic(auto)]

mod courses;
mod grammar;
mod order;
mod plain;
mod wire_lines;
mod wire_order;

pub use courses::{Course, Courses};
pub use order::{Format, LineRead, Order, Stage, read_session_line};
pub use wire_lines::WireLines;
pub use wire_order::WireOrder;
