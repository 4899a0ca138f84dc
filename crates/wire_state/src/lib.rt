//! The state of a worker's wire sessions: its connections, its exchanges, and what is under way in a dispatch.
//!
//! Three clauses stand at the calls that change it, here and in the crates above, up to `worker_core`. `sound`: what holds of a core
//! between any two calls (`specs/Sound.antt`) still holds. `go`: what is still to do (`specs/Progress.antt`) has become less, or has
//! grown by so much at most, so that each dispatch comes to its end. `notes`: notes are appended, and none is changed. Where a call
//! answers out of memory nothing is said of what it leaves: the core has failed then, and answers `Failed` from then on.
//!
//! Functions often stand in pairs, here and there: one looks up a connection by its number, and hands it on to the one that has the
//! work. No clause tells that the number is there, so the first has an arm for none, which changes nothing.
#![tactic(auto, unfolding(crate::specs::Progress::to_go, crate::specs::Progress::conn_go))]

mod agenda;
mod conn;
mod course;
mod incoming;
mod looks;
mod noting;
mod outgoing;
mod ready;
mod recent;
mod stirred;
mod units;
mod walk;
mod wire_core;

pub use crate::agenda::{Agenda, Task};
pub use crate::conn::{Conn, is_stream};
pub use crate::course::Course;
pub use crate::noting::{CarryOut, note, note_answer, note_head, note_pauses};
pub use crate::ready::Ready;
pub use crate::stirred::Stirred;
pub use crate::units::NextUnit;
pub use crate::walk::Walk;
pub use crate::wire_core::{Lengths, WireCore};
