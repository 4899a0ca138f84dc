//! The load of a worker: the states of the overload actions, the memory classes of its exchanges, and which of them the
//! dispatch that is under way has touched.
#![tactic(auto)]

mod load;

pub use load::{Action, Load, load_follows};
