//! What names a flow, and what it may do: the definitions of its moves and of its next unit, as functions of one plain record, and why an exchange is over. What keeps
//! flows and what judges the notes of a session apply them each to its own flow.
#![tactic(auto)]

mod causes;
mod ids;
mod unit;

pub use causes::{Cause, FireKind};
pub use ids::{BufferId, FlowId};
pub use unit::{Unit, units_narrow};
