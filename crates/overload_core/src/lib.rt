//! What the load asks for: the states of the overload actions, and the memory classes of exchanges.
#![tactic(auto)]

mod actions;
mod classes;
mod trigger;

pub use actions::{Actions, action_states, is_saturated};
pub use classes::{Classes, class_has_number, class_of, classes_follow, next_is_due, one_class};
pub use trigger::trigger_state;
