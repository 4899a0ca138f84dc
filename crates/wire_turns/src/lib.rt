//! What a dispatch of wire sessions does beside octets: events, timers that fire, resets and drains under overload, ticks, and what
//! it leaves in order at its end.
#![tactic(auto, unfolding(wire_state::specs::Progress::to_go))]

mod events;
mod firing;
mod sweeps;
mod ticking;

pub use crate::events::take_event;
pub use crate::firing::{drains, fire, fires, resets};
pub use crate::sweeps::{rest, sweep};
pub use crate::ticking::ticks;
