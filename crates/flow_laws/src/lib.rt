//! Laws of the histories of any kind of session: what holds of counts, pauses, bounds, octets, ends and quiet, whatever the
//! setup and the marks. No core is named here.
#![tactic(auto)]

mod laws;

pub use laws::{
    Kind, MadeSession, bodies_are_sent, bounds_hold, counts_balance, ends_once, headline_follows,
    laws_apply, nothing_is_lost, order_is_kept, rest_is_quiet, sources_cross, steps_are_sound,
};
