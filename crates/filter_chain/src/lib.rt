//! The stages that the octets of a flow pass on their way, from its receive buffer to its frames.
#![tactic(auto)]

mod chain;
mod fault;
mod laws;
mod meter;
mod places;
mod stage;

pub use chain::Chain;
pub use fault::OfferFault;
pub use laws::{
    heads_wait_for_holds, moves_leave_the_rest, octets_keep_their_order, one_place_changes,
    ticks_add_up,
};
