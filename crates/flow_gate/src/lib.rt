//! The flows and buffers of a worker, and who watches what: which flows are held back, and why.
#![tactic(auto)]

mod buffers;
mod flow_map;
mod gate;
mod gates;
mod line;
mod row;
mod senders;
mod spares;
mod stands;
mod watcher;

pub use flow_rules::{BufferId, FlowId};
pub use gates::Gates;
pub use line::Watchers;
