//! What a tape of a relay is: what each event gives, what a lawful tape shows, and what it promises. Definitions, over
//! histories, which are tapes with their newest note first. No relay is named here.
#![tactic(auto)]

use flow_gate::FlowId;

/// The flow that comes from a connection, and the connection that it goes to.
#[derive(Clone, Copy, PartialEq, Eq)]
pub struct Feed {
    pub flow: FlowId,
    pub to: u32,
}
