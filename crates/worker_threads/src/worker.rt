// What a worker has, and what the workers share.
use flow_notes::Names;
use post_queue::{PostBox, RunnerPass};
use shared_state::{Follower, PermitSeat, Permits};
use std::sync::atomic::{AtomicBool, AtomicU32};
use worker_core::Core;
use worker_loop::{Ended, HeldPermits};

/// What the workers share: a box of posts for each, in their order, the permits, the names of the clusters, and how far they are.
#[derive(Drop)]
pub struct Shared {
    pub posts: Vec<PostBox>,
    pub permits: Permits,
    pub names: Names,
    /// How many workers have begun.
    pub begun: AtomicU32,
    /// Whether one has ended otherwise than by its turns.
    pub over: AtomicBool,
}

/// A worker. It can't be dropped while it keeps permits: `HeldPermits::give_back` ends those.
pub struct Worker<W, C, G, J> {
    pub core: Core,
    pub pass: RunnerPass,
    pub follower: Follower,
    pub seat: PermitSeat,
    pub held: HeldPermits,
    pub wires: W,
    pub clock: C,
    pub gate: G,
    pub journal: J,
    /// How it ended, once it has.
    pub ended: Option<Ended>,
}
