//! What the workers share: the states that one publisher publishes and each worker follows, and permits, of which at most
//! so many are held at once over all threads.
#![tactic(auto)]

mod entering;
mod entries;
mod follower;
mod following;
mod making;
mod one_list;
mod permit_rule;
mod permits;
mod publisher;
mod publishing;
mod version_word;

pub use entries::{Entry, RESOURCES};
pub use follower::{Follower, Followers, Snapshot};
pub use making::make_shared;
pub use one_list::{OneList, Seen};
pub use permit_rule::{AtMostMax, PermitView};
pub use permits::{Permit, PermitSeat, PermitSeats, Permits, Refused};
pub use publisher::{Publisher, Told};
pub use version_word::{Counted, VersionView};
