//! Jobs that several threads post to one runner. Nothing is lost, doubled or made up, and the jobs of each poster are
//! run in the order in which it posted them.
#![tactic(auto)]

mod close;
mod hand;
mod passes;
mod post_box;
mod posts;
mod rule;

pub use hand::{Hand, Known};
pub use passes::{PosterPass, PosterPasses, RunnerPass};
pub use post_box::{BATCH, PostBox};
pub use posts::{Post, PostList, PostRefusal};
pub use rule::InOrder;
