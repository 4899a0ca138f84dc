//! Load shed points: of the connections that come, the reads of clients' connections and the published states, a share is turned away
//! that grows with the pressure of a resource. Shares are counted and not drawn, so that the same events are shed each time.
#![tactic(auto)]

mod share;
mod shedder;
mod verdict;

pub use proxy_config::Point;
pub use share::shares_are_counted;
pub use shedder::{Shedder, Standing};
pub use verdict::{SHED_POSTER, Verdict, instead, keeps};
