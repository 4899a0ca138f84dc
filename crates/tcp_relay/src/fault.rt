// Why a relay didn't carry out an event.

use std::error::Error;
use std::fmt;

/// Why a dispatch wasn't carried to its end.
#[derive(Clone, Copy, Debug, PartialEq, Eq)]
pub enum RelayFault {
    /// The event reads a connection whose flow is paused. Nothing has changed, and no note was written.
    Paused {
        /// How many octets the write buffer holds that the flow goes to.
        held: u32,
    },
    /// Memory was refused. The notes so far stand.
    NoMemory,
    /// An earlier dispatch of this relay ran out of memory.
    Failed,
}

impl fmt::Display for RelayFault {
    fn fmt<W: fmt::Write>(&self, f: &mut fmt::Formatter<W>) -> fmt::Result {
        match self {
            RelayFault::Paused { held } => write!(
                f,
                "the connection's flow is paused: {} octets wait",
                held
            ),
            RelayFault::NoMemory => f.write_str("out of memory"),
            RelayFault::Failed => f.write_str("an earlier dispatch ran out of memory"),
        }
    }
}

impl Error for RelayFault {}
