// The connections of a worker.
ghost use Rattle.std.specs.Prelude.{◌≡◌, ◌≤◌, Err, IfOk, OnErr, ℕ, false};
ghost use Rattle.std.specs.Io.{WritesAtMost};
ghost use Rattle.io_ports.specs.Faults.{FailsByFault, Rose};
ghost use Rattle.worker_ports.specs.Wires.{Gives, Seen, closed, is_live, offered};
ghost use Rattle.worker_ports.specs.declared.wires.WireRefusal.TheVariants as refusal;

use io_ports::{Failed, NoMemory, Octets};
use std::alloc::Global;
use std::error::Error;
use std::fmt;

/// What came next.
#[derive(Drop)]
pub enum Wired {
    /// A client's connection.
    Accept(u32),
    /// A connection to a cluster, which is counted from 0 in the configuration's order.
    Join(u32, u32),
    /// Octets of a connection, 1 to 16,384.
    Read(u32, Octets),
    /// A connection is gone.
    Lost(u32),
    /// Nothing.
    Idle,
    /// The worker is to end once this turn is over.
    Stop,
}

/// Why nothing came.
#[derive(Clone, Copy, Debug, PartialEq, Eq)]
pub enum WireRefusal {
    /// The outside failed.
    Failed,
    /// Out of memory. Nothing was taken.
    NoMemory,
}

impl fmt::Display for WireRefusal {
    fn fmt<W: fmt::Write>(&self, f: &mut fmt::Formatter<W>) -> fmt::Result {
        f.write_str(match self {
            WireRefusal::Failed => "the outside failed",
            WireRefusal::NoMemory => "out of memory",
        })
    }
}

impl Error for WireRefusal {}

/// One thing that was done, as a record of wires keeps it.
#[derive(Drop)]
pub enum WireStep {
    /// This was given.
    Gave(Wired),
    /// This piece was offered to a connection, which took so many octets from its front.
    Offered {
        conn: u32,
        piece: Octets,
        taken: usize,
    },
    /// This live connection was closed.
    Closed(u32),
}

/// The connections of one worker. Their numbers rise from 1: each that comes has a number above all before. A connection is
/// live from its Accept or Join on, until it is lost or closed. One that fails is told by `Lost`, and not by `Failed`.
pub trait Wires {
    /// How many clusters there are, which connections are live, the greatest number so far, and where it is told what was done.
    ghost seen: { Self → Seen };

    /// How often a call failed. The count ends at 2^64 - 1.
    ghost faults: { Self → ℕ };

    /// What came next. After a refusal nothing was taken.
    fn next(&mut self) -> Result<Wired, WireRefusal>
        ensures ok { IfOk result (λ wired. Gives (seen self.old) wired (seen self.new)) }
        ensures err { OnErr result (seen self.new ≡ seen self.old) }
        ensures no_fall { faults self.old ≤ faults self.new }
        ensures cause { result ≡ Err refusal.Failed → Rose (faults self.old) (faults self.new) };

    /// Hands a piece to a connection, which takes a prefix of it, and answers how many octets. It is 0 where the connection
    /// takes nothing now, and where it isn't live. A failure takes nothing.
    fn offer(&mut self, conn: u32, piece: &[u8]) -> Result<usize, Failed>
        ensures bound { WritesAtMost result piece.now }
        ensures live { is_live conn (seen self.old) ≡ false → IfOk result (λ n. n ≡ 0) }
        ensures ok { IfOk result (λ n. seen self.new ≡ offered conn piece.now n (seen self.old)) }
        ensures err { OnErr result (seen self.new ≡ seen self.old) }
        ensures cause { FailsByFault (faults self.old) (faults self.new) result };

    /// Ends a live connection. Nothing happens where it isn't live.
    fn close(&mut self, conn: u32)
        ensures closes { seen self.new ≡ closed conn (seen self.old) }
        ensures no_fall { faults self.old ≤ faults self.new };
}

impl Wired {
    /// The same once more. Octets are copied as a slice. Refused only for lack of memory.
    pub fn copied(&self, alloc: Global) -> Result<Wired, NoMemory>
        ensures { IfOk result (λ made. made ≡ self.now) }
    {
        Ok(match self {
            Wired::Accept(conn) => Wired::Accept(*conn),
            Wired::Join(conn, cluster) => Wired::Join(*conn, *cluster),
            Wired::Read(conn, octets) => {
                Wired::Read(*conn, Octets::from_slice(alloc, octets.as_slice())?)
            }
            Wired::Lost(conn) => Wired::Lost(*conn),
            Wired::Idle => Wired::Idle,
            Wired::Stop => Wired::Stop,
        })
    }
}
