// How much a buffer holds, and the most that it ever held.
ghost use Rattle.std.specs.Prelude.{◌≡◌, IfOk};
ghost use Rattle.tape_summary.specs.Levels.{WriteGoes, on_first as on_first_of};

use flow_notes::Note;
use io_ports::NoMemory;

/// The nine octets before a frame's payload (RFC 9113 section 4.1).
const FRAME_HEAD: u64 = 9;

/// How many octets a buffer holds, and the most that it ever held.
#[derive(Clone, Copy, PartialEq, Eq)]
pub struct Level {
    pub held: u64,
    pub most: u64,
}

impl Level {
    ghost use Rattle.std.specs.Prelude.{◌≡◌, IfOk};
    ghost use Rattle.tape_summary.specs.Levels.{emptied, fallen, no_level, risen};

    /// A buffer that never held an octet.
    pub fn none() -> Self
        ensures { result ≡ no_level }
    {
        Level { held: 0, most: 0 }
    }

    /// Octets come. A length past the end of its type counts as out of memory.
    pub fn rise(self, n: u64) -> Result<Self, NoMemory>
        ensures { IfOk result (λ level. level ≡ risen self n) }
    {
        let Some(held) = self.held.checked_add(n) else {
            return Err(NoMemory);
        };
        Ok(Level {
            held,
            most: self.most.max(held),
        })
    }

    /// Octets leave, at most those that are there.
    pub fn fall(self, n: u64) -> Self
        ensures { result ≡ fallen self n }
    {
        Level {
            held: self.held.saturating_sub(n),
            ..self
        }
    }

    /// All octets leave.
    pub fn empty(self) -> Self
        ensures { result ≡ emptied self }
    {
        Level { held: 0, ..self }
    }
}

/// What a note leaves of a plain session's write buffer, into which bodies alone are framed. A length past 2^64 - 1 counts as
/// out of memory.
pub fn write_after(write: Level, note: &Note) -> Result<Level, NoMemory>
    ensures { IfOk result (WriteGoes write note.now) }
{
    match note {
        Note::Frame { conn, n, .. } => write.rise(on_first(*conn, FRAME_HEAD + u64::from(*n))),
        Note::Out { conn, n } => Ok(write.fall(on_first(*conn, u64::from(*n)))),
        _ => Ok(write),
    }
}

// What counts of n octets for the one connection, 0.
fn on_first(conn: u32, n: u64) -> u64
    ensures { result ≡ on_first_of conn n }
{
    if conn == 0 { n } else { 0 }
}
