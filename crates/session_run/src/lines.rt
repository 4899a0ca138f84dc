// The lines of a source, which is read in large pieces.
ghost use Rattle.std.specs.Prelude.{◌≡◌, ◌<◌, ◌≤◌, ◌+◌, length, drop, take, IfOk, OnErr};
ghost use Rattle.std.specs.Io.KnownBytes.{Consumes, IsAtEnd, Keeps};
ghost use Rattle.io_ports.specs.Faults.{FailsByFault};

use io_ports::{Failed, NoMemory, Source};
use memchr::memchr;
use std::alloc::Global;

/// How many octets are held at most, and read at once.
const ROOM: usize = 131_072;

/// What was read of a source and isn't consumed yet.
#[derive(Drop)]
pub struct Lines {
    octets: Vec<u8>,
    start: usize,
    end: usize,
    ghost in_order: { start ≤ end },
    ghost within: { end ≤ 131072 },
    ghost room: { length octets.items ≡ 131072 },
}

impl Lines {
    ghost use Rattle.std.specs.Prelude.{◌+◌, [], drop, false, IfOk, IfNone, IfSome, OnErr};
    ghost use Rattle.std.specs.Io.KnownBytes.{IsAtEnd};
    ghost use Rattle.io_ports.specs.Faults.{FailsByFault};
    ghost use Rattle.session_run.specs.Newlines.{has_newline, BeginsWithLine};
    ghost use Rattle.session_run.specs.Ends.{Fills};
    ghost use Rattle.session_run.specs.Held.{held_of};

    /// Nothing is read yet. Takes all the memory that reading needs.
    pub fn new(alloc: Global) -> Result<Self, NoMemory>
        ensures { IfOk result (λ lines. held_of lines ≡ []) }
    {
        Ok(Lines {
            octets: vec![in alloc; 0; ROOM]?,
            start: 0,
            end: 0,
        })
    }

    /// The octets that are held.
    pub fn held(&self) -> &[u8]
        ensures held { result.now ≡ held_of self.now }
        ensures room { length result.now ≤ 131072 }
    {
        &self.octets[self.start..self.end]
    }

    /// The length of the first line, without its newline.
    pub fn line_len(&self) -> Option<usize>
        ensures none { IfNone result (has_newline (held_of self.now) ≡ false) }
        ensures some { IfSome result (BeginsWithLine (held_of self.now)) }
    {
        memchr(b'\n', self.held())
    }

    /// Drops the first n octets.
    pub fn skip(&mut self, n: usize)
        requires { n ≤ length (held_of self.old) }
        ensures { held_of self.new ≡ drop n (held_of self.old) }
    {
        self.start += n;
    }

    /// Reads more, behind what is held. 0 is the end of the source. After a failure the octets that are held are as they were.
    pub fn fill<S: Source>(&mut self, source: &mut S) -> Result<usize, Failed>
        requires { length (held_of self.old) < 131072 }
        ensures fills { Fills (S.left source.old) (S.left source.new) (held_of self.old) (held_of self.new) }
        ensures room { length (held_of self.new) ≤ 131072 }
        ensures count { IfOk result (λ n. length (held_of self.new) ≡ length (held_of self.old) + n) }
        ensures end { IfOk result (λ n. n ≡ 0 → IsAtEnd (S.left source.new)) }
        ensures err { OnErr result (held_of self.new ≡ held_of self.old) }
        ensures cause { FailsByFault (S.faults source.old) (S.faults source.new) result }
    {
        self.to_front();
        let n = read_behind(source, &mut self.octets, self.end)?;
        self.end += n;
        Ok(n)
    }

    // Moves what is held to the front of the room.
    fn to_front(&mut self)
        ensures same { held_of self.new ≡ held_of self.old }
        ensures front { self.new.start ≡ 0 }
    {
        let (start, end) = (self.start, self.end);
        self.octets.copy_within(start..end, 0);
        self.start = 0;
        self.end = end - start;
    }
}

// Reads behind the octets that are held at the front.
fn read_behind<S: Source>(source: &mut S, into: &mut [u8], held: usize) -> Result<usize, Failed>
    requires { held ≤ length into.old }
    ensures front { take held into.new ≡ take held into.old }
    ensures bound { IfOk result (λ n. held + n ≤ length into.new) }
    ensures gives { IfOk result (λ n. Consumes (S.left source.old) (S.left source.new) (take n (drop held into.new))) }
    ensures end { IfOk result (λ n. n ≡ 0 → held < length into.old → IsAtEnd (S.left source.new)) }
    ensures err { OnErr result (Keeps (S.left source.old) (S.left source.new)) }
    ensures cause { FailsByFault (S.faults source.old) (S.faults source.new) result }
{
    source.read(&mut into[held..])
}
