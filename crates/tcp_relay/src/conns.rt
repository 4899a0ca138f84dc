// The open connections by number, and what is done to one of them.
ghost use Rattle.std.specs.Prelude.{◌≡◌, None, Some, IfOk, OnOk, option_map};
ghost use Rattle.tcp_relay.specs.Lines.{Changes, added, dropped, fed, feeds_of, held_in, is_idle_at, line_in, rises_by, seen, taken_of};
ghost use Rattle.wm_buffer.specs.Buffer.{empty_buffer};

use io_ports::NoMemory;
use relay_laws::Feed;
use std::alloc::Global;
use std::collections::BTreeMap;
use wm_buffer::{Crossed, WatermarkBuffer};

/// An open connection. One that is closed isn't kept: nothing waits for it.
#[derive(Drop)]
pub struct Conn {
    /// The octets that wait for it.
    pub(crate) write: WatermarkBuffer,
    /// What it feeds, as long as its pair is live.
    pub(crate) feeds: Option<Feed>,
}

impl Conn {
    /// A connection for which nothing waits, with this limit of its write buffer in octets, 0 for none. Takes no memory.
    pub(crate) fn new(alloc: Global, limit: u32, feeds: Option<Feed>) -> Self
        ensures write { result.write ≡ empty_buffer limit }
        ensures feeds { result.feeds ≡ feeds }
    {
        Conn {
            write: WatermarkBuffer::new(alloc, limit),
            feeds,
        }
    }
}

/// What the leaving of octets came to.
#[derive(Clone, Copy, PartialEq, Eq)]
pub struct Taken {
    /// How many left.
    pub n: u32,
    /// Whether the write buffer has drained by that.
    pub drained: bool,
    /// Whether nothing waits any more.
    pub is_empty: bool,
    pub feeds: Option<Feed>,
}

/// A connection comes.
pub(crate) fn put(conns: &mut BTreeMap<u32, Conn>, conn: u32, value: Conn) -> Result<(), NoMemory>
    ensures { OnOk result (Changes conn (λ _. Some (seen value)) conns.old conns.new) }
{
    conns.insert(conn, value)?;
    Ok(())
}

/// A connection is forgotten. Answers whether it was there, and what it fed.
pub(crate) fn forget(conns: &mut BTreeMap<u32, Conn>, conn: u32) -> Option<Option<Feed>>
    ensures gone { Changes conn (λ _. None) conns.old conns.new }
    ensures was { result ≡ option_map (λ line. line.feeds) (line_in conns.old conn) }
{
    match conns.remove(&conn) {
        Some(was) => Some(was.feeds),
        None => None,
    }
}

/// From now on a connection feeds this.
pub(crate) fn feed(conns: &mut BTreeMap<u32, Conn>, conn: u32, feeds: Option<Feed>)
    ensures { Changes conn (option_map (fed feeds)) conns.old conns.new }
{
    if let Some(at) = conns.get_mut(&conn) {
        at.feeds = feeds;
    }
}

/// Octets come for a connection. Answers whether its write buffer rose.
pub(crate) fn add(
    conns: &mut BTreeMap<u32, Conn>,
    conn: u32,
    octets: &[u8],
) -> Result<bool, NoMemory>
    ensures added { OnOk result (Changes conn (option_map (added octets.now)) conns.old conns.new) }
    ensures rose { IfOk result (λ rose. rose ≡ rises_by octets.now (line_in conns.old conn)) }
{
    let Some(at) = conns.get_mut(&conn) else {
        return Ok(false);
    };
    let crossed = at.write.add(octets)?;
    Ok(crossed == Crossed::High)
}

/// Up to n octets leave the write buffer of a connection. None where there is none.
pub(crate) fn take(conns: &mut BTreeMap<u32, Conn>, conn: u32, n: u32) -> Option<Taken>
    ensures dropped { Changes conn (option_map (dropped n)) conns.old conns.new }
    ensures taken { result ≡ taken_of n (line_in conns.old conn) }
{
    let at = conns.get_mut(&conn)?;
    let n = n.min(at.write.len());
    if n == 0 {
        return None;
    }
    let crossed = at.write.take(n);
    Some(Taken {
        n,
        drained: crossed == Crossed::Low,
        is_empty: at.write.is_empty(),
        feeds: at.feeds,
    })
}

/// What a connection feeds, if it is in a live pair.
pub(crate) fn feeds(conns: &BTreeMap<u32, Conn>, conn: u32) -> Option<Feed>
    ensures { result ≡ feeds_of (line_in conns.now conn) }
{
    conns.get(&conn)?.feeds
}

/// How many octets wait for a connection, if its write buffer is above.
pub(crate) fn held(conns: &BTreeMap<u32, Conn>, conn: u32) -> Option<u32>
    ensures { result ≡ held_in (line_in conns.now conn) }
{
    let at = conns.get(&conn)?;
    if at.write.is_above() {
        Some(at.write.len())
    } else {
        None
    }
}

/// Whether nothing waits for a connection.
pub(crate) fn is_idle(conns: &BTreeMap<u32, Conn>, conn: u32) -> bool
    ensures { result ≡ is_idle_at (line_in conns.now conn) }
{
    match conns.get(&conn) {
        Some(at) => at.write.is_empty(),
        None => false,
    }
}
