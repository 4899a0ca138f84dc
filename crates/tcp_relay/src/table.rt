// The connections of a relay, and what each event does to them.
ghost use Rattle.std.specs.BTreeSet.{contains};
ghost use Rattle.std.specs.Ordering.{nat_cmp};
ghost use Rattle.std.specs.Prelude.{◌≡◌, ℕ, [], IfOk, None, OnOk, Some, false, is_some, option_map};
ghost use Rattle.tcp_relay.specs.Board.{IsSeenAs, Takes, accepted, board_of, carried, carried_as, ends_as, held_at, is_reading, joined, left, left_as, lost, lost_as, met, parted_from, request_feed, response_feed, resumed_flow};
ghost use Rattle.tcp_relay.specs.Lines.{feeds_of, line_in, octets_of, taken_of};
ghost use Rattle.tcp_relay.specs.Seen.{IsFront, IsLeast};
ghost use Rattle.tcp_relay.specs.declared.effect.Effect.TheVariants as effect;

use crate::conns;
use crate::conns::Conn;
use crate::effect::{Effect, Ended, Left};
use flow_gate::FlowId;
use flow_notes::Event;
use io_ports::NoMemory;
use relay_laws::Feed;
use std::alloc::Global;
use std::collections::{BTreeMap, BTreeSet};
use std::ops::Bound;

/// The most pairs that there are.
const MOST_PAIRS: u64 = 9_223_372_036_854_775_807;

/// The open connections of a relay.
#[derive(Drop)]
pub struct Table {
    alloc: Global,
    /// The limit of each write buffer in octets, 0 for none.
    pub(crate) limit: u32,
    /// How many pairs there were.
    pub(crate) pairs: u64,
    pub(crate) conns: BTreeMap<u32, Conn>,
    /// The connections to clusters that were never paired.
    pub(crate) free: BTreeSet<u32>,
    /// The connections for which octets wait.
    pub(crate) waiting: BTreeSet<u32>,
}

impl Table {
    /// No connections. Takes no memory.
    pub(crate) fn new(alloc: Global, limit: u32) -> Self
        ensures limit { result.limit ≡ limit }
        ensures pairs { result.pairs ≡ 0 }
        ensures free { result.free.keys ≡ [] }
        ensures lines { (c : ℕ) → line_in result.conns c ≡ None }
        ensures waits { (c : ℕ) → contains nat_cmp result.waiting c ≡ false }
    {
        Table {
            alloc,
            limit,
            pairs: 0,
            conns: BTreeMap::new(alloc),
            free: BTreeSet::new(alloc),
            waiting: BTreeSet::new(alloc),
        }
    }

    /// What an event does.
    pub(crate) fn take(&mut self, event: &Event) -> Result<Effect, NoMemory>
        ensures { IfOk result (λ done. Takes event.now (board_of self.old) done (board_of self.new)) }
    {
        match event {
            Event::Accept { conn } => self.accept(*conn),
            Event::Join { conn, .. } => self.join(*conn),
            Event::Read { conn, octets } => self.carry(*conn, octets.as_slice()),
            Event::Room { conn, n } => Ok(self.leave(*conn, *n)),
            Event::Gone { conn } => Ok(self.lose(*conn)),
            _ => Ok(Effect::Nothing),
        }
    }

    // A connection to a cluster comes, and is free.
    fn join(&mut self, conn: u32) -> Result<Effect, NoMemory>
        ensures effect { IfOk result (λ done. done ≡ effect.Nothing) }
        ensures board { OnOk result (IsSeenAs (board_of self.new) (joined conn (board_of self.old))) }
    {
        conns::put(
            &mut self.conns,
            conn,
            Conn::new(self.alloc, self.limit, None),
        )?;
        self.free.insert(conn)?;
        Ok(Effect::Nothing)
    }

    // A client's connection comes, and is paired with the earliest free one.
    fn accept(&mut self, conn: u32) -> Result<Effect, NoMemory>
        ensures effect { IfOk result (λ done. done ≡ met conn self.old.free.keys (board_of self.old)) }
        ensures board { OnOk result (IsSeenAs (board_of self.new) (accepted conn self.old.free.keys (board_of self.old))) }
    {
        let Some(to) = self.free.pop_first() else {
            return Ok(Effect::Refused { conn });
        };
        if self.pairs >= MOST_PAIRS {
            return Err(NoMemory);
        }
        let exchange = self.pairs + 1;
        self.pairs = exchange;
        let (request, response) = pair_feeds(exchange, conn, to);
        let client = Conn::new(self.alloc, self.limit, Some(request));
        conns::put(&mut self.conns, conn, client)?;
        conns::feed(&mut self.conns, to, Some(response));
        Ok(Effect::Paired { exchange, conn, to })
    }

    // Octets that came from a connection enter the write buffer of the one that it feeds.
    fn carry(&mut self, conn: u32, octets: &[u8]) -> Result<Effect, NoMemory>
        ensures effect { IfOk result (λ done. done ≡ carried_as octets.now (feeds_of (line_in self.old.conns conn)) (board_of self.old)) }
        ensures board { OnOk result (IsSeenAs (board_of self.new) (carried octets.now (feeds_of (line_in self.old.conns conn)) (board_of self.old))) }
    {
        let Some(Feed { flow, to }) = conns::feeds(&self.conns, conn) else {
            return Ok(Effect::Nothing);
        };
        let rose = conns::add(&mut self.conns, to, octets)?;
        self.waiting.insert(to)?;
        Ok(Effect::Carried { flow, to, rose })
    }

    // Up to n octets leave the write buffer of a connection.
    fn leave(&mut self, conn: u32, n: u32) -> Effect
        ensures effect { result ≡ left_as conn (taken_of n (line_in self.old.conns conn)) }
        ensures board { IsSeenAs (board_of self.new) (left conn n (taken_of n (line_in self.old.conns conn)) (board_of self.old)) }
    {
        let Some(taken) = conns::take(&mut self.conns, conn, n) else {
            return Effect::Nothing;
        };
        if taken.is_empty {
            let _ = self.waiting.remove(&conn);
        }
        let closed = taken.is_empty && taken.feeds.is_none();
        if closed {
            let _ = conns::forget(&mut self.conns, conn);
        }
        Effect::Left(Left {
            conn,
            n: taken.n,
            resumed: resumed(taken.feeds, taken.drained),
            closed,
        })
    }

    // A connection is lost, and what waits for it is dropped.
    fn lose(&mut self, conn: u32) -> Effect
        ensures effect { result ≡ lost_as conn (line_in self.old.conns conn) (board_of self.old) }
        ensures board { IsSeenAs (board_of self.new) (lost conn (line_in self.old.conns conn) (board_of self.old)) }
    {
        let Some(feeds) = conns::forget(&mut self.conns, conn) else {
            return Effect::Nothing;
        };
        let _ = self.free.remove(&conn);
        let _ = self.waiting.remove(&conn);
        let ended = match feeds {
            Some(feed) => Some(self.end(feed)),
            None => None,
        };
        Effect::Lost { conn, ended }
    }

    // A pair ends: the other connection reads nothing more, and is closed where nothing waits for it.
    fn end(&mut self, feed: Feed) -> Ended
        ensures ended { result ≡ ends_as feed (line_in self.old.conns) }
        ensures board { IsSeenAs (board_of self.new) (parted_from (Some feed) (board_of self.old)) }
    {
        let closed = conns::is_idle(&self.conns, feed.to);
        if closed {
            let _ = conns::forget(&mut self.conns, feed.to);
        } else {
            conns::feed(&mut self.conns, feed.to, None);
        }
        Ended {
            exchange: feed.flow.exchange,
            other: feed.to,
            closed,
        }
    }

    /// How many octets wait where a connection's octets go to, if that write buffer is above.
    pub(crate) fn held_behind(&self, conn: u32) -> Option<u32>
        ensures { result ≡ held_at conn (board_of self.now) }
    {
        let feed = conns::feeds(&self.conns, conn)?;
        conns::held(&self.conns, feed.to)
    }

    /// Where the octets of a connection go to, if its pair is live.
    pub(crate) fn peer(&self, conn: u32) -> Option<u32>
        ensures { result ≡ option_map (λ f. f.to) (feeds_of (line_in self.now.conns conn)) }
    {
        let feed = conns::feeds(&self.conns, conn)?;
        Some(feed.to)
    }

    /// Whether a connection is in a live pair, and what it feeds isn't above.
    pub(crate) fn reads(&self, conn: u32) -> bool
        ensures { result ≡ is_reading (feeds_of (line_in self.now.conns conn)) (board_of self.now) }
    {
        match conns::feeds(&self.conns, conn) {
            Some(feed) => conns::held(&self.conns, feed.to).is_none(),
            None => false,
        }
    }

    /// A prefix of what waits for a connection, nonempty where that is.
    pub(crate) fn front(&self, conn: u32) -> &[u8]
        ensures { IsFront (octets_of (line_in self.now.conns conn)) result.now }
    {
        match self.conns.get(&conn) {
            Some(at) => at.write.front(),
            None => &[],
        }
    }

    pub(crate) fn is_open(&self, conn: u32) -> bool
        ensures { result ≡ is_some (line_in self.now.conns conn) }
    {
        self.conns.contains_key(&conn)
    }

    /// The open connection with the least number above `after`.
    pub(crate) fn conn_after(&self, after: u32) -> Option<u32>
        ensures { IsLeast (λ c. is_some (line_in self.now.conns c)) after result }
    {
        let (&conn, _) = self
            .conns
            .range((Bound::Excluded(after), Bound::Unbounded))
            .next()?;
        Some(conn)
    }

    /// The connection with the least number above `after` for which octets wait.
    pub(crate) fn out_after(&self, after: u32) -> Option<u32>
        ensures { IsLeast (λ c. contains nat_cmp self.now.waiting c) after result }
    {
        self.waiting
            .range((Bound::Excluded(after), Bound::Unbounded))
            .next()
            .copied()
    }
}

// The flow that goes to a connection, which goes on where its write buffer has drained and the pair is live.
fn resumed(feeds: Option<Feed>, drained: bool) -> Option<FlowId>
    ensures { result ≡ resumed_flow feeds drained }
{
    let Feed { flow, .. } = feeds?;
    if !drained {
        return None;
    }
    Some(FlowId {
        exchange: flow.exchange,
        back: !flow.back,
    })
}

// What the two connections of a pair feed.
fn pair_feeds(exchange: u64, conn: u32, to: u32) -> (Feed, Feed)
    ensures request { result.0 ≡ request_feed exchange to }
    ensures response { result.1 ≡ response_feed exchange conn }
{
    let request = FlowId {
        exchange,
        back: false,
    };
    let response = FlowId {
        exchange,
        back: true,
    };
    (
        Feed { flow: request, to },
        Feed {
            flow: response,
            to: conn,
        },
    )
}
