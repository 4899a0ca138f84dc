// The events of a drill, one at a time.
ghost use Rattle.std.specs.List.{AllByRecursion};
ghost use Rattle.std.specs.Prelude.{◌≡◌, ◌<◌, ◌≤◌, ◌+◌, ◌*◌, ◌/◌, ◌%◌, ◌++◌, replicate, IfOk, List, ℕ};
ghost use Rattle.flow_notes.specs.Event.{IsEvent};
ghost use Rattle.replay_run.specs.DrillEvents.{amount as amount_of, drill as drill_of, next_number as number_behind, number_after, stream_at as stream_of};
ghost use Rattle.replay_run.specs.Drill.{GoesTo, drains_from, ends_from, opens_from, round_from, rounds_from};

use flow_notes::{Event, EventList, PlainEvent};
use io_ports::{NoMemory, Octets};
use std::alloc::Global;

/// How often each stream is fed.
const ROUNDS: u32 = 32;

/// How much each of the last rooms lets out.
const LAST_ROOM: u32 = 1_000_000;

/// The event that comes next: of stream `at`, counted from 0, in a round, or one of the last rooms.
#[derive(Clone, Copy)]
pub enum Upcoming {
    Open { at: u32 },
    Body { round: u32, at: u32 },
    Room { round: u32, at: u32 },
    End { at: u32 },
    Drain { at: u32 },
}

/// The drill of a number of streams, 1 to 1,000, under way. Holds no memory.
#[derive(Clone, Copy)]
pub struct Drill {
    streams: u32,
    /// The generator's number.
    x: u32,
    next: Upcoming,
}

impl Drill {
    ghost use Rattle.std.specs.Prelude.{◌≡◌, ◌<◌, ◌≤◌, List, IfOk, Some};
    ghost use Rattle.flow_notes.specs.declared.events.Event.{Event as EventValue};
    ghost use Rattle.replay_run.specs.DrillEvents.{drill};
    ghost use Rattle.replay_run.specs.Drill.{DrillIs, Yields};

    /// Before the first event.
    pub fn new(streams: u32) -> Self
        requires some { 0 < streams }
        requires few { streams ≤ 1000 }
        ensures { DrillIs result (drill streams) }
    {
        Drill {
            streams,
            x: streams,
            next: Upcoming::Open { at: 0 },
        }
    }

    /// The next event. Only a body takes memory.
    pub fn next(&mut self, alloc: Global) -> Result<Option<Event>, NoMemory>
        requires { (es : List EventValue) × DrillIs self.old es }
        ensures { IfOk result (λ given. Yields self.old given self.new) }
    {
        match self.next {
            Upcoming::Open { at } => Ok(Some(self.open(at))),
            Upcoming::Body { round, at } => {
                let event = self.body(alloc, round, at)?;
                Ok(Some(event))
            }
            Upcoming::Room { round, at } => Ok(Some(self.room(round, at))),
            Upcoming::End { at } => Ok(Some(self.end(at))),
            Upcoming::Drain { at } => Ok(self.drain(at)),
        }
    }

    fn open(&mut self, at: u32) -> Event
        requires placed { self.old.next ≡ Upcoming.Open at }
        requires drill { (es : List EventValue) × DrillIs self.old es }
        ensures { Yields self.old (Some result) self.new }
    {
        self.next = after_open(self.streams, at);
        Event::Plain(PlainEvent::Begin {
            stream: stream_at(at),
        })
    }

    fn body(&mut self, alloc: Global, round: u32, at: u32) -> Result<Event, NoMemory>
        requires placed { self.old.next ≡ Upcoming.Body round at }
        requires drill { (es : List EventValue) × DrillIs self.old es }
        ensures { IfOk result (λ event. Yields self.old (Some event) self.new) }
    {
        let stream = stream_at(at);
        let x = next_number(self.x);
        let octets = octets_of(alloc, stream, amount(x))?;
        self.x = x;
        self.next = Upcoming::Room { round, at };
        Ok(Event::Plain(PlainEvent::Body { stream, octets }))
    }

    fn room(&mut self, round: u32, at: u32) -> Event
        requires placed { self.old.next ≡ Upcoming.Room round at }
        requires drill { (es : List EventValue) × DrillIs self.old es }
        ensures { Yields self.old (Some result) self.new }
    {
        let x = next_number(self.x);
        self.x = x;
        self.next = after_room(self.streams, round, at);
        Event::Plain(PlainEvent::Room { n: amount(x) })
    }

    fn end(&mut self, at: u32) -> Event
        requires placed { self.old.next ≡ Upcoming.End at }
        requires drill { (es : List EventValue) × DrillIs self.old es }
        ensures { Yields self.old (Some result) self.new }
    {
        self.next = after_end(self.streams, at);
        Event::Plain(PlainEvent::Finish {
            stream: stream_at(at),
        })
    }

    fn drain(&mut self, at: u32) -> Option<Event>
        requires placed { self.old.next ≡ Upcoming.Drain at }
        requires drill { (es : List EventValue) × DrillIs self.old es }
        ensures { Yields self.old result self.new }
    {
        if at >= 3 * self.streams {
            return None;
        }
        self.next = Upcoming::Drain { at: at + 1 };
        Some(Event::Plain(PlainEvent::Room { n: LAST_ROOM }))
    }
}

fn after_open(streams: u32, at: u32) -> Upcoming
    requires at { at < streams }
    requires few { streams ≤ 1000 }
    ensures { GoesTo streams streams (opens_from streams (at + 1) ++ (rounds_from streams 0 ++ (ends_from streams 0 ++ drains_from streams 0))) result }
{
    if at + 1 < streams {
        Upcoming::Open { at: at + 1 }
    } else {
        Upcoming::Body { round: 0, at: 0 }
    }
}

fn after_room(streams: u32, round: u32, at: u32) -> Upcoming
    requires at { at < streams }
    requires few { streams ≤ 1000 }
    requires round { round < 32 }
    ensures { GoesTo streams (number_after streams (2 * (round * streams + at) + 2)) (round_from streams round (at + 1) ++ (rounds_from streams (round + 1) ++ (ends_from streams 0 ++ drains_from streams 0))) result }
{
    if at + 1 < streams {
        Upcoming::Body { round, at: at + 1 }
    } else if round + 1 < ROUNDS {
        Upcoming::Body {
            round: round + 1,
            at: 0,
        }
    } else {
        Upcoming::End { at: 0 }
    }
}

fn after_end(streams: u32, at: u32) -> Upcoming
    requires at { at < streams }
    requires few { streams ≤ 1000 }
    ensures { (x : ℕ) → GoesTo streams x (ends_from streams (at + 1) ++ drains_from streams 0) result }
{
    if at + 1 < streams {
        Upcoming::End { at: at + 1 }
    } else {
        Upcoming::Drain { at: 0 }
    }
}

fn stream_at(at: u32) -> u32
    requires { at < 1000 }
    ensures { result ≡ stream_of at }
{
    2 * at + 1
}

// The generator's next number.
fn next_number(x: u32) -> u32
    ensures { result ≡ number_behind x }
{
    ((1_103_515_245 * u64::from(x) + 12_345) % 2_147_483_648) as u32
}

// The length that is drawn: 1 and bits 16 to 25 of x.
fn amount(x: u32) -> u32
    ensures { result ≡ amount_of (x / 65536) }
{
    1 + x / 65_536 % 1_024
}

// n octets of a stream, each the last octet of its number.
fn octets_of(alloc: Global, stream: u32, n: u32) -> Result<Octets, NoMemory>
    ensures { IfOk result (λ octets. octets ≡ replicate n (stream % 256)) }
{
    let octets = vec![in alloc; (stream % 256) as u8; n as usize]?;
    Ok(Octets::from_vec(octets))
}

/// All events of the drill of n streams, 1 to 1,000, in their order: 69 n. Each has a spelling. Refused only for lack of
/// memory.
pub fn drill_events(alloc: Global, n: u32) -> Result<EventList, NoMemory>
    requires some { 0 < n }
    requires few { n ≤ 1000 }
    ensures drill { IfOk result (λ events. events ≡ drill_of n) }
    ensures spelled { IfOk result (λ events. (names : List (List ℕ)) → AllByRecursion (IsEvent names) events) }
{
    let mut events = EventList::new(alloc);
    let mut drill = Drill::new(n);
    while let Some(event) = drill.next(alloc)? {
        events.push(event)?;
    }
    Ok(events)
}
