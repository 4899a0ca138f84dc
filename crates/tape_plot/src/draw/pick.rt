// Which lanes are drawn.
ghost use Rattle.std.specs.Prelude.{◌≡◌, OnOk};
ghost use Rattle.tape_plot.specs.Filled as spec;
ghost use Rattle.tape_plot.specs.Ranking.{kept_of, ranked_in};

use crate::choice::Lanes;
use crate::connections::Connections;
use crate::exchange::Exchange;
use crate::exchanges::Exchanges;
use crate::flow::{Flow, Place};
use crate::height::Height;
use crate::highest::{Buffer, HIGHEST, Highest, Ranked};
use crate::levels::Levels;
use crate::limits::{Limits, known};
use flow_gate::FlowId;
use io_ports::NoMemory;
use std::alloc::Global;

/// Which lanes are drawn: those that are named, or the highest.
#[derive(Drop)]
pub struct Pick {
    lanes: Lanes,
    highest: Highest,
}

impl Pick {
    ghost use Rattle.std.specs.Prelude.{◌≡◌, IfOk, true};
    ghost use Rattle.tape_plot.specs.Picks.{IsPicked, RankedIn};

    /// What is picked of these by a choice.
    pub fn new(
        alloc: Global,
        levels: &Levels,
        limits: &Limits,
        lanes: Lanes,
    ) -> Result<Self, NoMemory>
        ensures lanes { IfOk result (λ pick. pick.lanes ≡ lanes) }
        ensures ranked { IfOk result (RankedIn levels.now limits.now) }
    {
        let mut highest = Highest::new(alloc);
        rank_exchanges(&mut highest, &levels.exchanges, limits)?;
        rank_connections(&mut highest, &levels.connections, limits)?;
        Ok(Pick { lanes, highest })
    }

    /// How many buffers ever held an octet.
    pub fn buffers(&self) -> u64 {
        self.highest.seen
    }

    /// Whether the lane of a buffer is drawn.
    pub fn takes(&self, buffer: Buffer) -> bool
        ensures { IsPicked self.now buffer → result ≡ true }
    {
        match self.lanes {
            Lanes::Highest => self.highest.has(buffer),
            Lanes::All => true,
            Lanes::Named { flow, conn } => match buffer {
                Buffer::Place(id, _) => flow == Some(id),
                Buffer::Write(id) => conn == Some(id),
            },
        }
    }

    /// Whether the bar of a flow without buffers of its own is drawn, with so many bars before it.
    pub fn takes_bar(&self, flow: FlowId, bars: u64) -> bool {
        match self.lanes {
            Lanes::Named { flow: named, .. } => named == Some(flow),
            Lanes::All => true,
            Lanes::Highest => bars < HIGHEST as u64,
        }
    }
}

// The buffers of all exchanges are put, each where it belongs.
fn rank_exchanges(
    highest: &mut Highest,
    exchanges: &Exchanges,
    limits: &Limits,
) -> Result<(), NoMemory>
    ensures put { OnOk result (ranked_in highest.new ≡ kept_of (spec.of_exchanges limits.now exchanges.now.items.entries) (ranked_in highest.old)) }
    ensures read { OnOk result (spec.IsRead exchanges.now.items) }
{
    for (number, exchange) in exchanges.items.iter() {
        rank_exchange(highest, *number, exchange, limits)?;
    }
    Ok(())
}

// The write buffers of all connections.
fn rank_connections(
    highest: &mut Highest,
    connections: &Connections,
    limits: &Limits,
) -> Result<(), NoMemory>
    ensures put { OnOk result (ranked_in highest.new ≡ kept_of (spec.of_connections limits.now connections.now.items.entries) (ranked_in highest.old)) }
    ensures read { OnOk result (spec.IsRead connections.now.items) }
{
    for (conn, connection) in connections.items.iter() {
        let limit = limits.of_write(*conn);
        rank(highest, Buffer::Write(*conn), &connection.write, limit)?;
    }
    Ok(())
}

// The buffers of an exchange: those of its request come first.
fn rank_exchange(
    highest: &mut Highest,
    number: u64,
    exchange: &Exchange,
    limits: &Limits,
) -> Result<(), NoMemory>
    ensures { OnOk result (ranked_in highest.new ≡ kept_of (spec.of_exchange limits.now number exchange.now) (ranked_in highest.old)) }
{
    let request = FlowId {
        exchange: number,
        back: false,
    };
    let response = FlowId {
        exchange: number,
        back: true,
    };
    rank_flow(highest, request, &exchange.request, limits)?;
    rank_flow(highest, response, &exchange.response, limits)
}

// The places of a flow, one after the other.
fn rank_flow(
    highest: &mut Highest,
    id: FlowId,
    flow: &Flow,
    limits: &Limits,
) -> Result<(), NoMemory>
    ensures { OnOk result (ranked_in highest.new ≡ kept_of (spec.of_flow limits.now id flow.now) (ranked_in highest.old)) }
{
    let count = flow.place_count()?;
    let mut i = 0;
    while i < count {
        let place = &flow.places[i as usize];
        rank(
            highest,
            Buffer::Place(id, i),
            place,
            limits.of_place(id, i, count),
        )?;
        i += 1;
    }
    Ok(())
}

// A buffer that ever held an octet is put where it belongs, and kept if that is one of the first.
fn rank(
    highest: &mut Highest,
    buffer: Buffer,
    place: &Place,
    limit: Option<u32>,
) -> Result<(), NoMemory>
    ensures { OnOk result (ranked_in highest.new ≡ kept_of (spec.of_lane buffer limit place.now) (ranked_in highest.old)) }
{
    let most = place.lane.most();
    if most == 0 {
        return Ok(());
    }
    let height = Height::new(most, known(limit));
    highest.put(Ranked { buffer, height })
}
