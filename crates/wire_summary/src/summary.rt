// The summary of a wire session.
ghost use Rattle.std.specs.Prelude.{◌≡◌, ◌++◌, OnErr, OnOk, flat_map};
ghost use Rattle.wire_summary.specs.Places.{side_of};
ghost use Rattle.wire_summary.specs.Summarizes.{Summarizes, exchange_lines, side_lines, stage_lines, write_line};

use crate::levels::{BufferLimits, Levels};
use crate::log::WireLog;
use crate::places::FlowPlaces;
use flow_gate::FlowId;
use io_ports::{NoMemory, Octets};
use std::alloc::Global;
use tape_summary::{put_done, put_flow_peak, put_pauses, put_stage_peak, put_write_peak};

/// Appends the summary of the tape that a log stands for. After running out of memory the text is as it was.
pub fn write_wire_summary(alloc: Global, log: &WireLog, into: &mut Octets) -> Result<(), NoMemory>
    ensures ok { OnOk result (Summarizes log.now into.old into.new) }
    ensures err { OnErr result (into.new ≡ into.old) }
{
    let mut text = Octets::from_slice(alloc, into.as_slice())?;
    put_exchanges(&mut text, &log.levels)?;
    put_writes(&mut text, &log.levels)?;
    put_pauses(&mut text, &log.pauses)?;
    put_done(&mut text, log.pauses.turns())?;
    *into = text;
    Ok(())
}

// Appends the peaks of each exchange's buffers.
fn put_exchanges(into: &mut Octets, levels: &Levels) -> Result<(), NoMemory>
    ensures { OnOk result (into.new ≡ into.old ++ flat_map (exchange_lines levels.now) levels.now.started.items) }
{
    let mut rest = levels.started();
    while let Some((exchange, after)) = rest.split_first() {
        put_exchange(into, levels, *exchange)?;
        rest = after;
    }
    Ok(())
}

fn put_exchange(into: &mut Octets, levels: &Levels, exchange: u64) -> Result<(), NoMemory>
    ensures { OnOk result (into.new ≡ into.old ++ exchange_lines levels.now exchange) }
{
    let Some(places) = levels.exchange(exchange) else {
        return Ok(());
    };
    let request = FlowId::request(exchange);
    put_flow(into, levels.limits(), request, &places.request)?;
    let response = FlowId::response(exchange);
    put_flow(into, levels.limits(), response, &places.response)
}

// Appends the peaks of a flow's buffers, place by place.
fn put_flow(
    into: &mut Octets,
    limits: BufferLimits,
    flow: FlowId,
    places: &FlowPlaces,
) -> Result<(), NoMemory>
    ensures { OnOk result (into.new ≡ into.old ++ side_lines limits flow (side_of places.now)) }
{
    let send = places.limits().len() + 1;
    put_flow_peak(into, b"recv", flow, limits.recv, places.most(0))?;
    put_stages(into, flow, places)?;
    put_flow_peak(into, b"send", flow, limits.send, places.most(send))
}

// Appends the peaks of a flow's stages.
fn put_stages(into: &mut Octets, flow: FlowId, places: &FlowPlaces) -> Result<(), NoMemory>
    ensures { OnOk result (into.new ≡ into.old ++ stage_lines flow places.now.levels.items 1 places.now.limits.items) }
{
    let mut place = 1;
    let mut rest = places.limits();
    while let Some((limit, after)) = rest.split_first() {
        put_stage_peak(into, flow, place as u64, *limit, places.most(place))?;
        place += 1;
        rest = after;
    }
    Ok(())
}

// Appends the peaks of each connection's write buffer.
fn put_writes(into: &mut Octets, levels: &Levels) -> Result<(), NoMemory>
    ensures { OnOk result (into.new ≡ into.old ++ flat_map (write_line levels.now) levels.now.conns.items) }
{
    let mut rest = levels.conns();
    while let Some((conn, after)) = rest.split_first() {
        put_write_peak(into, *conn, levels.limits().write, levels.write(*conn).most)?;
        rest = after;
    }
    Ok(())
}
