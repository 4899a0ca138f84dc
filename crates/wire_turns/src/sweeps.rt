// The end of a dispatch.
ghost use Rattle.std.specs.Prelude.{[], ◌≡◌, ◌<◌, IfSome, OnOk, length};
ghost use Rattle.wire_state.specs.Noting.{Appends};
ghost use Rattle.wire_state.specs.Sound.{IsSound};
ghost use Rattle.wire_state.specs.Worlds.{Goes, Keeps, KeepsOk, octets_of};

use flow_notes::{FireKind, Note, Notes};
use io_ports::NoMemory;
use wire_state::{WireCore, note};

/// Each doomed exchange is gone, in the order of their dooms.
pub fn sweep(core: &mut WireCore, notes: &mut Notes) -> Result<(), NoMemory>
    requires sound { IsSound core.old }
    ensures sound { OnOk result (IsSound core.new) }
    ensures notes { Appends notes.old notes.new }
    ensures octets { Goes result core.old notes.old core.new notes.new }
{
    while let Some(exchange) = sweep_one(core) {
        note(notes, Note::Gone { exchange })?;
    }
    Ok(())
}

// The first of the doomed exchanges is gone, if there is one.
fn sweep_one(core: &mut WireCore) -> Option<u64>
    requires sound { IsSound core.old }
    ensures sound { IsSound core.new }
    ensures fewer { IfSome result (λ x. length core.new.flows.exchanges.doomed < length core.old.flows.exchanges.doomed) }
    ensures octets { Keeps core.old core.new }
{
    core.flows.sweep()
}

/// What this dispatch touched is timed anew and put into its class, and the connections at which it changed anything come to
/// rest.
pub fn rest(core: &mut WireCore) -> Result<(), NoMemory>
    requires sound { IsSound core.old }
    ensures sound { OnOk result (IsSound core.new) }
    ensures octets { KeepsOk result core.old core.new }
{
    while let Some(exchange) = core.load.take_touched() {
        rest_exchange(core, exchange)?;
    }
    while let Some(conn) = core.stirred.take_last() {
        rest_conn(core, conn)?;
    }
    core.cursor = 0;
    Ok(())
}

// A live exchange is timed anew, and gets its class by the octets that it holds.
fn rest_exchange(core: &mut WireCore, exchange: u64) -> Result<(), NoMemory>
    requires sound { IsSound core.old }
    ensures sound { OnOk result (IsSound core.new) }
    ensures touched { OnOk result (core.new.load.touched ≡ core.old.load.touched) }
    ensures octets { KeepsOk result core.old core.new }
{
    if !core.flows.is_live(exchange) {
        return Ok(());
    }
    core.timers.arm(FireKind::StreamIdle, exchange, core.now)?;
    let held = core.flows.held(exchange);
    core.load.settle(exchange, held)
}

// A connection with octets in its write buffer is among those that have some. One that is closed and has none is forgotten.
fn rest_conn(core: &mut WireCore, number: u32) -> Result<(), NoMemory>
    requires sound { IsSound core.old }
    ensures sound { OnOk result (IsSound core.new) }
    ensures stirred { OnOk result (core.new.stirred ≡ core.old.stirred) }
    ensures octets { KeepsOk result core.old core.new }
{
    let Some(conn) = core.conns.get(&number) else {
        return Ok(());
    };
    if !conn.outlet.is_empty() {
        core.outs.put(number, ())?;
        return Ok(());
    }
    let is_open = conn.open;
    let _ = core.outs.remove(&number);
    if is_open {
        return Ok(());
    }
    forget(core, number);
    Ok(())
}

// A connection that no exchange goes to is forgotten.
fn forget(core: &mut WireCore, number: u32)
    requires sound { IsSound core.old }
    ensures sound { IsSound core.new }
    ensures stirred { core.new.stirred ≡ core.old.stirred }
    ensures octets { octets_of number core.old.conns ≡ [] → Keeps core.old core.new }
{
    if core.links.exchanges_of(number) > 0 {
        return;
    }
    if !core.flows.close_write(number) {
        return;
    }
    core.links.are_sound();
    drop(core.conns.remove(&number));
    core.links.forget(number);
}
