// SETTINGS frames (RFC 9113 section 6.5.2).
ghost use Rattle.std.specs.Prelude.{◌≡◌, ◌≤◌, ◌+◌, OnOk};
ghost use Rattle.wire_state.specs.Noting.{Appends};
ghost use Rattle.wire_state.specs.Progress.{conn_go, to_go};
ghost use Rattle.wire_state.specs.Sound.{IsSound};
ghost use Rattle.wire_state.specs.Worlds.{Goes, Keeps, KeepsOk};

use crate::faults::close_with;
use flow_notes::Notes;
use h2_frames::codes::FLOW_CONTROL_ERROR;
use h2_session::{Named, SettingList};
use io_ports::NoMemory;
use wire_ends::put;
use wire_outlet::Control;
use wire_state::{Conn, WireCore};

/// The peer's settings.
#[cold]
#[inline(never)]
pub(crate) fn settings(
    core: &mut WireCore,
    number: u32,
    list: &SettingList,
    notes: &mut Notes,
) -> Result<(), NoMemory>
    requires sound { IsSound core.old }
    ensures sound { OnOk result (IsSound core.new) }
    ensures go { OnOk result (to_go core.new ≤ to_go core.old + 6) }
    ensures notes { Appends notes.old notes.new }
    ensures octets { Goes result core.old notes.old core.new notes.new }
{
    let named = list.named();
    set_concurrent(core, number, named.concurrent);
    let before = initial_of(core, number);
    if !set_windows(core, number, named) {
        return close_with(core, number, FLOW_CONTROL_ERROR, notes);
    }
    refresh_all(core, number, before)?;
    let ack = Control::settings_ack(core.alloc)?;
    put(core, number, ack)
}

// The number of concurrent streams that the peer names, if it does.
fn set_concurrent(core: &mut WireCore, number: u32, n: Option<u32>)
    requires sound { IsSound core.old }
    ensures sound { IsSound core.new }
    ensures go { to_go core.new ≤ to_go core.old }
    ensures octets { Keeps core.old core.new }
{
    match n {
        Some(n) => core.links.set_concurrent(number, n),
        None => {}
    }
}

// The greatest payload, and the initial window of each stream. The answer is false where a window would be too large.
fn set_windows(core: &mut WireCore, number: u32, named: Named) -> bool
    requires sound { IsSound core.old }
    ensures sound { IsSound core.new }
    ensures go { to_go core.new ≤ to_go core.old }
    ensures octets { Keeps core.old core.new }
{
    match core.conns.get_mut(&number) {
        Some(conn) => set_windows_of(conn, named),
        None => true,
    }
}

fn set_windows_of(conn: &mut Conn, named: Named) -> bool
    ensures write { conn.new.outlet.write ≡ conn.old.outlet.write }
    ensures waiting { conn.new.outlet.waiting ≡ conn.old.outlet.waiting }
    ensures opened { conn.new.open ≡ conn.old.open }
    ensures go { conn_go conn.new ≤ conn_go conn.old }
{
    if named.table {
        conn.table_size_named();
    }
    if let Some(payload) = named.payload {
        conn.set_payload(payload);
    }
    match named.initial {
        Some(window) => conn.set_initial(window.greatest, window.last),
        None => true,
    }
}

// The initial window of a stream that the peer has granted.
fn initial_of(core: &WireCore, number: u32) -> u32 {
    match core.conns.get(&number) {
        Some(conn) => conn.windows.send.initial(),
        None => 0,
    }
}

// What goes next of the flows that go to the connection, where the initial window was this one before.
fn refresh_all(core: &mut WireCore, number: u32, before: u32) -> Result<(), NoMemory>
    requires sound { IsSound core.old }
    ensures sound { OnOk result (IsSound core.new) }
    ensures go { to_go core.new ≤ to_go core.old }
    ensures octets { KeepsOk result core.old core.new }
{
    match core.conns.get_mut(&number) {
        Some(conn) => conn.refresh_windowed(&core.flows, before),
        None => Ok(()),
    }
}
