// A whole event.
ghost use Rattle.std.specs.Prelude.{◌≡◌, [], OnOk};
ghost use Rattle.wire_state.specs.Noting.{Appends};
ghost use Rattle.wire_state.specs.Sound.{IsSound};
ghost use Rattle.wire_state.specs.Worlds.{TurnsAnew};

use crate::steps::settle;
use flow_notes::{Event, Notes};
use io_ports::NoMemory;
use wire_state::{CarryOut, WireCore};
use wire_turns::{rest, sweep, take_event};

/// What carries an event out on the core of wire sessions. It keeps nothing.
#[derive(Clone, Copy)]
pub struct WireSteps;

impl CarryOut for WireSteps {
    fn carry_out(
        &self,
        core: &mut WireCore,
        event: &Event,
        notes: &mut Notes,
    ) -> Result<(), NoMemory> {
        work(core, event, notes)
    }
}

// The event's effect, small steps to the end, then the sweep.
fn work(core: &mut WireCore, event: &Event, notes: &mut Notes) -> Result<(), NoMemory>
    requires sound { IsSound core.old }
    ensures sound { OnOk result (IsSound core.new) }
    ensures notes { Appends notes.old notes.new }
    ensures octets { TurnsAnew result event.now core.old notes.old core.new notes.new }
{
    begin_rows(core);
    let eased = take_event(core, event, notes)?;
    settle(core, eased, notes)?;
    sweep(core, notes)?;
    rest(core)
}

// No exchange has begun yet.
fn begin_rows(core: &mut WireCore)
    requires sound { IsSound core.old }
    ensures sound { IsSound core.new }
    ensures rest { core.new ≡ record core.old { before = core.new.before; rows = core.new.rows } }
    ensures before { core.new.before ≡ core.old.flows.exchanges.last }
    ensures none { core.new.rows.items ≡ [] }
{
    core.before = core.flows.last();
    core.rows.clear();
}
