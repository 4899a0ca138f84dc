// Flows are told that a write buffer drained.
ghost use Rattle.std.specs.Prelude.{◌≡◌, ◌≤◌, ◌<◌, ◌+◌, [], IfOk, OnOk, false, true};
ghost use Rattle.wire_flows.specs.Writes.{lows_on};
ghost use Rattle.wire_state.specs.Noting.{Appends};
ghost use Rattle.wire_state.specs.Progress.{to_go};
ghost use Rattle.wire_state.specs.Sound.{IsSound};
ghost use Rattle.wire_state.specs.Worlds.{Goes, KeepsOk};

use flow_gate::{BufferId, FlowId};
use flow_notes::{Note, Notes};
use io_ports::NoMemory;
use wire_state::{WireCore, note};

/// The next flow that is still to be told that the write buffer of a connection drained is told, and is to be run. The answer is
/// false exactly where there was none.
pub fn tell(core: &mut WireCore, conn: u32, notes: &mut Notes) -> Result<bool, NoMemory>
    requires sound { IsSound core.old }
    ensures sound { OnOk result (IsSound core.new) }
    ensures go { IfOk result (λ more. more ≡ true → to_go core.new < to_go core.old) }
    ensures notes { Appends notes.old notes.new }
    ensures told { IfOk result (λ more. more ≡ false → lows_on conn core.new.flows ≡ []) }
    ensures octets { Goes result core.old notes.old core.new notes.new }
{
    let Some(flow) = core.flows.next_told(conn) else {
        return Ok(false);
    };
    run_told(core, flow)?;
    note(
        notes,
        Note::Resume {
            flow,
            buffer: BufferId::Write(conn),
        },
    )?;
    Ok(true)
}

// A flow that was told runs.
fn run_told(core: &mut WireCore, flow: FlowId) -> Result<(), NoMemory>
    requires sound { IsSound core.old }
    ensures sound { OnOk result (IsSound core.new) }
    ensures go { OnOk result (to_go core.new ≤ to_go core.old + 9) }
    ensures octets { KeepsOk result core.old core.new }
{
    let Some(course) = core.course(flow) else {
        return Ok(());
    };
    core.look_due(course)?;
    core.ask_run(course)
}
