// Which flows a tick may move.
ghost use Rattle.std.specs.Prelude.{◌≡◌, ◌≤◌, ◌<◌, ◌+◌, ◌*◌, ◌-◌, ◌^◌, IfOk, IfSome, OnOk, if◌then◌else◌};
ghost use Rattle.wire_state.specs.Agenda.{top_go};
ghost use Rattle.wire_state.specs.Progress.{task_go, to_go};
ghost use Rattle.wire_state.specs.Sound.{IsSound};
ghost use Rattle.wire_state.specs.Worlds.{KeepsOk};

use flow_gate::FlowId;
use io_ports::NoMemory;
use wire_state::{Task, WireCore};

/// The task Ticks: the next flow is run of those whose exchange has octets in a Meter or a connection at which this dispatch
/// changed something, in the order of the exchanges, the request first. `exchange` and `back` tell the flow that was last.
pub fn ticks(core: &mut WireCore, exchange: u64, back: bool) -> Result<(), NoMemory>
    requires sound { IsSound core.old }
    requires top { top_go core.old.agenda ≡ 32 * (2 ^ 64 - exchange) + (if back then 1 else 17) }
    ensures sound { OnOk result (IsSound core.new) }
    ensures go { OnOk result (to_go core.new < to_go core.old) }
    ensures octets { KeepsOk result core.old core.new }
{
    if !back {
        return run_next(core, FlowId::response(exchange));
    }
    match next_exchange(core, exchange)? {
        Some(next) => run_next(core, FlowId::request(next)),
        None => {
            core.walk.clear();
            core.end_task();
            Ok(())
        }
    }
}

// The flow is run next, if it is live.
fn run_next(core: &mut WireCore, flow: FlowId) -> Result<(), NoMemory>
    requires sound { IsSound core.old }
    ensures sound { OnOk result (IsSound core.new) }
    ensures go { OnOk result (to_go core.new + top_go core.old.agenda ≤ to_go core.old + (9 + task_go (Task.Ticks flow.exchange flow.back))) }
    ensures octets { KeepsOk result core.old core.new }
{
    core.go_on(Task::Ticks {
        exchange: flow.exchange,
        back: flow.back,
    })?;
    match core.course(flow) {
        Some(course) => core.ask_run(course),
        None => Ok(()),
    }
}

// The least exchange above another of which a tick may move a flow.
fn next_exchange(core: &mut WireCore, after: u64) -> Result<Option<u64>, NoMemory>
    requires sound { IsSound core.old }
    ensures sound { OnOk result (IsSound core.new) }
    ensures go { OnOk result (to_go core.new ≤ to_go core.old) }
    ensures agenda { core.new.agenda ≡ core.old.agenda }
    ensures above { IfOk result (λ next. IfSome next (λ x. after < x)) }
    ensures octets { KeepsOk result core.old core.new }
{
    while let Some(conn) = core.stirred.fresh.pop() {
        core.walk.add(&core.links, conn, after)?;
    }
    let metered = core.flows.metered(after);
    match core.walk.next(&core.links, after)? {
        Some(stirred) => Ok(Some(metered.unwrap_or(stirred).min(stirred))),
        None => Ok(metered),
    }
}
