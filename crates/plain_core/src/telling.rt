// Which flows are told next that the write buffer drained.
ghost use Rattle.std.specs.Prelude.{◌≡◌, true};
ghost use Rattle.plain_core.specs.Flows.{IsSettled};
ghost use Rattle.plain_core.specs.Telling.{IsToldNext};

use crate::flows::Flows;
use crate::gaps::Gap;
use flow_gate::FlowId;

/// The flows that are told in one go that the write buffer drained.
#[derive(Clone, Copy, PartialEq, Eq)]
pub struct Told {
    pub n: usize,
    /// The last of them, where it goes on.
    pub next: Option<FlowId>,
}

/// How many flows are told next, up to the first that goes on, and that one: none while the write buffer is above,
/// else the first of all where some unit is ready, and else the first whose receive buffer holds octets.
pub(crate) fn next_told(flows: &Flows) -> Told
    requires { IsSettled flows.now }
    ensures { IsToldNext flows.now result }
{
    if flows.is_above() {
        return all_told(flows);
    }
    if flows.conn.is_idle() {
        return told_to_holder(flows);
    }
    first_told(flows)
}

fn all_told(flows: &Flows) -> Told
    requires { flows.now.conn.write.above ≡ true }
    ensures { IsToldNext flows.now result }
{
    Told {
        n: flows.lows().len(),
        next: None,
    }
}

fn first_told(flows: &Flows) -> Told
    ensures { IsToldNext flows.now result }
{
    match flows.lows().next() {
        Some(flow) => Told {
            n: 1,
            next: Some(flow),
        },
        None => Told { n: 0, next: None },
    }
}

fn told_to_holder(flows: &Flows) -> Told
    requires { IsSettled flows.now }
    ensures { IsToldNext flows.now result }
{
    let lows = flows.lows();
    let _most = lows.most();
    let mut gap = Gap { from: 0, to: 0 };
    let mut n = 0;
    for flow in lows {
        n += 1;
        if flows.holds_past(&mut gap, flow.exchange) {
            return Told {
                n,
                next: Some(flow),
            };
        }
    }
    Told { n, next: None }
}
