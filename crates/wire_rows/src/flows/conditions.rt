// What calls of the exchanges ask for.
ghost use Rattle.std.specs.Prelude.{◌≡◌, ◌<◌, IfSome, IsNone, IsSome, false, length, true};
ghost use Rattle.exchange_core.specs.Message.{head_came};
ghost use Rattle.wire_flows.specs.Flows.{IsThere, flow_in};
ghost use Rattle.wire_flows.specs.Writes.{write_at};

use exchange_core::StartSpec;
use flow_gate::FlowId;
use proxy_config::Config;
use wire_flows::WireFlows;

/// Whether the row is there, and both write buffers are known.
pub fn may_start(flows: &WireFlows, spec: &StartSpec, config: &Config) -> bool
    ensures row { result ≡ true → IfSome spec.entry.now.row (λ row. row < length config.now.routes) }
    ensures from { result ≡ true → IsSome (write_at spec.entry.now.from_conn flows.now) }
    ensures to { result ≡ true → IfSome spec.entry.now.to_conn (λ c. IsSome (write_at c flows.now)) }
{
    if let Some(row) = spec.row {
        if row >= config.routes.len() {
            return false;
        }
    }
    if let Some(conn) = spec.to_conn {
        if !flows.knows_write(conn) {
            return false;
        }
    }
    flows.knows_write(spec.from_conn)
}

/// Whether a flow is one of a live exchange.
pub fn is_there(flows: &WireFlows, flow: FlowId) -> bool
    ensures there { result ≡ true → IsThere flows.now flow }
    ensures gone { result ≡ false → IsNone (flow_in flows.now flow) }
{
    flows.is_live(flow.exchange)
}

/// Whether a flow is there and its end hasn't come.
pub fn goes_on(flows: &WireFlows, flow: FlowId) -> bool
    ensures there { result ≡ true → IsThere flows.now flow }
    ensures goes_on { result ≡ true → IfSome (flow_in flows.now flow) (λ f. f.message.ended ≡ false) }
{
    is_there(flows, flow) && !flows.has_ended(flow)
}

/// Why octets of a body can't come on a flow that is there, if they can't.
pub fn body_refusal(flows: &WireFlows, flow: FlowId) -> Option<&'static str>
    ensures goes_on { IsNone result → IfSome (flow_in flows.now flow) (λ f. f.message.ended ≡ false) }
    ensures headed { IsNone result → IfSome (flow_in flows.now flow) (λ f. head_came f.message ≡ true) }
{
    if !is_there(flows, flow) {
        return None;
    }
    if flows.has_ended(flow) {
        return Some("over");
    }
    if !flows.head_came(flow) {
        return Some("early");
    }
    None
}
