// Between which connections a flow goes.
ghost use Rattle.std.specs.Prelude.{◌≡◌};
ghost use Rattle.wire_state.specs.Courses.{course_of};

use flow_gate::FlowId;
use wire_links::Ends;

/// A flow with the connection that it comes from and the one that it goes to: none for a request that is refused.
#[derive(Clone, Copy, PartialEq, Eq)]
pub struct Course {
    pub flow: FlowId,
    pub from: Option<u32>,
    pub to: Option<u32>,
}

impl Course {
    /// The course of the request of an exchange between these ends, or of its response.
    pub fn of(exchange: u64, back: bool, ends: Ends) -> Self
        ensures { result ≡ course_of exchange back ends }
    {
        let flow = FlowId { exchange, back };
        if back {
            return Course {
                flow,
                from: ends.cluster,
                to: Some(ends.client),
            };
        }
        Course {
            flow,
            from: Some(ends.client),
            to: ends.cluster,
        }
    }
}
