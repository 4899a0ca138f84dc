// What goes next into the write buffer of a connection.
ghost use Rattle.exchange_core.specs.Exchange.{flow_id};
ghost use Rattle.std.specs.Prelude.{◌≡◌, IfSome};
ghost use Rattle.wire_inlet.specs.Incoming.{is_cluster};
ghost use Rattle.wire_state.specs.Courses.{IsReadable};
ghost use Rattle.wire_state.specs.Progress.{conn_go};

use crate::conn::Conn;
use flow_gate::FlowId;
use wire_flows::WireFlows;

/// What goes next into the write buffer of a connection.
#[derive(Clone, Copy, PartialEq, Eq)]
pub enum NextUnit {
    /// The first unit of its waiting list.
    Waiting,
    /// The first WINDOW_UPDATE of the connection.
    FirstCredit,
    /// A WINDOW_UPDATE of the connection.
    Credit,
    /// A WINDOW_UPDATE of the stream of an exchange.
    StreamCredit(u64),
    /// A unit of a flow of an exchange that goes to it: a head, trailers, or an empty frame for the end.
    Flow(u64),
    /// Octets of the body of such a flow. Something else of it may have come before them since.
    Body(u64),
}

impl Conn {
    /// What goes next into the write buffer, whether it is above or not. Exchanges of which nothing goes next are looked at no
    /// more.
    #[inline(always)]
    pub fn next_unit(&mut self, flows: &WireFlows) -> Option<NextUnit>
        ensures rest { self.new ≡ record self.old { credits = self.new.credits } }
        ensures go { conn_go self.new ≡ conn_go self.old }
    {
        if self.outlet.has_waiting() {
            return Some(NextUnit::Waiting);
        }
        if self.windows.recv.first_credit() > 0 {
            return Some(NextUnit::FirstCredit);
        }
        if self.windows.recv.is_conn_due() {
            return Some(NextUnit::Credit);
        }
        if let Some(exchange) = self.next_due(flows) {
            return Some(NextUnit::StreamCredit(exchange));
        }
        let room = self.windows.send.conn_room();
        self.ready.next(self.framed_last, room)
    }

    // The least exchange whose stream is due a WINDOW_UPDATE and that nothing holds back.
    #[inline(always)]
    fn next_due(&mut self, flows: &WireFlows) -> Option<u64>
        ensures rest { self.new ≡ record self.old { credits = self.new.credits } }
        ensures readable { IfSome result (λ x. IsReadable flows.now (flow_id x (is_cluster self.old.peer))) }
        ensures go { conn_go self.new ≡ conn_go self.old }
    {
        let back = !self.is_client();
        while let Some(exchange) = self.credits.first() {
            if self.is_due(exchange) && flows.is_readable(FlowId { exchange, back }) {
                return Some(exchange);
            }
            self.credits.remove(exchange);
        }
        None
    }

    /// Whether something may be framed.
    pub fn may_frame(&mut self, flows: &WireFlows) -> bool
        ensures rest { self.new ≡ record self.old { credits = self.new.credits } }
        ensures go { conn_go self.new ≡ conn_go self.old }
    {
        self.may_write() && self.next_unit(flows).is_some()
    }
}
