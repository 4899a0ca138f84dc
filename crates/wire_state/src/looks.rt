// What may be framed at a connection is looked up.
ghost use Rattle.std.specs.Prelude.{◌≡◌, ◌≤◌, OnOk, length};
ghost use Rattle.wire_state.specs.Progress.{conn_go, to_go};
ghost use Rattle.wire_state.specs.Sound.{IsSound};
ghost use Rattle.wire_state.specs.Worlds.{Keeps};

use crate::conn::Conn;
use crate::course::Course;
use crate::stirred::Stirred;
use crate::wire_core::WireCore;
use flow_gate::FlowId;
use io_ports::NoMemory;
use wire_flows::WireFlows;

impl WireCore {
    /// Whether something may be framed at a connection. Where nothing may it is calm, unless it is draining.
    pub fn may_frame(&mut self, number: u32) -> bool
        requires sound { IsSound self.old }
        ensures sound { IsSound self.new }
        ensures go { to_go self.new ≡ to_go self.old }
        ensures rest { self.new ≡ record self.old { conns = self.new.conns; stirred = self.new.stirred } }
        ensures octets { Keeps self.old self.new }
    {
        match self.conns.get_mut(&number) {
            Some(conn) => has_unit(conn, &self.flows, &mut self.stirred, number),
            None => false,
        }
    }

    /// Nothing holds the flow back any more: where its stream is due a WINDOW_UPDATE, that may be framed.
    pub fn look_due(&mut self, course: Course) -> Result<(), NoMemory>
        requires sound { IsSound self.old }
        ensures sound { OnOk result (IsSound self.new) }
        ensures go { to_go self.new ≤ to_go self.old }
        ensures rest { self.new ≡ record self.old { conns = self.new.conns } }
        ensures octets { Keeps self.old self.new }
    {
        match course.from {
            Some(from) => self.look_due_at(from, course.flow.exchange),
            None => Ok(()),
        }
    }

    fn look_due_at(&mut self, number: u32, exchange: u64) -> Result<(), NoMemory>
        requires sound { IsSound self.old }
        ensures sound { OnOk result (IsSound self.new) }
        ensures go { to_go self.new ≤ to_go self.old }
        ensures rest { self.new ≡ record self.old { conns = self.new.conns } }
        ensures octets { Keeps self.old self.new }
    {
        match self.conns.get_mut(&number) {
            Some(conn) => conn.look_due(exchange),
            None => Ok(()),
        }
    }

    /// Looks up what goes next of a flow of a live exchange, for the connection that it goes to.
    pub fn refresh(&mut self, course: Course) -> Result<(), NoMemory>
        requires sound { IsSound self.old }
        ensures sound { OnOk result (IsSound self.new) }
        ensures go { to_go self.new ≤ to_go self.old }
        ensures rest { self.new ≡ record self.old { conns = self.new.conns } }
        ensures octets { Keeps self.old self.new }
    {
        match course.to {
            Some(to) => self.refresh_at(to, course.flow),
            None => Ok(()),
        }
    }

    fn refresh_at(&mut self, number: u32, flow: FlowId) -> Result<(), NoMemory>
        requires sound { IsSound self.old }
        ensures sound { OnOk result (IsSound self.new) }
        ensures go { to_go self.new ≤ to_go self.old }
        ensures rest { self.new ≡ record self.old { conns = self.new.conns } }
        ensures octets { Keeps self.old self.new }
    {
        match self.conns.get_mut(&number) {
            Some(conn) => conn.refresh(&self.flows, flow),
            None => Ok(()),
        }
    }
}

// Whether something may be framed at this connection. Where nothing may it is calm, unless it is draining: then it may be closed.
#[inline(always)]
fn has_unit(conn: &mut Conn, flows: &WireFlows, stirred: &mut Stirred, number: u32) -> bool
    ensures rest { conn.new ≡ record conn.old { credits = conn.new.credits } }
    ensures go { conn_go conn.new ≡ conn_go conn.old }
    ensures stirred { length stirred.new.conns.items ≡ length stirred.old.conns.items }
{
    if conn.may_frame(flows) {
        return true;
    }
    if conn.draining.is_none() {
        stirred.calm_down(number);
    }
    false
}
