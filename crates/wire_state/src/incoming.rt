// What comes in on a connection.
ghost use Rattle.std.specs.Prelude.{◌≡◌, ◌≤◌, ◌<◌, IfOk};
ghost use Rattle.wire_inlet.specs.Next.{intake_of};
ghost use Rattle.wire_state.specs.Intakes.{PaysFor};
ghost use Rattle.wire_state.specs.Progress.{conn_go};

use crate::conn::Conn;
use flow_gate::FlowId;
use h2_windows::{MAX_WINDOW, Overflow};
use io_ports::{NoMemory, Octets};
use wire_flows::WireFlows;
use wire_inlet::{Front, Taken};

impl Conn {
    /// Octets came. The answer is false where the connection isn't open: then they are dropped.
    pub fn read(&mut self, octets: &Octets) -> Result<bool, NoMemory>
        ensures rest { self.new ≡ record self.old { inlet = self.new.inlet } }
    {
        if !self.open {
            return Ok(false);
        }
        self.inlet.push(octets)?;
        Ok(true)
    }

    /// What stands at the front of the octets that aren't read, where frames have at most `max` octets of payload: nothing where
    /// the connection is closed. A frame that is taken is put into `into`.
    #[inline(always)]
    pub fn take_frame(&mut self, max: u32, into: &mut Taken) -> Result<Front, NoMemory>
        ensures rest { self.new ≡ record self.old { inlet = self.new.inlet } }
        ensures go { IfOk result (λ front. PaysFor (intake_of front into.new) (conn_go self.old) (conn_go self.new)) }
    {
        if !self.open {
            return Ok(Front::Need);
        }
        self.inlet.next_into(max, into)
    }

    /// The last head on a stream was an interim one.
    pub fn interim(&mut self, stream: u32)
        ensures rest { self.new ≡ record self.old { inlet = self.new.inlet } }
        ensures go { conn_go self.new ≤ conn_go self.old }
    {
        self.inlet.interim(stream);
    }

    /// Where the connection is draining, the stream is closed, and the answer is true.
    pub fn ignores(&mut self, stream: u32) -> bool
        ensures rest { self.new ≡ record self.old { inlet = self.new.inlet } }
        ensures go { conn_go self.new ≤ conn_go self.old }
    {
        if self.draining.is_none() {
            return false;
        }
        self.inlet.close_stream(stream);
        true
    }

    /// The peer of a cluster's connection leaves. The answer is false for a client's.
    pub fn peer_leaves(&mut self, last: u32) -> bool
        ensures rest { self.new ≡ record self.old { draining = self.new.draining } }
        ensures go { conn_go self.new ≤ conn_go self.old }
    {
        if self.is_client() {
            return false;
        }
        self.draining = Some(self.draining.unwrap_or(last));
        true
    }

    /// The peer grants n octets more on the stream of an exchange.
    pub fn widen(&mut self, exchange: u64, n: u32) -> Result<(), Overflow>
        ensures rest { self.new ≡ record self.old { windows = self.new.windows } }
        ensures go { conn_go self.new ≤ conn_go self.old }
    {
        self.windows.send.widen(exchange, n)
    }

    /// The peer grants n octets more on the connection.
    pub fn widen_conn(&mut self, n: u32) -> Result<(), Overflow>
        ensures rest { self.new ≡ record self.old { windows = self.new.windows } }
        ensures go { conn_go self.new ≤ conn_go self.old }
    {
        self.windows.send.widen_conn(n)
    }

    /// The peer takes frames with so much payload.
    pub fn set_payload(&mut self, payload: u32)
        ensures rest { self.new ≡ record self.old { windows = self.new.windows } }
        ensures go { conn_go self.new ≤ conn_go self.old }
    {
        self.windows.send.set_payload(payload);
    }

    /// The peer's initial window of a stream changes, first to `greatest` and then to `last`. The answer is false where a window
    /// would be too large.
    pub fn set_initial(&mut self, greatest: u32, last: u32) -> bool
        ensures rest { self.new ≡ record self.old { windows = self.new.windows } }
        ensures go { conn_go self.new ≤ conn_go self.old }
    {
        if last > greatest || greatest > MAX_WINDOW {
            return false;
        }
        self.windows.send.set_initial(greatest, last).is_ok()
    }

    /// The peer named a size for the table of its decoder.
    pub fn table_size_named(&mut self)
        ensures same { self.new.outlet.write ≡ self.old.outlet.write }
        ensures waiting { self.new.outlet.waiting ≡ self.old.outlet.waiting }
        ensures rest { self.new ≡ record self.old { outlet = self.new.outlet } }
        ensures go { conn_go self.new ≤ conn_go self.old }
    {
        self.outlet.table_size_named();
    }

    /// Counts a reset by a client. The answer is whether there were more than `most` and one for each exchange that was done.
    pub fn was_reset(&mut self, most: u32) -> bool
        ensures rest { self.new ≡ record self.old { peer_resets = self.new.peer_resets } }
        ensures go { conn_go self.new ≤ conn_go self.old }
    {
        self.peer_resets = self.peer_resets.saturating_add(1);
        self.peer_resets > most.saturating_add(self.done)
    }

    /// Looks up what goes next of a flow that goes here.
    pub fn refresh(&mut self, flows: &WireFlows, flow: FlowId) -> Result<(), NoMemory>
        ensures rest { self.new ≡ record self.old { ready = self.new.ready } }
        ensures go { conn_go self.new ≤ conn_go self.old }
    {
        let send = &self.windows.send;
        let room = send.room(flow.exchange).unwrap_or(0);
        match flows.unit_of(flow, room, send.payload()) {
            Some(unit) => self.ready.set(flow.exchange, unit, room),
            None => Ok(()),
        }
    }

    /// Looks up what goes next of the flows that go here, where the peer's initial window of a stream was `before`: of those that
    /// their streams' windows held where it grew, of those with octets where it shrank, and of none where it is the same.
    pub fn refresh_windowed(&mut self, flows: &WireFlows, before: u32) -> Result<(), NoMemory>
        ensures rest { self.new ≡ record self.old { ready = self.new.ready } }
        ensures go { conn_go self.new ≤ conn_go self.old }
    {
        let initial = self.windows.send.initial();
        if initial == before {
            return Ok(());
        }
        let grew = initial > before;
        let back = self.is_client();
        let mut after = 0;
        for _place in 0..self.ready.windowed(grew).len() {
            let Some(exchange) = self.ready.windowed(grew).next_above(after) else {
                return Ok(());
            };
            self.refresh(flows, FlowId { exchange, back })?;
            after = exchange;
        }
        Ok(())
    }
}
