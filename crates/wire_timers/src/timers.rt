//! The armed timers of a worker, by kind and by what each is for.
ghost use Rattle.std.specs.Prelude.{◌≡◌, ◌<◌, ◌≤◌, ◌^◌, IfOk, OnErr, OnOk};
ghost use Rattle.proxy_config.specs.Ranges.{AreTimeouts};
ghost use Rattle.wire_timers.specs.Armed.{none_armed, is_armed, armed_anew, disarmed, gone};
ghost use Rattle.wire_timers.specs.Due.{due_list, due_taken};
ghost use Rattle.wire_timers.specs.Kinds.{HasSpans};

use crate::due::DueList;
use crate::spans::{number, spans};
use crate::tokens::{Tokens, give_back, give_back_all, give_back_fired};
use flow_rules::FireKind;
use io_ports::NoMemory;
use proxy_config::Config;
use scaled_timer::{TimerKind, Timers};
use std::alloc::Global;
use std::marker::Model;

/// Timers of three kinds: `Route` and `StreamIdle` for exchanges, and `ConnectionIdle` for connections. At most one of each
/// kind is armed for each of them.
///
/// Seen as the kinds with their lengths, the state under which timers run, the latest moment that was told, and the armed timers in
/// the order of arming. Under the state 0 a timer of the kind `Route` runs for `route` milliseconds, of `StreamIdle` for
/// `stream_idle` and of `ConnectionIdle` for `connection_idle`; under 1,000,000 those of the last two run for `stream_idle_min` and
/// `connection_idle_min`. A kind whose length is 0 isn't armed.
///
/// Moments are in milliseconds. Each is at least those told before, and below 2^60. What a call costs doesn't grow with the
/// timers that it isn't about.
pub struct WireTimers {
    kinds: [TimerKind; 3],
    timers: Timers,
    tokens: Tokens,
}

impl Model for WireTimers {
    ghost use Rattle.wire_timers.specs.Armed.{Timeouts};

    ghost Value = { Timeouts };

    ghost use Rattle.wire_timers.specs.Held.{Held, find_in, seen};

    ghost view = { λ w. seen w.timers };

    ghost invariant = { λ w. Held w.kinds (find_in w.tokens) w.timers };
}

impl WireTimers {
    /// No armed timer, under the state 0, with the lengths of the configuration's table `timeouts`. Refused only for lack of
    /// memory.
    pub fn new(alloc: Global, config: &Config) -> Result<WireTimers, NoMemory>
        requires { AreTimeouts config.now.timeouts }
        ensures none { IfOk result (λ made. made ≡ none_armed made.kinds) }
        ensures kinds { IfOk result (λ made. HasSpans config.now.timeouts made.kinds) }
    {
        let kinds = spans(&config.timeouts);
        Ok(WireTimers {
            kinds,
            timers: Timers::new(alloc, &kinds)?,
            tokens: Tokens::new(alloc),
        })
    }

    /// Arms the timer of this kind for the exchange or the connection. One that is armed already is armed anew, and so last in
    /// the order of arming. Where the kind's length is 0 nothing changes. After running out of memory nothing has changed.
    pub fn arm(&mut self, kind: FireKind, id: u64, now: u64) -> Result<(), NoMemory>
        requires later { self.old.latest ≤ now }
        requires now { now < 2 ^ 60 }
        ensures ok { OnOk result (self.new ≡ armed_anew kind id now self.old) }
        ensures err { OnErr result (self.new ≡ self.old) }
    {
        let number = number(kind);
        if self.kinds[number as usize].max == 0 {
            return Ok(());
        }
        self.tokens.reserve(number, id)?;
        let timer = self.timers.arm(number, id, now)?;
        if let Some(before) = self.tokens.put(number, id, timer) {
            give_back(&mut self.timers, before);
        }
        Ok(())
    }

    /// The timer of this kind is no longer armed for the exchange or the connection. Where it isn't armed nothing changes.
    pub fn disarm(&mut self, kind: FireKind, id: u64)
        ensures { self.new ≡ disarmed kind id self.old }
    {
        if let Some(timer) = self.tokens.take(number(kind), id) {
            give_back(&mut self.timers, timer);
        }
    }

    /// Whether the timer of this kind is armed for the exchange or the connection.
    pub fn is_armed(&self, kind: FireKind, id: u64) -> bool
        ensures { result ≡ is_armed kind id self.now }
    {
        self.tokens.has(number(kind), id)
    }

    /// The exchange is gone, and both of its timers with it.
    pub fn drop_exchange(&mut self, exchange: u64)
        ensures { self.new ≡ gone exchange self.old }
    {
        self.disarm(FireKind::Route, exchange);
        self.disarm(FireKind::StreamIdle, exchange);
    }

    /// From now on all timers, also those that are armed, run under this state, in parts per million.
    pub fn set_state(&mut self, ppm: u32)
        requires { ppm ≤ 1000000 }
        ensures { self.new ≡ record self.old { state = ppm } }
    {
        self.timers.set_state(ppm);
    }

    /// Takes out the timers that are due, by due moment and then by arming. After running out of memory nothing has changed.
    pub fn take_due(&mut self, now: u64) -> Result<DueList, NoMemory>
        requires later { self.old.latest ≤ now }
        requires now { now < 2 ^ 60 }
        ensures due { IfOk result (λ due. due ≡ due_list now self.old) }
        ensures left { OnOk result (self.new ≡ due_taken now self.old) }
        ensures err { OnErr result (self.new ≡ self.old) }
    {
        let fired = self.timers.turn(now)?;
        give_back_fired(&mut self.tokens, &mut self.timers, fired.as_slice());
        Ok(DueList::of(fired))
    }
}

impl Drop for WireTimers {
    fn drop(self) {
        let WireTimers {
            kinds: _,
            timers,
            tokens,
        } = self;
        give_back_all(tokens, timers);
    }
}
