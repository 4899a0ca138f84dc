//! The load that the exchanges of a worker make, and what it asks for.
ghost use Rattle.std.specs.Prelude.{◌≡◌, ◌≤◌, ◌<◌, [], ◌∷◌, ⊤, IfOk, MatchOption, OnErr, OnOk, ◌==◌, ℕ, Bool, false, cond, List};
ghost use Rattle.std.specs.List.{AllPairs};
ghost use Rattle.overload_core.specs.ActionStates.{actions_at, is_saturated, AreStates};
ghost use Rattle.wire_load.specs.Action.{state_of};
ghost use Rattle.wire_load.specs.Load.{unloaded, with_touched, settled, dropped, reset_next, Loading};
ghost use Rattle.overload_core.specs.Course.{Holding, newest, Ends};
ghost use Rattle.wire_load.specs.Following.{ended, Follows, NextIsDue};

use io_ports::NoMemory;
use link_lists::Steps;
use number_set::NumberMap;
use overload_core::{
    Actions, Classes, action_states, class_has_number, classes_follow, is_saturated, next_is_due,
};
use proxy_config::Config;
use std::alloc::Global;
use std::marker::{Brand, Model};
use std::sync::ledger::{Blank, Ledger};

/// What a worker does under load.
#[derive(Clone, Copy, PartialEq, Eq)]
pub enum Action {
    /// Requests are refused where saturated.
    StopRequests,
    /// No connection is taken where saturated.
    StopAccepting,
    /// Connections are closed as they come where saturated.
    RejectIncoming,
    /// Connections of clients are drained where saturated.
    NoKeepalive,
    /// Timers are scaled.
    ReduceTimeouts,
    /// Exchanges are reset, those that hold most first.
    ResetStreams,
}

/// The states of the six overload actions, the exchanges by memory class, and the exchanges that this dispatch touched.
///
/// Seen as the actions, the classes, and the numbers of the touched exchanges in rising order. An exchange is touched by what
/// changes the octets that it holds, or shows that it goes on. What a call costs doesn't grow with what it isn't about.
#[derive(Drop)]
pub struct Load {
    actions: Actions,
    classes: Classes,
    touched: NumberMap<()>,
}

impl Model for Load {
    ghost use Rattle.std.specs.Map.{keys_of};
    ghost use Rattle.wire_load.specs.Load.{IsKept, Loading};

    ghost Value = { Loading };

    ghost view = { λ l. record { actions = l.actions; accounts = l.classes; touched = keys_of l.touched } };

    ghost invariant = { IsKept };
}

impl Load {
    /// Every action is off, no exchange has a class, and none is touched. Class 1 starts at 2^`class_start` octets.
    pub fn new(alloc: Global, class_start: u32) -> Result<Load, NoMemory>
        requires { class_start ≤ 40 }
        ensures { IfOk result (λ made. made ≡ unloaded class_start) }
    {
        Ok(Load {
            actions: Actions::off(),
            classes: Classes::new(alloc, class_start)?,
            touched: NumberMap::new(alloc),
        })
    }

    /// From now on the actions have the states that the configuration's triggers give at these pressures, in parts per
    /// million, one for each of its resources.
    pub fn obey(&mut self, config: &Config, pressures: &[u32])
        ensures { self.new ≡ record self.old { actions = actions_at config.now.overload.triggers pressures.now } }
    {
        self.actions = action_states(config, pressures);
    }

    /// The states of the actions, in parts per million: those of the pressures that were obeyed last, and 0 before the first.
    pub fn actions(&self) -> Actions
        ensures actions { result ≡ self.now.actions }
        ensures states { AreStates result }
    {
        self.actions
    }

    /// The state of one action, in parts per million.
    pub fn state(&self, action: Action) -> u32
        ensures state { result ≡ state_of self.now.actions action }
        ensures most { result ≤ 1000000 }
    {
        match action {
            Action::StopRequests => self.actions.stop_requests,
            Action::StopAccepting => self.actions.stop_accepting,
            Action::RejectIncoming => self.actions.reject_incoming,
            Action::NoKeepalive => self.actions.no_keepalive,
            Action::ReduceTimeouts => self.actions.reduce_timeouts,
            Action::ResetStreams => self.actions.reset_streams,
        }
    }

    /// Whether the action is saturated: its state is 1,000,000.
    pub fn is_saturated(&self, action: Action) -> bool
        ensures { result ≡ is_saturated (state_of self.now.actions action) }
    {
        is_saturated(self.state(action))
    }

    /// The state under which timers run, in parts per million.
    pub fn timeouts_state(&self) -> u32
        ensures state { result ≡ self.now.actions.reduce_timeouts }
        ensures most { result ≤ 1000000 }
    {
        self.actions.reduce_timeouts
    }

    /// This dispatch touches the exchange. One that it has touched before stays where it is.
    #[inline(always)]
    pub fn touch(&mut self, exchange: u64) -> Result<(), NoMemory>
        ensures ok { OnOk result (self.new ≡ with_touched exchange self.old) }
        ensures err { OnErr result (self.new ≡ self.old) }
        ensures rising { AllPairs (λ x y. x < y) self.new.touched }
    {
        self.touched.insert(exchange, ())?;
        Ok(())
    }

    /// Takes out the touched exchange with the least number. None where no exchange is touched.
    pub fn take_touched(&mut self) -> Option<u64>
        ensures none { MatchOption result ((self.old.touched ≡ []) × (self.new ≡ self.old)) (λ _. ⊤) }
        ensures some { MatchOption result ⊤ (λ x. self.old ≡ record self.new { touched = x ∷ self.new.touched }) }
        ensures rising { AllPairs (λ x y. x < y) self.new.touched }
    {
        let (exchange, _) = self.touched.pop_first()?;
        Some(exchange)
    }

    fn settle_as<L: Ledger>(
        &mut self,
        exchange: u64,
        octets: u64,
        blank: Blank,
    ) -> Result<(), NoMemory>
        requires { (blank.name ≡ L.name) × (blank.parts ≡ L.parts) × (0 < L.parts) }
        ensures ok { OnOk result (self.new ≡ settled exchange octets self.old) }
        ensures err { OnErr result (self.new ≡ self.old) }
    {
        class_has_number();
        let mut steps = Steps::<L>::open(blank);
        self.classes.set(exchange, octets, &mut steps)
    }

    /// The exchange holds so many octets at the end of this dispatch, and gets its memory class by them. Where its class
    /// changes it comes last in the new one, and else it keeps its place.
    pub fn settle(&mut self, exchange: u64, octets: u64) -> Result<(), NoMemory>
        ensures ok { OnOk result (self.new ≡ settled exchange octets self.old) }
        ensures err { OnErr result (self.new ≡ self.old) }
    {
        self.settle_as::<Brand>(exchange, octets, Blank::new(1))
    }

    /// The exchange is gone: it leaves its class, and isn't touched. Where it is neither kept nor touched, nothing changes.
    pub fn drop_one(&mut self, exchange: u64)
        ensures dropped { self.new ≡ dropped exchange self.old }
        ensures rising { AllPairs (λ x y. x < y) self.new.touched }
    {
        self.classes.drop_one(exchange);
        self.touched.remove(exchange);
    }

    /// The exchange that is reset next under the state of `ResetStreams`: of the greatest class that the state clears and
    /// that has one, the exchange that came into it first. None where the state is 0, or clears no exchange.
    pub fn next_reset(&self) -> Option<u64>
        ensures { result ≡ reset_next self.now }
    {
        self.classes.to_reset(self.actions.reset_streams)
    }
}

/// A load that is new, from which each exchange is dropped when it is gone, and in which at the end of each dispatch every
/// touched exchange is taken out and settled with what it holds, follows the course of the dispatches: its classes are those
/// of the newest end, and the next reset is the live exchange of the greatest class that the state clears, of these the one that
/// came into its class at the earliest end, and of these the one with the least number.
///
/// `steps` says that the end of a dispatch, which `ends` speaks of, is `take_touched` and `settle` in turn.
pub fn load_follows()
    ensures begins { (start : ℕ) (live : ℕ → Bool) → Follows [] live (unloaded start) }
    ensures starts { (ends : List Holding) (live alive : ℕ → Bool) (l : Loading) → Follows ends live l → ((e : ℕ) → 0 < newest ends e → alive e ≡ live e) → Follows ends alive l }
    ensures drops { (ends : List Holding) (live alive : ℕ → Bool) (l : Loading) (e : ℕ) → Follows ends live l → ((x : ℕ) → alive x ≡ cond (x == e) false (live x)) → Follows ends alive (dropped e l) }
    ensures ends { (ends : List Holding) (live alive : ℕ → Bool) (held : Holding) (l : Loading) → Follows ends live l → Ends ends live l.touched held alive → Follows (held ∷ ends) alive (ended held l) }
    ensures steps { (held : Holding) (l : Loading) (x : ℕ) → ended held (record l { touched = x ∷ l.touched }) ≡ ended held (settled x (held x) l) }
    ensures at_end { (held : Holding) (l : Loading) → l.touched ≡ [] → ended held l ≡ l }
    ensures next { (ends : List Holding) (live : ℕ → Bool) (l : Loading) → Follows ends live l → NextIsDue ends live l }
{
    classes_follow();
    next_is_due();
}
