//! The tokens of the armed timers. `scaled_timer` gives one for each timer, and wants each back.
ghost use Rattle.std.specs.Prelude.{◌≡◌, ◌<◌, ◌+◌, [], cond, if◌then◌else◌, true, IfSome, IsSome, MatchOption, None, OnErr, OnOk, Some, is_some, ⊤, ℕ};
ghost use Rattle.link_lists.specs.Lists.{contains_id, without_id};
ghost use Rattle.paged_map.specs.PagedMap.{value_at};
ghost use Rattle.scaled_timer.specs.Timing.{IsHeld, has_timer, without_timer};
ghost use Rattle.wire_timers.specs.Held.{Found, HasPlace, Key, Spent, find_in, places, places_of, same_key};

use io_ports::NoMemory;
use link_lists::Steps;
use paged_map::PagedMap;
use scaled_timer::{Fired, Timer, Timers};
use std::alloc::Global;
use std::marker::Brand;
use std::mem::{self, ManuallyDrop};
use std::sync::ledger::{Blank, Ledger};

/// A place for a token. It is made before its timer is armed, so that arming needs no memory of the map any more, and is blank
/// until then.
///
/// A token can't be dropped, and a map may drop what it holds; so a place holds it in a `ManuallyDrop`. None is lost: each
/// token in a map is that of a timer that is armed or has fired, and goes back to `scaled_timer` once it is taken out.
type Place = Option<ManuallyDrop<Timer>>;

/// The token of each armed timer, by the number of its kind and by what it is for. Exchanges and connections have numbers
/// that rise each for themselves, so each kind has pages of its own.
pub(crate) struct Tokens {
    by_kind: [PagedMap<u64, Place>; 3],
}

impl Tokens {
    /// No tokens. Takes no memory.
    pub(crate) fn new(alloc: Global) -> Tokens
        ensures { (q : Key) → find_in result q ≡ None }
    {
        Tokens {
            by_kind: [
                PagedMap::new(alloc),
                PagedMap::new(alloc),
                PagedMap::new(alloc),
            ],
        }
    }

    /// Whether there is a token for the kind and the number.
    pub(crate) fn has(&self, kind: u32, id: u64) -> bool
        requires { kind < 3 }
        ensures { result ≡ is_some (find_in self.now (kind, id)) }
    {
        match self.by_kind[kind as usize].get(&id) {
            Some(place) => place.is_some(),
            None => false,
        }
    }

    /// Makes a place for the kind and the number, where there is none; all tokens stay where they are.
    #[inline(always)]
    pub(crate) fn reserve(&mut self, kind: u32, id: u64) -> Result<(), NoMemory>
        requires { kind < 3 }
        ensures place { OnOk result (HasPlace kind id self.new) }
        ensures same { (q : Key) → find_in self.new q ≡ find_in self.old q }
    {
        if !self.by_kind[kind as usize].contains_key(&id) {
            self.by_kind[kind as usize].put(id, None)?;
        }
        Ok(())
    }

    /// Puts a token into its place, and answers the one that was there.
    #[inline(always)]
    pub(crate) fn put(&mut self, kind: u32, id: u64, timer: Timer) -> Option<Timer>
        requires kind { kind < 3 }
        requires place { HasPlace kind id self.old }
        ensures old { result ≡ find_in self.old (kind, id) }
        ensures new { (q : Key) → find_in self.new q ≡ cond (same_key (kind, id) q) (Some timer) (find_in self.old q) }
    {
        // It is consumed by who gets it from `put` or `take`.
        let token = unsafe { ManuallyDrop::new_unchecked(timer) };
        let Some(place) = self.by_kind[kind as usize].get_mut(&id) else {
            unreachable!();
        };
        match mem::replace(place, Some(token)) {
            Some(before) => Some(ManuallyDrop::into_inner(before)),
            None => None,
        }
    }

    /// Takes out the token of the kind and the number, if there is one, and its place with it.
    #[inline(always)]
    pub(crate) fn take(&mut self, kind: u32, id: u64) -> Option<Timer>
        requires { kind < 3 }
        ensures old { result ≡ find_in self.old (kind, id) }
        ensures new { (q : Key) → find_in self.new q ≡ cond (same_key (kind, id) q) None (find_in self.old q) }
        ensures fewer { HasPlace kind id self.old → places self.new + 1 ≡ places self.old }
    {
        match self.by_kind[kind as usize].remove(&id) {
            Some(Some(token)) => Some(ManuallyDrop::into_inner(token)),
            _ => None,
        }
    }

    /// The kind and the number of a place. None only where there is none.
    fn any_place(&self) -> Option<(u32, u64)>
        ensures none { MatchOption result ((kind : ℕ) → kind < 3 → (places_of self.now kind).entries ≡ []) (λ _. ⊤) }
        ensures some { IfSome result (λ key. (key.0 < 3) × HasPlace key.0 key.1 self.now) }
    {
        for kind in 0..3 {
            if let Some(id) = first(&self.by_kind[kind as usize]) {
                return Some((kind, id));
            }
        }
        None
    }

    /// Ends the maps, which hold no token any more.
    fn end(self)
        requires { (kind : ℕ) → kind < 3 → (places_of self kind).entries ≡ [] }
    {
        let Tokens { by_kind: _ } = self;
    }
}

/// The least number that has a place. None only where none has one.
fn first(map: &PagedMap<u64, Place>) -> Option<u64>
    ensures none { MatchOption result (map.now.entries ≡ []) (λ _. ⊤) }
    ensures some { IfSome result (λ id. IsSome (value_at id map.now)) }
{
    if map.contains_key(&0) {
        return Some(0);
    }
    map.next_above(0)
}

fn give_back_as<L: Ledger>(timers: &mut Timers, timer: Timer, blank: Blank)
    requires ledger { (blank.name ≡ L.name) × (blank.parts ≡ L.parts) × (0 < L.parts) }
    requires held { IsHeld timer timers.old }
    ensures armed { has_timer timer timers.old.armed ≡ true → timers.new ≡ record timers.old { armed = without_timer timer timers.old.armed } }
    ensures fired { contains_id timer timers.old.fired ≡ true → timers.new ≡ record timers.old { fired = without_id timer timers.old.fired } }
{
    let mut steps = Steps::<L>::open(blank);
    timers.disarm(timer, &mut steps);
}

/// Gives one token back: an armed timer fires no more, and for one that has fired nothing else changes.
pub(crate) fn give_back(timers: &mut Timers, timer: Timer)
    requires { IsHeld timer timers.old }
    ensures armed { has_timer timer timers.old.armed ≡ true → timers.new ≡ record timers.old { armed = without_timer timer timers.old.armed } }
    ensures fired { contains_id timer timers.old.fired ≡ true → timers.new ≡ record timers.old { fired = without_id timer timers.old.fired } }
{
    give_back_as::<Brand>(timers, timer, Blank::new(1));
}

/// Gives the tokens of the timers that have fired back.
pub(crate) fn give_back_fired(tokens: &mut Tokens, timers: &mut Timers, fired: &[Fired])
    requires { Spent (find_in tokens.old) timers.old fired.now }
    ensures found { Found (find_in tokens.new) timers.new.armed }
    ensures timers { timers.new ≡ record timers.old { fired = [] } }
{
    for timer in fired {
        if let Some(token) = tokens.take(timer.kind, timer.id) {
            give_back(timers, token);
        }
    }
}

/// Gives every token back.
pub(crate) fn give_back_all(mut tokens: Tokens, mut timers: Timers)
    requires fired { timers.fired ≡ [] }
    requires found { Found (find_in tokens) timers.armed }
{
    while let Some((kind, id)) = tokens.any_place() {
        if let Some(token) = tokens.take(kind, id) {
            give_back(&mut timers, token);
        }
    }
    tokens.end();
}
