// What holds of chains, whatever is done to them.
ghost use Rattle.std.specs.Prelude.{◌≡◌, ◌≢◌, ◌+◌, ◌≤◌, ◌<◌, ◌++◌, ◌==◌, ℕ, Bool, List, [], drop, length, map, take, true, false, if◌then◌else◌};
ghost use Rattle.std.specs.Option.{option_map};
ghost use Rattle.filter_chain.specs.Chain.{Chain, octets_at, place_at, send_place};
ghost use Rattle.filter_chain.specs.Effects.{changed_at, framed, offered, on_the_way, released, ticked};
ghost use Rattle.filter_chain.specs.Place.{Place, is_hold};
ghost use Rattle.filter_chain.specs.Release.{head_may_go, is_whole_at};

/// A change of one place leaves the others, and all places where they are.
pub fn one_place_changes()
    ensures place { (f : Place → Place) (places : List Place) (p : ℕ) → place_at (changed_at f p places) p ≡ option_map f (place_at places p) }
    ensures others { (f : Place → Place) (places : List Place) (p q : ℕ) → q ≢ p → place_at (changed_at f p places) q ≡ place_at places q }
    ensures each { (f : Place → Place) (places : List Place) (p : ℕ) → place_at (map f places) p ≡ option_map f (place_at places p) }
    ensures count { (f : Place → Place) (places : List Place) (p : ℕ) → length (changed_at f p places) ≡ length places }
{}

/// What each place holds after octets came, were let go or were framed: the first n of one place stand
/// at the end of the next, and no other octet moves.
pub fn moves_leave_the_rest()
    ensures offered { (chain : Chain) (octets : List ℕ) (recv_empty : Bool) (q : ℕ) → 1 ≤ length chain.places
        → octets_at (offered chain octets recv_empty) q ≡ octets_at chain q ++ (if q == 1 then octets else []) }
    ensures released { (chain : Chain) (p n q : ℕ) → 1 ≤ p → p < length chain.places
        → octets_at (released chain p n) q ≡ (if q == p then drop n (octets_at chain q) else if q == p + 1 then octets_at chain q ++ take n (octets_at chain p) else octets_at chain q) }
    ensures framed { (chain : Chain) (n q : ℕ)
        → octets_at (framed chain n) q ≡ drop (if q == send_place chain then n else 0) (octets_at chain q) }
    ensures ticked { (chain : Chain) (now q : ℕ) → octets_at (ticked chain now) q ≡ octets_at chain q }
{}

/// No octet is lost, or overtakes another: what is on the way, in the order in which it goes, gets what
/// is offered at its end, is the same after a release, and loses what is framed at its front.
pub fn octets_keep_their_order()
    ensures offered { (chain : Chain) (octets : List ℕ) (recv_empty : Bool) → 1 ≤ length chain.places
        → on_the_way (offered chain octets recv_empty).places ≡ on_the_way chain.places ++ octets }
    ensures released { (chain : Chain) (p n : ℕ) → 1 ≤ p → p < length chain.places
        → on_the_way (released chain p n).places ≡ on_the_way chain.places }
    ensures framed { (chain : Chain) (n : ℕ)
        → take n (octets_at chain (send_place chain)) ++ on_the_way (framed chain n).places ≡ on_the_way chain.places }
{}

/// Two ticks do what the later one alone does. So a Meter's tokens are the same however the ticks fall,
/// and a chain may be told the time only where it is asked.
pub fn ticks_add_up()
    ensures { (chain : Chain) (now later : ℕ) → chain.started ≤ chain.time → chain.time ≤ now → now ≤ later
        → ticked (ticked chain now) later ≡ ticked chain later }
{}

/// A head waits exactly where there is a Hold to which the body hasn't come whole: the flow's end
/// hasn't come, or a place before the Hold isn't empty.
pub fn heads_wait_for_holds()
    ensures waits { (chain : Chain) (p : ℕ) (place : Place) → place_at chain.places p ≡ Some place → is_hold place.kind ≡ true
        → is_whole_at chain p ≡ false → head_may_go chain ≡ false }
    ensures goes { (chain : Chain) → ((p : ℕ) (place : Place) → place_at chain.places p ≡ Some place → is_hold place.kind ≡ true
        → is_whole_at chain p ≡ true) → head_may_go chain ≡ true }
{}
