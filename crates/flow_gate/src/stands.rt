// The stands of a line: those between two places, the first of them, and one that its flow leaves.
ghost use Rattle.std.specs.Prelude.{◌≡◌, ◌<◌, ◌≤◌, ◌+◌, ◌/◌, if◌then◌else◌, drop, filter, length, nat_lt, slice_get, take};
ghost use Rattle.std.specs.BTreeMap.{is_at};
ghost use Rattle.std.specs.List.Sorted.{IsStrictlySortedBy};
ghost use Rattle.std.specs.Iterator.{YieldsFirst};
ghost use Rattle.std.specs.Map.{remove_entry, values_of};
ghost use Rattle.std.specs.Ordering.{nat_cmp};
ghost use Rattle.flow_gate.specs.Line.{IsBefore, between, is_between, is_taken, live, places_of};

use flow_rules::FlowId;

/// A place in a line, and the flow that stands there; none where it left.
#[derive(Clone, Copy)]
pub(crate) struct Stand {
    pub(crate) place: u64,
    pub(crate) flow: Option<FlowId>,
}

/// The stands at the places from one to before another.
pub(crate) fn between(stands: &[Stand], from: u64, to: u64) -> &[Stand]
    requires { IsStrictlySortedBy nat_cmp (places_of stands.now) }
    ensures { result.now ≡ filter (λ s. is_between from to s.place) stands.now }
{
    let (begin, len) = span(stands, from, to);
    &stands[begin..][..len]
}

/// How many stands lie before those at the places from one to before another, and how many these are.
pub(crate) fn span(stands: &[Stand], from: u64, to: u64) -> (usize, usize)
    requires { IsStrictlySortedBy nat_cmp (places_of stands.now) }
    ensures part { take result.1 (drop result.0 stands.now) ≡ filter (λ s. is_between from to s.place) stands.now }
    ensures within { result.0 + result.1 ≤ length stands.now }
{
    let begin = count_before(stands, from);
    (begin, count_before(&stands[begin..], to))
}

// How many stands lie before a place: all of them, or as many as there are places from the first, where no gap went, or
// what a search by halves finds.
fn count_before(stands: &[Stand], place: u64) -> usize
    requires { IsStrictlySortedBy nat_cmp (places_of stands.now) }
    ensures { IsBefore place result stands.now }
{
    let len = stands.len();
    if len == 0 || stands[len - 1].place < place {
        return len;
    }
    let steps = place.saturating_sub(stands[0].place) as usize;
    if steps < len && stands[steps].place == place {
        return steps;
    }
    stands.partition_point(|stand| stand.place < place)
}

/// The first flow, and its place.
pub(crate) fn first(stands: &[Stand]) -> Option<(u64, FlowId)>
    ensures { result ≡ slice_get (live stands.now) 0 }
{
    for stand in stands {
        if let Some(flow) = stand.flow {
            return Some((stand.place, flow));
        }
    }
    None
}

/// The first flow, and the stands after it.
pub(crate) fn split_first(stands: &[Stand]) -> (Option<FlowId>, &[Stand])
    ensures { YieldsFirst (λ ss. values_of (live ss)) stands.now result.0 result.1.now }
{
    let mut rest = stands;
    while let Some((stand, later)) = rest.split_first() {
        rest = later;
        if stand.flow.is_some() {
            return (stand.flow, rest);
        }
    }
    (None, rest)
}

/// How many flows stand there.
pub(crate) fn count(stands: &[Stand]) -> usize
    ensures { result ≡ length (live stands.now) }
{
    let mut flows = 0;
    for stand in stands {
        if stand.flow.is_some() {
            flows += 1;
        }
    }
    flows
}

/// The place from which on the flows between two places stand but for the first n of them, where so many flows stand in
/// all: if that is as many as there are stands, no flow is passed one by one.
pub(crate) fn place_after(stands: &[Stand], from: u64, to: u64, n: usize, standing: usize) -> u64
    requires rising { IsStrictlySortedBy nat_cmp (places_of stands.now) }
    requires forward { from ≤ to }
    requires counted { standing ≡ length (live stands.now) }
    ensures rest { between result to (live stands.now) ≡ drop n (between from to (live stands.now)) }
    ensures forward { result ≤ to }
{
    if standing == stands.len() {
        return place_of(stands, from, to, n);
    }
    let mut left = n;
    for stand in between(stands, from, to) {
        if left == 0 {
            return stand.place;
        }
        if stand.flow.is_some() {
            left -= 1;
        }
    }
    to
}

// The same where a flow stands on each stand: the place of the n-th of them.
fn place_of(stands: &[Stand], from: u64, to: u64, n: usize) -> u64
    requires rising { IsStrictlySortedBy nat_cmp (places_of stands.now) }
    requires forward { from ≤ to }
    requires full { length (live stands.now) ≡ length stands.now }
    ensures rest { between result to (live stands.now) ≡ drop n (between from to (live stands.now)) }
    ensures forward { result ≤ to }
{
    let part = between(stands, from, to);
    if n < part.len() { part[n].place } else { to }
}

/// The flow at a place leaves; whether one stood there.
pub(crate) fn leave(stands: &mut [Stand], place: u64) -> bool
    requires { IsStrictlySortedBy nat_cmp (places_of stands.old) }
    ensures flows { live stands.new ≡ remove_entry (is_at (nat_cmp place)) (live stands.old) }
    ensures places { places_of stands.new ≡ places_of stands.old }
    ensures count { length (live stands.new) + (if result then 1 else 0) ≡ length (live stands.old) }
{
    let i = count_before(stands, place);
    if i < stands.len() && stands[i].place == place && stands[i].flow.is_some() {
        stands[i].flow = None;
        return true;
    }
    false
}

/// Drops the gaps, where they are more than the flows.
pub(crate) fn close_up(stands: &mut Vec<Stand>, standing: usize)
    ensures { stands.new.items ≡ (if nat_lt standing (length stands.old.items / 2) then filter is_taken stands.old.items else stands.old.items) }
{
    if standing < stands.len() / 2 {
        stands.retain(|stand| stand.flow.is_some());
    }
}
