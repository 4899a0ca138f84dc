// The watchers of a buffer, one after another.
ghost use Rattle.std.specs.Prelude.{◌≡◌, ◌==◌, ◌≤◌, [], IfSome, length};
ghost use Rattle.std.specs.Iterator.{YieldsFirst, item_count};
ghost use Rattle.std.specs.Map.{values_of};
ghost use Rattle.flow_gate.specs.Line.{live};

use crate::stands::{Stand, count, split_first};
use flow_rules::FlowId;
use std::marker::Model;

/// Watchers of a buffer, in the order in which they began to watch. Takes no memory.
#[derive(Drop)]
pub struct Watchers<'a> {
    /// Those that lie side by side.
    row: &'a [FlowId],
    /// Those after them, each on its stand.
    stands: &'a [Stand],
}

impl<'a> Model for Watchers<'a> {
    ghost use Rattle.std.specs.Prelude.{List, ◌++◌};
    ghost use Rattle.std.specs.Map.{values_of};
    ghost use Rattle.flow_gate.specs.Line.{live};
    ghost use Rattle.flow_rules.specs.declared.ids.FlowId.{FlowId};

    ghost Value = { List FlowId };

    ghost view = { λ a. a.row.now ++ values_of (live a.stands.now) };
}

impl<'a> Watchers<'a> {
    pub(crate) fn none() -> Self
        ensures { result ≡ [] }
    {
        Watchers {
            row: &[],
            stands: &[],
        }
    }

    pub(crate) fn of(stands: &'a [Stand]) -> Self
        ensures { result ≡ values_of (live stands.now) }
    {
        Watchers { row: &[], stands }
    }

    pub(crate) fn side_by_side(row: &'a [FlowId]) -> Self
        ensures { result ≡ row.now }
    {
        Watchers { row, stands: &[] }
    }

    /// The watchers to come as a slice, where they lie side by side: where no watcher left since the buffer last rose or
    /// drained, unless there was no memory for them.
    pub fn as_slice(&self) -> Option<&'a [FlowId]>
        ensures { IfSome result (λ flows. flows.now ≡ self.now) }
    {
        if self.stands.is_empty() {
            Some(self.row)
        } else {
            None
        }
    }

    /// How many watchers are to come. Goes through those that don't lie side by side.
    pub fn len(&self) -> usize
        ensures { result ≡ length self.now }
    {
        self.row.len() + count(self.stands)
    }

    /// Whether no watcher is to come.
    pub fn is_empty(&self) -> bool
        ensures { result ≡ (length self.now == 0) }
    {
        self.len() == 0
    }

    /// A number that is at least that of the watchers to come.
    pub fn most(&self) -> usize
        ensures { length self.now ≤ result }
    {
        self.row.len() + self.stands.len()
    }
}

impl<'a> Iterator for Watchers<'a> {
    type Item = FlowId;

    ghost next_gives = { YieldsFirst (λ flows. flows) };

    ghost remaining = { item_count (λ flows. flows) };

    fn next(&mut self) -> Option<FlowId> {
        if let Some((flow, later)) = self.row.split_first() {
            self.row = later;
            return Some(*flow);
        }
        let (flow, later) = split_first(self.stands);
        self.stands = later;
        flow
    }
}
