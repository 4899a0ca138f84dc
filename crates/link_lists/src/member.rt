//! The members of the rings, and the only functions that read or write their links.
ghost use Rattle.std.specs.Prelude.{◌≡◌, ◌+◌, ⊤};
ghost use Rattle.link_lists.specs.Cells.{IsIn};
ghost use Rattle.link_lists.specs.Links.{next_to, prev_to, link_to, joined, inserted};

use crate::heap::{Heap, Place};
use crate::steps::Steps;
use std::alloc::Global;
use std::sync::ledger::Ledger;

/// A node of a ring, or the ring's end. `prev` and `next` are its link: the places before and after it in the ring.
#[derive(Drop)]
pub(crate) struct Member<T> {
    pub prev: Place,
    pub next: Place,
    /// `None` for the end of a ring.
    pub value: Option<T>,
}

/// One step: the link of what lies at `at`.
pub(crate) fn link<T, L: Ledger>(
    heap: &Heap<Member<T>, Global>,
    at: Place,
    steps: &mut Steps<L>,
) -> (Place, Place)
    requires { IsIn at.ptr heap.now.cells (λ _ _. ⊤) }
    ensures read { IsIn at.ptr heap.now.cells (λ _ n. (result.0 ≡ n.prev) × (result.1 ≡ n.next)) }
    ensures cost { steps.new ≡ steps.old + 1 }
{
    steps.tick();
    let member = heap.get(at);
    (member.prev, member.next)
}

/// One step: what comes after `at` becomes `to`.
pub(crate) fn set_next<T, L: Ledger>(
    heap: &mut Heap<Member<T>, Global>,
    at: Place,
    to: Place,
    steps: &mut Steps<L>,
)
    requires { IsIn at.ptr heap.old.cells (λ _ _. ⊤) }
    ensures written { heap.new.cells ≡ next_to at.ptr to.ptr heap.old.cells }
    ensures cost { steps.new ≡ steps.old + 1 }
{
    steps.tick();
    let member = heap.get_mut(at);
    member.next = to;
}

/// One step: what comes before `at` becomes `to`.
pub(crate) fn set_prev<T, L: Ledger>(
    heap: &mut Heap<Member<T>, Global>,
    at: Place,
    to: Place,
    steps: &mut Steps<L>,
)
    requires { IsIn at.ptr heap.old.cells (λ _ _. ⊤) }
    ensures written { heap.new.cells ≡ prev_to at.ptr to.ptr heap.old.cells }
    ensures cost { steps.new ≡ steps.old + 1 }
{
    steps.tick();
    let member = heap.get_mut(at);
    member.prev = to;
}

/// One step: the whole link of what lies at `at`.
pub(crate) fn set_link<T, L: Ledger>(
    heap: &mut Heap<Member<T>, Global>,
    at: Place,
    prev: Place,
    next: Place,
    steps: &mut Steps<L>,
)
    requires { IsIn at.ptr heap.old.cells (λ _ _. ⊤) }
    ensures written { heap.new.cells ≡ link_to at.ptr prev.ptr next.ptr heap.old.cells }
    ensures cost { steps.new ≡ steps.old + 1 }
{
    steps.tick();
    let member = heap.get_mut(at);
    member.prev = prev;
    member.next = next;
}

/// What lies on both sides of `at` becomes neighbours, in three steps.
pub(crate) fn unlink<T, L: Ledger>(
    heap: &mut Heap<Member<T>, Global>,
    at: Place,
    steps: &mut Steps<L>,
)
    requires { IsIn at.ptr heap.old.cells (λ _ n. IsIn n.prev.ptr heap.old.cells (λ _ _. ⊤) × IsIn n.next.ptr heap.old.cells (λ _ _. ⊤)) }
    ensures written { IsIn at.ptr heap.old.cells (λ _ n. heap.new.cells ≡ joined n.prev.ptr n.next.ptr heap.old.cells) }
    ensures cost { steps.new ≡ steps.old + 3 }
{
    let (prev, next) = link(heap, at, steps);
    set_next(heap, prev, next, steps);
    set_prev(heap, next, prev, steps);
}

/// `at` comes between `end` and what is before it, in four steps.
pub(crate) fn link_before<T, L: Ledger>(
    heap: &mut Heap<Member<T>, Global>,
    end: Place,
    at: Place,
    steps: &mut Steps<L>,
)
    requires at { IsIn at.ptr heap.old.cells (λ _ _. ⊤) }
    requires end { IsIn end.ptr heap.old.cells (λ _ n. IsIn n.prev.ptr heap.old.cells (λ _ _. ⊤)) }
    ensures written { IsIn end.ptr heap.old.cells (λ _ n. heap.new.cells ≡ inserted n.prev.ptr at.ptr end.ptr heap.old.cells) }
    ensures cost { steps.new ≡ steps.old + 4 }
{
    let (last, _) = link(heap, end, steps);
    set_next(heap, last, at, steps);
    set_link(heap, at, last, end, steps);
    set_prev(heap, end, at, steps);
}
