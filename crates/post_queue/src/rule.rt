// The rule over the queue and all passes, and each kind of step.
use crate::hand::Hand;
use crate::posts::Post;
use crossbeam_queue::protocol::{Join, Lesson, Outcome, Protocol, Split};

/// The rule of the box: what was run and what the queue holds are, of each poster, what it posted, in order.
pub struct InOrder;

impl Protocol<Post, Hand> for InOrder {
    ghost use Rattle.post_queue.specs.Rule.{IsInOrder};
    ghost use Rattle.post_queue.specs.Steps.{runner};

    ghost holds = { IsInOrder };

    ghost first = { runner };
}

/// A poster posts.
pub(crate) struct Posts;

impl Outcome<Post, Hand> for Posts {
    ghost use Rattle.std.specs.Prelude.{◌≡◌};
    ghost use Rattle.post_queue.specs.Steps.{posted};

    ghost then = { λ v x w. w ≡ posted v x };
}

/// The runner pops, or finds the queue empty.
pub(crate) struct Pops;

impl Outcome<Post, Hand> for Pops {
    ghost use Rattle.post_queue.specs.Steps.{Popped};

    ghost then = { Popped };
}

impl Lesson<Post, Hand> for Pops {
    ghost use Rattle.post_queue.specs.Steps.{Learned};

    ghost fact = { Learned };
}

/// A drain that took as many as it may is counted.
pub(crate) struct DrainsFull;

impl Split<Hand> for DrainsFull {
    ghost use Rattle.post_queue.specs.Steps.{drained, idle};

    ghost left = { drained };

    ghost right = { λ _. idle };
}

/// A drain that ended where nothing was found is counted, and so is the look that found nothing.
pub(crate) struct DrainsShort;

impl Split<Hand> for DrainsShort {
    ghost use Rattle.post_queue.specs.Steps.{drained, missed, idle};

    ghost left = { λ v. drained (missed v) };

    ghost right = { λ _. idle };
}

/// The runner makes a poster, which gets the next number.
pub(crate) struct Enrols;

impl Split<Hand> for Enrols {
    ghost use Rattle.post_queue.specs.Steps.{enrolled, poster};

    ghost left = { enrolled };

    ghost right = { λ v. poster v.count };
}

/// A poster ends, and the runner is told what it made.
pub(crate) struct Ends;

impl Join<Hand> for Ends {
    ghost use Rattle.post_queue.specs.Steps.{ended, idle};

    ghost both = { ended };

    ghost spent = { idle };
}
