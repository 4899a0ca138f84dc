// Laws of any setup: they are told by contracts, and do nothing.
ghost use Rattle.tape_laws.specs.Setup.{Session};
ghost use Rattle.flow_laws.specs.Laws.{BodiesAreSent, BoundsHold, CountsBalance, EndsOnce, HeadlineFollows, NothingIsLost, OrderIsKept, RestIsQuiet, SourcesCross, StepsAreSound};
ghost use Rattle.flow_laws.specs.Made.{LawsApply, MadeMark, made_session};

/// A kind of session: its marks, and what lawful tapes of it show. It has nothing but what is said of it.
pub trait Kind {
    ghost marks: { Type 0 };

    ghost session: { Session marks };
}

/// Whatever the setup: at each moment the pauses of a live flow that stood, with those that are due, are its resumes, its sources
/// that are above and its lows that are pending.
pub fn counts_balance<M>()
    ensures { CountsBalance M }
{}

/// Whatever the setup: a source of a flow that lives on rises only where a step feeds it, and drains only where one eases it;
/// then each of its watchers is to be paused, or to be told, in the order in which they began to watch.
pub fn sources_cross<M>()
    ensures { SourcesCross M }
{}

/// Whatever the setup: after any step the pauses that it makes due stand first and in their order; those who are told of a drain
/// are those who watched, in their order, with only doomed ones left out; of a closed connection nobody is told.
pub fn order_is_kept<M>()
    ensures { OrderIsKept M }
{}

/// Whatever the setup: where each step fits in, no buffer holds more than its bound: a receive buffer its window, all from one
/// connection theirs, a Hold its limit, a Meter, a send buffer and a write buffer their limit and one unit.
pub fn bounds_hold<M>()
    ensures { BoundsHold M }
{}

/// Whatever the setup: what a live flow received is what it sent, and what lies in its places from the last to the first.
pub fn nothing_is_lost<M>()
    ensures { NothingIsLost M }
{}

/// Whatever the setup: what a flow sent is a front of the body that came for it, at each moment, doomed flows too.
pub fn bodies_are_sent<M>()
    ensures { BodiesAreSent M }
{}

/// Whatever the setup: at most one unit of a flow carries END_STREAM, and then nothing of it is left.
pub fn ends_once<M>()
    ensures { EndsOnce M }
{}

/// Whatever the session: a core that rests is quiet.
pub fn rest_is_quiet<K: Kind>()
    ensures { RestIsQuiet K.session }
{}

/// Whatever the session: a lawful tape of whole dispatches whose steps suit keeps what is promised to an operator.
pub fn headline_follows<K: Kind>()
    ensures { HeadlineFollows K.session }
{}

/// Whatever the session: from what a core knows at a step, by its kind, the history with that step is lawful again. One builder
/// for each kind of step; counts, bounds and ties are owed by none.
pub fn steps_are_sound<K: Kind>()
    ensures { StepsAreSound K.session }
{}

/// Exchanges between two connections, whose requests pass a Meter and whose responses pass a Hold.
pub struct MadeSession;

impl Kind for MadeSession {
    ghost marks = { MadeMark };

    ghost session = { made_session };
}

/// All laws apply to the made-up kind: it has its ways and limits, its tapes begin sound and go on with every kind of step, a tape
/// of six steps is sound, and what holds of counts, octets, ends, quiet and the headline holds of its tapes.
pub fn laws_apply()
    ensures { LawsApply }
{
    rest_is_quiet::<MadeSession>();
    headline_follows::<MadeSession>();
    steps_are_sound::<MadeSession>();
}
