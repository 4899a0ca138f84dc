// Laws of a relay's tapes: they are told by contracts, and do nothing.
ghost use Rattle.relay_laws.specs.Lawful.{IsRelayWhole};
ghost use Rattle.relay_laws.specs.Pairs.{Tape};
ghost use Rattle.relay_laws.specs.Promise.{Relays};
ghost use Rattle.relay_laws.specs.Session.{IsTape};
ghost use Rattle.relay_laws.specs.Sound.{IsSound};
ghost use Rattle.std.specs.Prelude.{List, ℕ};
ghost use Rattle.tcp_relay.specs.AsGiven.{IsAsGiven};

/// At the end of a session's tape the connections are paired two and two, a closed one holds nothing, and those that wait
/// for a partner stand in the order of their numbers.
pub fn tapes_are_sound()
    ensures { (limit : ℕ) (names : List (List ℕ)) (h : Tape) → IsTape limit names h → IsSound h }
{}

/// Each start, in, out, doom, gone and close note of a session's tape stands where its dispatch's event gives it, and nowhere
/// else; a pause or a resume names the write buffer that its flow goes to. Octets leave only where they are, and a doomed pair
/// is untouched until it is gone, in the same dispatch.
pub fn tapes_are_as_given()
    ensures { (limit : ℕ) (names : List (List ℕ)) (h : Tape) → IsTape limit names h → IsAsGiven h }
{}

/// A session's tape is a lawful relay tape of whole dispatches. Beside what `tapes_are_as_given` says: nothing is read from a
/// paused flow; at each settled moment the flow to a connection in a live pair was paused as often as that one's write buffer
/// rose since the pair's start, and resumed at most as often as it drained, and at each end of a dispatch just as often.
pub fn tapes_are_lawful()
    ensures { (limit : ℕ) (names : List (List ℕ)) (h : Tape) → IsTape limit names h → IsRelayWhole limit h }
{}

/// A session's tape keeps what is promised to an operator. At the end of each dispatch what left and what waits for the one
/// connection of a live pair is exactly what was read from the other, in order, and a live flow is paused, once, exactly where
/// its write buffer is above. At each moment what came for a connection that wasn't lost has left or waits, and a write buffer
/// with a limit holds at most that and 16,384 octets. Nothing is read from a paused flow.
pub fn tapes_keep_their_promise()
    ensures { (limit : ℕ) (names : List (List ℕ)) (h : Tape) → IsTape limit names h → Relays limit h }
{}
