// What the connections are told of the relay: which of them are held, and which have ended.
ghost use Rattle.std.specs.Prelude.{◌≡◌, ◌≤◌};
ghost use Rattle.relay_work.specs.Settling.{SettlesFrom, SettlesOneFrom};

use relay_ports::Taps;
use tcp_relay::Relay;

/// After an event of a connection that fed `was`: that one, and the other one of its pair, are closed where the relay has
/// closed them, and else held exactly where they don't read. No other connection has changed.
pub fn settle<T: Taps>(relay: &Relay, taps: &mut T, conn: u32, was: Option<u32>)
    ensures settles { SettlesFrom relay.now (T.seen taps.old) conn was (T.seen taps.new) }
    ensures no_fall { T.faults taps.old ≤ T.faults taps.new }
{
    settle_one(relay, taps, conn);
    match was {
        Some(other) => settle_one(relay, taps, other),
        None => {
            if let Some(other) = relay.peer(conn) {
                settle_one(relay, taps, other);
            }
        }
    }
}

// A closed connection has an empty write buffer.
fn settle_one<T: Taps>(relay: &Relay, taps: &mut T, conn: u32)
    ensures settles { SettlesOneFrom relay.now (T.seen taps.old) conn (T.seen taps.new) }
    ensures no_fall { T.faults taps.old ≤ T.faults taps.new }
{
    if relay.reads(conn) {
        taps.hold(conn, false);
    } else if relay.closing(conn) {
        taps.close(conn);
    } else {
        taps.hold(conn, true);
    }
}
