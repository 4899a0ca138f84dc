// The calls of metered connections.
ghost use Rattle.std.specs.Io.{WritesAtMost};
ghost use Rattle.std.specs.Prelude.{◌≡◌, ◌≤◌, Err, IfOk, OnErr, OnOk, false};
ghost use Rattle.io_ports.specs.Faults.{FailsByFault, Rose};
ghost use Rattle.metered_wires.specs.Metering.{Metered, Takes};
ghost use Rattle.metered_wires.specs.Rising.{IsRising, untold};
ghost use Rattle.shared_tokens.specs.Seats.{IsSeatOf, known_of};
ghost use Rattle.worker_ports.specs.Wires.{Gives, closed, is_live, offered};
ghost use Rattle.worker_ports.specs.declared.wires.WireRefusal.TheVariants as refusal;

use io_ports::Failed;
use shared_tokens::{Bucket, NoToken, TokenSeat};
use worker_ports::{WireRefusal, Wired, Wires};

/// Connections of which a client's comes only where a token is there for it. They don't tell what was done.
#[derive(Drop)]
pub struct MeteredWires<'a, W: Wires> {
    pub(crate) inner: W,
    pub(crate) bucket: &'a Bucket,
    pub(crate) seat: TokenSeat,
    /// The greatest number that was given.
    pub(crate) greatest: u32,
    ghost seat_of: { IsSeatOf bucket.now seat },
    ghost rising: { IsRising (W.seen inner) },
    ghost below: { greatest ≤ (W.seen inner).greatest },
}

impl<'a, W: Wires> MeteredWires<'a, W> {
    /// Of these connections, each client's takes a token. None has been given yet.
    pub fn new(inner: W, bucket: &'a Bucket, seat: TokenSeat) -> MeteredWires<'a, W>
        requires seat { IsSeatOf bucket.now seat }
        requires rising { IsRising (W.seen inner) }
        ensures inner { result.inner ≡ inner }
        ensures bucket { result.bucket.now ≡ bucket.now }
        ensures seat { result.seat ≡ seat }
        ensures greatest { result.greatest ≡ 0 }
    {
        MeteredWires {
            inner,
            bucket,
            seat,
            greatest: 0,
        }
    }

    /// The inner connections and the seat, as they stand.
    pub fn into_inner(self) -> (W, TokenSeat)
        ensures inner { result.0 ≡ self.entry.inner }
        ensures seat { result.1 ≡ self.entry.seat }
    {
        (self.inner, self.seat)
    }
}

// Takes a token, and answers whether one was there.
fn takes(bucket: &Bucket, seat: &mut TokenSeat) -> bool
    requires { IsSeatOf bucket.now seat.old }
    ensures seat { IsSeatOf bucket.now seat.new }
    ensures takes { Takes (known_of seat.old) result (known_of seat.new) }
{
    match bucket.take(seat) {
        Ok(()) => true,
        Err(NoToken { .. }) => false,
    }
}

impl<'a, W: Wires> Wires for MeteredWires<'a, W> {
    ghost seen = { λ m. untold m.greatest (W.seen m.inner) };

    ghost faults = { λ m. W.faults m.inner };

    fn next(&mut self) -> Result<Wired, WireRefusal>
        ensures ok { IfOk result (λ w. Gives (untold self.old.greatest (W.seen self.old.inner)) w (untold self.new.greatest (W.seen self.new.inner))) }
        ensures err { OnErr result (untold self.new.greatest (W.seen self.new.inner) ≡ untold self.old.greatest (W.seen self.old.inner)) }
        ensures no_fall { W.faults self.old.inner ≤ W.faults self.new.inner }
        ensures cause { result ≡ Err refusal.Failed → Rose (W.faults self.old.inner) (W.faults self.new.inner) }

        // One answer of the inner connections.
        ensures metered { IfOk result (λ w. Metered (W.seen self.old.inner) (known_of self.old.seat) (W.seen self.new.inner) (known_of self.new.seat) w) }
        ensures refused { OnErr result ((W.seen self.new.inner ≡ W.seen self.old.inner) × (self.new.seat ≡ self.old.seat)) }
        ensures bucket { self.new.bucket.now ≡ self.old.bucket.now }
    {
        match self.inner.next()? {
            Wired::Accept(conn) => {
                if !takes(self.bucket, &mut self.seat) {
                    self.inner.close(conn);
                    return Ok(Wired::Idle);
                }
                self.greatest = conn;
                Ok(Wired::Accept(conn))
            }
            Wired::Join(conn, cluster) => {
                self.greatest = conn;
                Ok(Wired::Join(conn, cluster))
            }
            Wired::Read(conn, octets) => Ok(Wired::Read(conn, octets)),
            Wired::Lost(conn) => Ok(Wired::Lost(conn)),
            Wired::Idle => Ok(Wired::Idle),
            Wired::Stop => Ok(Wired::Stop),
        }
    }

    fn offer(&mut self, conn: u32, piece: &[u8]) -> Result<usize, Failed>
        ensures bound { WritesAtMost result piece.now }
        ensures live { is_live conn (untold self.old.greatest (W.seen self.old.inner)) ≡ false → IfOk result (λ n. n ≡ 0) }
        ensures ok { IfOk result (λ n. untold self.new.greatest (W.seen self.new.inner) ≡ offered conn piece.now n (untold self.old.greatest (W.seen self.old.inner))) }
        ensures err { OnErr result (untold self.new.greatest (W.seen self.new.inner) ≡ untold self.old.greatest (W.seen self.old.inner)) }
        ensures cause { FailsByFault (W.faults self.old.inner) (W.faults self.new.inner) result }

        // The inner connections are offered the piece, once. What is known of tokens stays.
        ensures inner { IfOk result (λ n. W.seen self.new.inner ≡ offered conn piece.now n (W.seen self.old.inner)) }
        ensures inner_err { OnErr result (W.seen self.new.inner ≡ W.seen self.old.inner) }
        ensures seat { (self.new.seat ≡ self.old.seat) × (self.new.greatest ≡ self.old.greatest) }
        ensures bucket { self.new.bucket.now ≡ self.old.bucket.now }
    {
        self.inner.offer(conn, piece)
    }

    fn close(&mut self, conn: u32)
        ensures closes { untold self.new.greatest (W.seen self.new.inner) ≡ closed conn (untold self.old.greatest (W.seen self.old.inner)) }
        ensures no_fall { W.faults self.old.inner ≤ W.faults self.new.inner }

        // The inner connection is closed. What is known of tokens stays.
        ensures inner { W.seen self.new.inner ≡ closed conn (W.seen self.old.inner) }
        ensures seat { (self.new.seat ≡ self.old.seat) × (self.new.greatest ≡ self.old.greatest) }
        ensures bucket { self.new.bucket.now ≡ self.old.bucket.now }
    {
        self.inner.close(conn);
    }
}
