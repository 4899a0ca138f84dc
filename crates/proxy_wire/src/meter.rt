// What stands between workers and the connections of clients.
ghost use Rattle.std.specs.Prelude.{◌≡◌, ℕ};
ghost use Rattle.proxy_site.specs.Sites.{IsUnused};

use crate::metering::{Metering, Ticket};
use metered_wires::MeteredWires;
use worker_ports::Wires;

/// Where tokens for the connections of clients are put.
pub(crate) trait Tokens {
    /// So many connections of clients more may come.
    fn put(&mut self, more: u32);
}

/// What stands between workers and the connections of clients.
pub(crate) trait Meter<W: Wires>: Tokens {
    /// The connections as a worker has them.
    type Metered: Wires;

    /// The right of one worker to have connections.
    type Ticket: Drop;

    /// The connections as the site gave them.
    ghost bare: { Self.Metered → W };

    /// The right of one worker more, if there is one.
    fn take(&mut self) -> Option<Self::Ticket>;

    /// The connections as a worker has them, which nobody has used.
    fn wrap(ticket: Self::Ticket, wires: W) -> Self::Metered
        requires unused { (n : ℕ) × IsUnused n (W.seen wires) }
        ensures bare { bare result ≡ wires }
        ensures clusters { (Self.Metered.seen result).clusters ≡ (W.seen wires).clusters };

    /// The connections as the site gave them.
    fn unwrap(metered: Self::Metered) -> W
        ensures bare { result ≡ bare metered }
        ensures faults { W.faults result ≡ Self.Metered.faults metered };
}

/// Nothing: clients' connections come as they come.
#[derive(Drop)]
pub(crate) struct Unmetered;

impl<W: Wires> Meter<W> for Unmetered {
    type Metered = W;

    type Ticket = ();

    ghost bare = { λ w. w };

    fn take(&mut self) -> Option<()> {
        Some(())
    }

    fn wrap(_: (), wires: W) -> W {
        wires
    }

    fn unwrap(wires: W) -> W {
        wires
    }
}

impl Tokens for Unmetered {
    fn put(&mut self, _: u32) {}
}

impl<'a, W: Wires> Meter<W> for Metering<'a> {
    type Metered = MeteredWires<'a, W>;

    type Ticket = Ticket<'a>;

    ghost bare = { λ m. m.inner };

    fn take(&mut self) -> Option<Ticket<'a>> {
        self.ticket()
    }

    #[tactic(auto, using(crate::proofs::Sharing::unused_rises))]
    fn wrap(ticket: Ticket<'a>, wires: W) -> MeteredWires<'a, W> {
        let Ticket { bucket, seat } = ticket;
        MeteredWires::new(wires, bucket, seat)
    }

    fn unwrap(metered: MeteredWires<'a, W>) -> W {
        let (wires, _) = metered.into_inner();
        wires
    }
}

impl<'a> Tokens for Metering<'a> {
    fn put(&mut self, more: u32) {
        self.put_tokens(u64::from(more));
    }
}
