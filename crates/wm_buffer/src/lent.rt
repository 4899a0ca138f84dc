// Octets that stay in a block of others.
ghost use Rattle.std.specs.Prelude.{◌≡◌, ◌≤◌, [], drop, length, IfSome};

use io_ports::Octets;
use std::alloc::Global;
use std::marker::Model;

/// Octets in a block that others have too, but for those that are gone.
#[derive(Debug, Drop)]
pub struct Lent {
    octets: Octets,
    gone: usize,
}

impl Model for Lent {
    ghost use Rattle.std.specs.Prelude.{◌≤◌, List, drop, length, ℕ};

    ghost Value = { List ℕ };

    ghost view = { λ l. drop l.gone l.octets };

    ghost invariant = { λ l. l.gone ≤ length l.octets };
}

impl Lent {
    /// No octets, and no block.
    pub fn none(alloc: Global) -> Self
        ensures { result ≡ [] }
    {
        Lent {
            octets: Octets::new(alloc),
            gone: 0,
        }
    }

    /// The octets of a piece, if it shares a block.
    pub fn of(piece: &Octets) -> Option<Self>
        ensures { IfSome result (λ lent. lent ≡ piece.now) }
    {
        match piece.lent() {
            Some(octets) => Some(Lent { octets, gone: 0 }),
            None => None,
        }
    }

    pub fn len(&self) -> usize
        ensures { result ≡ length self.now }
    {
        self.octets.len() - self.gone
    }

    pub fn as_slice(&self) -> &[u8]
        ensures { result.now ≡ self.now }
    {
        let (_, lent) = self.octets.as_slice().split_at(self.gone);
        lent
    }

    /// Drops the first n octets. Once all are gone the block is let go.
    #[tactic(auto, using(std::proofs::lemmas::List::drop_all))]
    pub fn drop_front(&mut self, n: usize, alloc: Global)
        requires { n ≤ length self.old }
        ensures { self.new ≡ drop n self.old }
    {
        let len = self.octets.len();
        let left = len - self.gone - n;
        if left == 0 {
            *self = Lent::none(alloc);
            return;
        }
        self.gone = len - left;
    }
}
