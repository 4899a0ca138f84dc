// Octets in a ring, behind some in a block of others, which move by slices.
ghost use Rattle.std.specs.Prelude.{◌≡◌, ◌<◌, ◌≤◌, ◌+◌, ◌^◌, ◌++◌, [], length, take, drop, IsOk, OnOk, OnErr, false, true};
ghost use Rattle.wm_buffer.specs.Stored.{IsDoubled};

use crate::lent::Lent;
use crate::ring::{PLACES, Ring};
use io_ports::{NoMemory, Octets};
use std::alloc::Global;
use std::marker::Model;
use std::mem;

/// A queue of octets. Until it needs room it takes no memory. Octets that share a block may stay there where none are before them;
/// they stand before those in the ring, and take places of it.
#[derive(Debug, Drop)]
pub struct Store {
    alloc: Global,
    lent: Lent,
    ring: Ring,
}

impl Model for Store {
    ghost use Rattle.std.specs.Prelude.{◌≤◌, length};
    ghost use Rattle.wm_buffer.specs.Stored.{Stored, with_lent};

    ghost Value = { Stored };

    ghost view = { λ s. with_lent s.lent s.ring };

    ghost invariant = { λ s. length s.lent ≤ s.ring.spare };
}

impl Store {
    /// No octets, and no room.
    pub fn new(alloc: Global) -> Self
        ensures octets { result.octets ≡ [] }
        ensures spare { result.spare ≡ 0 }
    {
        Store {
            alloc,
            lent: Lent::none(alloc),
            ring: Ring::new(alloc),
        }
    }

    pub fn len(&self) -> usize
        ensures len { result ≡ length self.now.octets }
        ensures within { result + self.now.spare < 2 ^ 31 }
    {
        self.lent.len() + self.ring.len()
    }

    /// For how many more octets there is room.
    pub fn spare(&self) -> usize
        ensures spare { result ≡ self.now.spare }
        ensures within { length self.now.octets + result < 2 ^ 31 }
    {
        self.ring.spare() - self.lent.len()
    }

    /// How many octets there is room for in all.
    pub fn places(&self) -> usize
        ensures { result ≡ length self.now.octets + self.now.spare }
    {
        self.ring.places()
    }

    /// The octets of two stores change places, and their room with them.
    pub fn swap(&mut self, other: &mut Store)
        ensures here { self.new ≡ other.old }
        ensures there { other.new ≡ self.old }
    {
        mem::swap(&mut self.lent, &mut other.lent);
        mem::swap(&mut self.ring, &mut other.ring);
    }

    /// All octets go to another store as they lie, where they lie in a block of others, and the other one is empty and has room
    /// for them: none is copied. The answer is false, and nothing has changed, where they don't.
    pub fn hand_over(&mut self, to: &mut Store) -> bool
        ensures empty { result ≡ true → to.old.octets ≡ [] }
        ensures there { result ≡ true → to.new.octets ≡ self.old.octets }
        ensures here { result ≡ true → self.new.octets ≡ [] }
        ensures taken { result ≡ true → to.new.spare + length self.old.octets ≡ to.old.spare }
        ensures freed { result ≡ true → self.new.spare ≡ self.old.spare + length self.old.octets }
        ensures same { result ≡ false → (self.new ≡ self.old) × (to.new ≡ to.old) }
    {
        if self.ring.len() > 0 || to.len() > 0 || self.lent.len() > to.spare() {
            return false;
        }
        mem::swap(&mut self.lent, &mut to.lent);
        true
    }

    /// A prefix of the octets, nonempty where they are.
    #[tactic(auto, using(crate::proofs::Parts::none_before))]
    pub fn front(&self) -> &[u8]
        ensures prefix { result.now ≡ take (length result.now) self.now.octets }
        ensures nonempty { 0 < length self.now.octets → 0 < length result.now }
    {
        let lent = self.lent.as_slice();
        if lent.is_empty() {
            self.ring.front()
        } else {
            lent
        }
    }

    // The first n octets in three slices.
    #[tactic(auto, using(crate::proofs::Parts::take_both))]
    fn first_pieces(&self, n: usize) -> (&[u8], &[u8], &[u8])
        requires { n ≤ length self.now.octets }
        ensures octets { result.0.now ++ (result.1.now ++ result.2.now) ≡ take n self.now.octets }
        ensures count { length result.0.now + (length result.1.now + length result.2.now) ≡ n }
    {
        let lent = self.lent.as_slice();
        let of_lent = n.min(lent.len());
        let (front, back) = self.ring.first_pieces(n - of_lent);
        (&lent[..of_lent], front, back)
    }

    /// Makes room for `more` octets. Where there is room for them, nothing changes. Else the octets of the ring
    /// move to one of at least twice the places, so that growing takes constant time an octet.
    pub fn reserve(&mut self, more: usize) -> Result<(), NoMemory>
        ensures octets { self.new.octets ≡ self.old.octets }
        ensures grown { self.old.spare ≤ self.new.spare }
        ensures room { OnOk result (more ≤ self.new.spare) }
        ensures covered { more ≤ self.old.spare → IsOk result × (self.new ≡ self.old) }
        ensures doubled { OnOk result (self.old.spare < more → IsDoubled self.old self.new) }
        ensures err { OnErr result (self.new ≡ self.old) }
    {
        if more <= self.spare() {
            return Ok(());
        }
        if more > PLACES - self.len() {
            return Err(NoMemory);
        }
        self.ring.reserve(self.lent.len() + more)
    }

    /// Appends a piece for which there is room.
    pub fn append(&mut self, piece: &[u8])
        requires { length piece.now ≤ self.old.spare }
        ensures octets { self.new.octets ≡ self.old.octets ++ piece.now }
        ensures spare { self.new.spare + length piece.now ≡ self.old.spare }
    {
        self.ring.append(piece);
    }

    /// Appends the first n octets of another store, for which there is room.
    pub fn append_first(&mut self, from: &Store, n: usize)
        requires held { n ≤ length from.now.octets }
        requires room { n ≤ self.old.spare }
        ensures octets { self.new.octets ≡ self.old.octets ++ take n from.now.octets }
        ensures spare { self.new.spare + n ≡ self.old.spare }
    {
        let (lent, front, back) = from.first_pieces(n);
        self.append(lent);
        self.append(front);
        self.append(back);
    }

    /// As `append`, where octets that share a block stay there, if there are none before them.
    #[tactic(auto, using(crate::proofs::Parts::all_that_came))]
    pub fn take_in(&mut self, piece: &Octets)
        requires { length piece.now ≤ self.old.spare }
        ensures octets { self.new.octets ≡ self.old.octets ++ piece.now }
        ensures spare { self.new.spare + length piece.now ≡ self.old.spare }
    {
        if self.len() == 0
            && let Some(lent) = Lent::of(piece)
        {
            self.lent = lent;
            return;
        }
        self.append(piece.as_slice());
    }

    /// Drops the first n octets, and keeps their room.
    #[tactic(auto, using(crate::proofs::Parts::drop_both))]
    pub fn drop_front(&mut self, n: usize)
        requires { n ≤ length self.old.octets }
        ensures octets { self.new.octets ≡ drop n self.old.octets }
        ensures spare { self.new.spare ≡ self.old.spare + n }
    {
        let of_lent = n.min(self.lent.len());
        if of_lent > 0 {
            self.lent.drop_front(of_lent, self.alloc);
        }
        self.ring.drop_front(n - of_lent);
    }
}
