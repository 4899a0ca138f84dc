// Octets in a ring, which move by slices.
ghost use Rattle.std.specs.Prelude.{◌≡◌, ◌<◌, ◌≤◌, ◌+◌, ◌-◌, ◌^◌, ◌++◌, [], length, take, drop, IsOk, OnOk, OnErr};
ghost use Rattle.wm_buffer.specs.Stored.{IsDoubled};

use circular_buffer::HeapCircularBuffer;
use io_ports::NoMemory;
use std::alloc::Global;
use std::marker::Model;

/// The octets that a ring has places for.
pub(crate) const PLACES: usize = 2_147_483_647;

/// A queue of octets. Until it needs room it takes no memory.
#[derive(Debug, Drop)]
pub struct Ring {
    alloc: Global,
    ring: Option<HeapCircularBuffer<u8>>,
}

impl Model for Ring {
    ghost use Rattle.wm_buffer.specs.Stored.{Stored, stored_in, IsInPlaces};

    ghost Value = { Stored };

    ghost view = { λ s. stored_in s.ring };

    ghost invariant = { λ s. IsInPlaces s.ring };
}

impl Ring {
    /// No octets, and no room.
    pub fn new(alloc: Global) -> Self
        ensures octets { result.octets ≡ [] }
        ensures spare { result.spare ≡ 0 }
    {
        Ring { alloc, ring: None }
    }

    pub fn len(&self) -> usize
        ensures len { result ≡ length self.now.octets }
        ensures within { result + self.now.spare < 2 ^ 31 }
    {
        match &self.ring {
            None => 0,
            Some(ring) => ring.len(),
        }
    }

    /// For how many more octets there is room.
    pub fn spare(&self) -> usize
        ensures spare { result ≡ self.now.spare }
        ensures within { length self.now.octets + result < 2 ^ 31 }
    {
        match &self.ring {
            None => 0,
            Some(ring) => ring.capacity() - ring.len(),
        }
    }

    /// How many octets there is room for in all.
    pub fn places(&self) -> usize
        ensures { result ≡ length self.now.octets + self.now.spare }
    {
        match &self.ring {
            None => 0,
            Some(ring) => ring.capacity(),
        }
    }

    /// The octets in two slices.
    pub fn pieces(&self) -> (&[u8], &[u8])
        ensures { result.0.now ++ result.1.now ≡ self.now.octets }
    {
        match &self.ring {
            None => (&[], &[]),
            Some(ring) => ring.as_slices(),
        }
    }

    /// A prefix of the octets, nonempty where they are: the first of the two slices that isn't empty.
    pub fn front(&self) -> &[u8]
        ensures prefix { result.now ≡ take (length result.now) self.now.octets }
        ensures nonempty { 0 < length self.now.octets → 0 < length result.now }
    {
        let (front, back) = self.pieces();
        if front.is_empty() { back } else { front }
    }

    /// The first n octets in two slices.
    pub fn first_pieces(&self, n: usize) -> (&[u8], &[u8])
        requires { n ≤ length self.now.octets }
        ensures octets { result.0.now ++ result.1.now ≡ take n self.now.octets }
        ensures count { length result.0.now + length result.1.now ≡ n }
    {
        let (front, back) = self.pieces();
        let from_front = n.min(front.len());
        (&front[..from_front], &back[..n - from_front])
    }

    /// Makes room for `more` octets. Where there is room for them, nothing changes. Else the octets
    /// move to a ring of at least twice the places, so that growing takes constant time an octet.
    pub fn reserve(&mut self, more: usize) -> Result<(), NoMemory>
        ensures octets { self.new.octets ≡ self.old.octets }
        ensures grown { self.old.spare ≤ self.new.spare }
        ensures room { OnOk result (more ≤ self.new.spare) }
        ensures covered { more ≤ self.old.spare → IsOk result × (self.new ≡ self.old) }
        ensures doubled { OnOk result (self.old.spare < more → IsDoubled self.old self.new) }
        ensures err { OnErr result (self.new ≡ self.old) }
    {
        let (len, spare) = (self.len(), self.spare());
        if more <= spare {
            return Ok(());
        }
        if more > PLACES - len {
            return Err(NoMemory);
        }
        let places = (len + more).max(2 * (len + spare)).min(PLACES);
        self.grow(places)
    }

    fn grow(&mut self, places: usize) -> Result<(), NoMemory>
        requires more { length self.old.octets + self.old.spare ≤ places }
        requires places { places < 2 ^ 31 }
        ensures octets { self.new.octets ≡ self.old.octets }
        ensures room { OnOk result (length self.new.octets + self.new.spare ≡ places) }
        ensures err { OnErr result (self.new ≡ self.old) }
    {
        let mut grown = HeapCircularBuffer::with_capacity(self.alloc, places)?;
        let (front, back) = self.pieces();
        grown.fill_from_slice(front);
        grown.fill_from_slice(back);
        self.ring = Some(grown);
        Ok(())
    }

    /// Appends a piece for which there is room.
    pub fn append(&mut self, piece: &[u8])
        requires { length piece.now ≤ self.old.spare }
        ensures octets { self.new.octets ≡ self.old.octets ++ piece.now }
        ensures spare { self.new.spare + length piece.now ≡ self.old.spare }
    {
        if let Some(ring) = &mut self.ring {
            ring.fill_from_slice(piece);
        }
    }

    /// Drops the first n octets. A ring that is emptied goes on at the place of its first octet, so that a buffer that is
    /// filled and emptied in turn keeps to a few places.
    pub fn drop_front(&mut self, n: usize)
        requires { n ≤ length self.old.octets }
        ensures octets { self.new.octets ≡ drop n self.old.octets }
        ensures spare { self.new.spare ≡ self.old.spare + n }
    {
        if let Some(ring) = &mut self.ring {
            if n == ring.len() {
                ring.clear();
            } else {
                ring.truncate_front(ring.len() - n);
            }
        }
    }
}
