//! What the proof of the rings remembers of them. It takes no bytes, and its functions do nothing when they run.
ghost use Rattle.link_lists.specs.Notes.{Ring};
ghost use Rattle.std.specs.Prelude.{List};
ghost use base.Fml.{ftrue};

use crate::heap::Place;
use std::marker::{Model, PhantomData, Send, Sync};

/// The rings in order. Each is the place of its end, and its nodes in order.
pub(crate) struct Note<T> {
    mark: PhantomData<*mut T>,
    pub ghost rings: { List (Ring T) },
}

impl<T> Model for Note<T> {
    ghost also_owns = { λ _. ftrue };

    ghost also_shares = { λ _ _ _. ftrue };
}

unsafe impl<T> Send for Note<T> {}

unsafe impl<T> Sync for Note<T> {}

impl<T> Drop for Note<T> {
    fn drop(self) {
        let Note { mark: _ } = self;
    }
}

impl<T> Note<T> {
    ghost use Rattle.std.specs.Prelude.{◌≡◌, [], ◌∷◌, ◌++◌};
    ghost use Rattle.link_lists.specs.Notes.{ring_push, ring_pull, ring_shift, ring_front};

    pub fn new() -> Note<T>
        ensures { result.rings ≡ [] }
    {
        Note { mark: PhantomData }
    }

    /// A ring with no node, whose end is at `at`, comes as the last.
    pub fn open(&mut self, at: Place)
        ensures { self.new.rings ≡ self.old.rings ++ (at.ptr, []) ∷ [] }
    {}

    /// The last ring is no more.
    pub fn shut(&mut self)
        ensures { self.new.rings ≡ ring_front self.old.rings }
    {}

    /// `at`, with its value, becomes the last node of the ring.
    pub fn push(&mut self, ring: usize, at: Place, value: &T)
        ensures { self.new.rings ≡ ring_push ring (at.ptr, value.now) self.old.rings }
    {}

    /// The node at `at` becomes the last node of the ring.
    pub fn shift(&mut self, ring: usize, at: Place)
        ensures { self.new.rings ≡ ring_shift ring at.ptr self.old.rings }
    {}

    /// The node at `at` leaves its ring.
    pub fn pull(&mut self, at: Place)
        ensures { self.new.rings ≡ ring_pull at.ptr self.old.rings }
    {}
}
