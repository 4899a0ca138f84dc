//! Boxed values that are reached by raw pointers. The heap owns them, and takes no bytes itself.
ghost use Rattle.std.specs.Prelude.{List};
ghost use Rattle.link_lists.specs.Cells.{Cell};
ghost use Rattle.link_lists.specs.Ownership.{cells_own, cells_lent};

use std::alloc::{AllocError, Allocator};
use std::marker::{Model, PhantomData, Send, Sync};
use std::ptr;

/// Where a value lies. It owns nothing.
pub(crate) struct Place {
    ptr: *mut u8,
}

impl Place {
    pub(crate) fn nowhere() -> Place {
        Place {
            ptr: ptr::null_mut(),
        }
    }
}

impl Clone for Place {
    ghost use Rattle.std.specs.Prelude.{◌≡◌, ⊤};

    ghost is_clone = { λ x y. y ≡ x };

    ghost is_infallible = { λ _. ⊤ };

    fn clone(&self) -> Result<Place, AllocError> {
        Ok(*self)
    }
}

impl Copy for Place {}

unsafe impl Send for Place {}

unsafe impl Sync for Place {}

/// The owner of the values. It can't be dropped: it is closed once each value is taken out.
pub(crate) struct Heap<V, A: Allocator> {
    mark: PhantomData<*mut (V, A)>,
    ghost cells: { List (Cell A V) },
}

impl<V, A: Allocator> Model for Heap<V, A> {
    ghost also_owns = { λ h. cells_own V.row A.dealloc_token h.cells };

    ghost also_shares = { λ h _ κ. cells_lent V.row h.cells κ };
}

unsafe impl<V: Send, A: Allocator + Send> Send for Heap<V, A> {}

unsafe impl<V: Sync, A: Allocator> Sync for Heap<V, A> {}

impl<V, A: Allocator> Heap<V, A> {
    ghost use Rattle.std.specs.Prelude.{◌≡◌, ◌<◌, [], ◌∷◌, ⊤};
    ghost use Rattle.std.specs.Borrow.{sem};
    ghost use Rattle.std.specs.Box.{box_allocator};
    ghost use Rattle.std.specs.Mem.{type_size};
    ghost use Rattle.link_lists.specs.Cells.{cell, erase, IsIn, IsFree};
    ghost use Rattle.link_lists.specs.Lends.{heap_lends};

    pub fn new() -> Heap<V, A>
        ensures { result.cells ≡ [] }
    {
        Heap { mark: PhantomData }
    }

    pub fn get(&self, at: Place) -> &V
        requires { IsIn at.ptr self.now.cells (λ _ _. ⊤) }
        ensures { IsIn at.ptr self.now.cells (λ _ v. result.now ≡ v) }
    {
        unsafe { &*(at.ptr as *mut V) }
    }

    pub fn get_mut(&mut self, at: Place) -> &mut V
        requires { IsIn at.ptr self.old.cells (λ _ _. ⊤) }
        ensures* writes_back { sem 𝓛 (heap_lends V.row A.row A.Allocator self.entry at.ptr result) }
        ensures value { IsIn at.ptr self.old.cells (λ _ v. result.now ≡ v) }
    {
        unsafe { &mut *(at.ptr as *mut V) }
    }

    /// Keeps the value of a box, where none of the others lies. Gives back the allocator, which `take` asks for.
    pub fn put(&mut self, whole: Box<V, A>) -> (Place, A)
    where
        V: Drop,
        requires { 0 < type_size V.row }
        ensures fresh { IsFree result.0.ptr self.old.cells }
        ensures added { self.new.cells ≡ cell result.0.ptr result.1 whole.value ∷ self.old.cells }
        ensures handle { result.1 ≡ box_allocator whole }
    {
        let (ptr, alloc) = Box::into_raw_with_allocator(whole);
        (
            Place {
                ptr: ptr as *mut u8,
            },
            alloc,
        )
    }

    /// The box of the value again.
    pub fn take(&mut self, at: Place, alloc: A) -> Box<V, A>
        requires { IsIn at.ptr self.old.cells (λ a _. a ≡ alloc) }
        ensures value { IsIn at.ptr self.old.cells (λ _ v. result.value ≡ v) }
        ensures left { self.new.cells ≡ erase at.ptr self.old.cells }
    {
        unsafe { Box::from_raw(alloc, at.ptr as *mut V) }
    }

    /// Ends a heap that owns nothing any more.
    pub fn close(self)
        requires { self.cells ≡ [] }
    {
        let Heap { mark: _ } = self;
    }
}
