//! Boxes of nodes that were freed, in which later nodes are made.
ghost use Rattle.std.specs.Prelude.{◌≡◌, IfOk};

use crate::member::Member;
use io_ports::NoMemory;
use std::alloc::Global;

/// The most boxes that are kept.
const MOST: usize = 256;

/// Boxes that hold nothing: a node that comes takes one of them, and so no memory. They are few, so that lists that were
/// long once hold little.
#[derive(Drop)]
pub(crate) struct Spares<T> {
    boxes: Vec<Box<Member<T>>>,
}

impl<T: Drop> Spares<T> {
    /// None. Takes no memory.
    pub fn new(alloc: Global) -> Spares<T> {
        Spares {
            boxes: Vec::new(alloc),
        }
    }

    /// The node in a box: in one that was kept, if there is one.
    #[inline(always)]
    pub fn boxed(&mut self, alloc: Global, node: Member<T>) -> Result<Box<Member<T>>, NoMemory>
        ensures { IfOk result (λ whole. whole.value ≡ node) }
    {
        if let Some(mut whole) = self.boxes.pop() {
            *whole = node;
            return Ok(whole);
        }
        if self.boxes.capacity() == 0 {
            self.boxes.reserve(MOST)?;
        }
        Ok(Box::new(alloc, node)?)
    }

    /// Keeps a box whose node is no more, where there is room for it. Takes no memory.
    #[inline(always)]
    pub fn keep(&mut self, whole: Box<Member<T>>) {
        if self.boxes.len() < self.boxes.capacity() {
            let _ = self.boxes.push(whole);
        }
    }
}
