// Octets that are joined to others in one block.
ghost use Rattle.std.specs.Prelude.{◌≡◌, ◌≤◌, ◌++◌, ◌-◌, drop, false, length, true, IfOk, IfSome, OnErr, OnOk};

use io_ports::{NoMemory, Octets};
use std::alloc::Global;
use std::marker::Model;
use std::mem;

/// From so many octets on a block in which octets are joined has room for more than twice as many.
const MANY: usize = 4_096;

/// The room of such a block, where that is more than twice what it is for.
const ROOM: usize = 65_536;

/// Octets in a block of their own, and those that came last once more, where they came.
#[derive(Debug, Drop)]
pub struct Joined {
    alloc: Global,
    octets: Vec<u8>,
    last: Octets,
}

impl Model for Joined {
    ghost use Rattle.std.specs.Prelude.{◌-◌, ◌≡◌, List, drop, length, ℕ};

    ghost Value = { List ℕ };

    ghost view = { λ j. j.octets.items };

    ghost invariant = { λ j. drop (length j.octets.items - length j.last) j.octets.items ≡ j.last };
}

impl Joined {
    /// Some octets and others behind them, in a block with room for more.
    #[tactic(auto, using(crate::proofs::Joining::ends_with))]
    pub(crate) fn new(alloc: Global, octets: &[u8], more: Octets) -> Result<Self, NoMemory>
        ensures { IfOk result (λ joined. joined ≡ octets.now ++ more) }
    {
        Ok(Joined {
            alloc,
            octets: in_one_block(alloc, octets, more.as_slice())?,
            last: more,
        })
    }

    pub(crate) fn as_slice(&self) -> &[u8]
        ensures { result.now ≡ self.now }
    {
        self.octets.as_slice()
    }

    /// For how many more octets the block has room.
    pub(crate) fn room(&self) -> usize {
        self.octets.capacity() - self.octets.len()
    }

    /// Appends octets. After running out of memory the octets are as they were.
    #[tactic(auto, using(crate::proofs::Joining::ends_with))]
    pub(crate) fn push_all(&mut self, more: Octets) -> Result<(), NoMemory>
        ensures ok { OnOk result (self.new ≡ self.old ++ more) }
        ensures err { OnErr result (self.new ≡ self.old) }
    {
        self.octets.extend_from_slice(more.as_slice())?;
        self.last = more;
        Ok(())
    }

    /// Drops the octets before a place by moving the others to the front, where these are no more. Answers whether they are.
    #[tactic(auto, using(std::proofs::lemmas::List::drop_all))]
    pub(crate) fn cut(&mut self, at: usize) -> bool
        requires { at ≤ length self.old }
        ensures cut { result ≡ true → self.new ≡ drop at self.old }
        ensures kept { result ≡ false → self.new ≡ self.old }
    {
        if !cut(&mut self.octets, at) {
            return false;
        }
        self.last = Octets::new(self.alloc);
        true
    }

    /// The octets that came last, where they came, if they are so many or more. Nothing else changes.
    #[tactic(auto, using(std::proofs::lemmas::List::drop_all))]
    pub(crate) fn last(&mut self, n: usize) -> Option<Octets>
        ensures many { IfSome result (λ last. n ≤ length last) }
        ensures ends { IfSome result (λ last. drop (length self.old - length last) self.old ≡ last) }
        ensures same { self.new ≡ self.old }
    {
        if n > self.last.len() {
            return None;
        }
        Some(mem::replace(&mut self.last, Octets::new(self.alloc)))
    }
}

// Some octets and others behind them, in a block with room for more.
fn in_one_block(alloc: Global, octets: &[u8], more: &[u8]) -> Result<Vec<u8>, NoMemory>
    ensures { IfOk result (λ block. block.items ≡ octets.now ++ more.now) }
{
    let len = octets.len().saturating_add(more.len());
    let twice = len.saturating_mul(2);
    let room = if len < MANY { twice } else { twice.max(ROOM) };
    let mut block = Vec::with_capacity(alloc, room)?;
    block.extend_from_slice(octets)?;
    block.extend_from_slice(more)?;
    Ok(block)
}

// Drops the octets before a place by moving the others to the front, where these are no more. Answers whether they are.
fn cut(block: &mut Vec<u8>, at: usize) -> bool
    requires { at ≤ length block.old.items }
    ensures cut { result ≡ true → block.new.items ≡ drop at block.old.items }
    ensures kept { result ≡ false → block.new.items ≡ block.old.items }
{
    let left = block.len() - at;
    if at < left {
        return false;
    }
    let (read, unread) = block.as_mut_slice().split_at_mut(at);
    read[..left].copy_from_slice(unread);
    block.truncate(left);
    true
}
