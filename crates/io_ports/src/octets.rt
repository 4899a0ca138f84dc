// Lists of octets and of pressures, and out of memory.
ghost use Rattle.std.specs.Arc.{arc_value};
ghost use Rattle.std.specs.Prelude.{◌≡◌, ◌==◌, ◌+◌, ◌-◌, ◌∷◌, ◌≤◌, List, ℕ, [], ◌++◌, drop, false, length, take, true, IfOk, IfSome, OnOk, OnErr};

use crate::store::{Store, front, is_before, part_of};
use std::alloc::{AllocError, AllocFailed, Global};
use std::error::Error;
use std::fmt;
use std::marker::Model;
use std::sync::Arc;

/// Out of memory.
#[derive(Clone, Copy, Debug, PartialEq, Eq)]
pub struct NoMemory;

impl fmt::Display for NoMemory {
    fn fmt<W: fmt::Write>(&self, f: &mut fmt::Formatter<W>) -> fmt::Result {
        f.write_str("out of memory")
    }
}

impl Error for NoMemory {}

impl From<AllocError> for NoMemory {
    fn from(_: AllocError) -> Self {
        NoMemory
    }
}

impl<T: Drop> From<AllocFailed<T>> for NoMemory {
    fn from(_: AllocFailed<T>) -> Self {
        NoMemory
    }
}

/// Octets share a block of at most so many times as many.
const SHARE: usize = 8;

/// A list of octets.
#[derive(Drop)]
pub struct Octets {
    alloc: Global,
    store: Store,
}

impl Model for Octets {
    ghost use Rattle.std.specs.Prelude.{List, ℕ};
    ghost use Rattle.io_ports.specs.Stores.{stored, Reaches};

    ghost Value = { List ℕ };

    ghost view = { λ a. stored a.store };

    ghost invariant = { λ a. Reaches a.store };
}

// By hand, so that the same octets have the same text wherever they are.
impl fmt::Debug for Octets {
    fn fmt<W: fmt::Write>(&self, f: &mut fmt::Formatter<W>) -> fmt::Result {
        fmt::Debug::fmt(&self.as_slice(), f)
    }
}

impl Octets {
    /// No octets. Takes no memory.
    pub fn new(alloc: Global) -> Self
        ensures { result ≡ [] }
    {
        Octets::from_vec(Vec::new(alloc))
    }

    /// The octets of a vector. Takes no memory.
    pub fn from_vec(bytes: Vec<u8>) -> Self
        ensures { result ≡ bytes.items }
    {
        Octets {
            alloc: *bytes.allocator(),
            store: Store::Own(bytes),
        }
    }

    /// A copy of the octets of a slice. Of at most 16 octets it takes no memory.
    pub fn from_slice(alloc: Global, octets: &[u8]) -> Result<Self, NoMemory>
        ensures { IfOk result (λ made. made ≡ octets.now) }
    {
        Ok(Octets {
            alloc,
            store: Store::copy_of(alloc, octets)?,
        })
    }

    /// The same octets in a block of memory that copies share, unless they are few.
    pub fn shared(self) -> Result<Self, NoMemory>
        ensures { IfOk result (λ shared. shared ≡ self) }
    {
        let Octets { alloc, store } = self;
        let store = store.shared(alloc)?;
        Ok(Octets { alloc, store })
    }

    /// So many octets of a block from a place on. Where they are an eighth of it or more they share it, so that a block is never
    /// kept for few of its octets, and else they are copied.
    pub fn within(
        alloc: Global,
        block: &Arc<Vec<u8>>,
        from: usize,
        len: usize,
    ) -> Result<Self, NoMemory>
        requires { from + len ≤ length (arc_value block.now).items }
        ensures { IfOk result (λ made. made ≡ take len (drop from (arc_value block.now).items)) }
    {
        if len < block.len() / SHARE {
            return Octets::from_slice(alloc, part_of(block.as_slice(), from, len));
        }
        Ok(Octets {
            alloc,
            store: Store::within(block, from, len)?,
        })
    }

    /// So many of the octets from a place on. Of octets in a block that is shared they share it too, where they are an eighth of it
    /// or more.
    #[tactic(auto, using(crate::proofs::Parts::part_of_part))]
    pub fn part(&self, from: usize, n: usize) -> Result<Self, NoMemory>
        requires { from + n ≤ length self.now }
        ensures { IfOk result (λ part. part ≡ take n (drop from self.now)) }
    {
        if let Store::Shared {
            block,
            from: first,
            ..
        } = &self.store
        {
            return Octets::within(self.alloc, block, *first + from, n);
        }
        Octets::from_slice(self.alloc, part_of(self.as_slice(), from, n))
    }

    /// The same octets in the block that these share, if they share one. Takes no memory.
    pub fn lent(&self) -> Option<Self>
        ensures { IfSome result (λ lent. lent ≡ self.now) }
    {
        let Store::Shared {
            block,
            from,
            len: n,
        } = &self.store
        else {
            return None;
        };
        let Ok(block) = Arc::try_clone(block) else {
            return None;
        };
        Some(Octets {
            alloc: self.alloc,
            store: Store::Shared {
                block,
                from: *from,
                len: *n,
            },
        })
    }

    /// Takes in the octets that stand before these in their block, where they are the same as those that are named. Nothing is copied.
    /// Answers whether they are.
    #[tactic(auto, using(crate::proofs::Parts::grown))]
    pub fn take_in_front(&mut self, before: &[u8]) -> bool
        ensures taken { result ≡ true → self.new ≡ before.now ++ self.old }
        ensures same { result ≡ false → self.new ≡ self.old }
    {
        let Store::Shared { block, from, len } = &mut self.store else {
            return false;
        };
        if !is_before(block.as_slice(), *from, before) {
            return false;
        }
        *from -= before.len();
        *len += before.len();
        true
    }

    /// A copy. Of octets that are few or shared it takes no memory.
    #[inline(always)]
    pub fn copied(&self) -> Result<Self, NoMemory>
        ensures { IfOk result (λ copy. copy ≡ self.now) }
    {
        let store = match &self.store {
            Store::Own(bytes) => Store::copy_of(self.alloc, bytes.as_slice())?,
            Store::Few { len: few, octets } => Store::Few {
                len: *few,
                octets: *octets,
            },
            Store::Shared { block, from, len } => Store::Shared {
                block: Arc::try_clone(block)?,
                from: *from,
                len: *len,
            },
        };
        Ok(Octets {
            alloc: self.alloc,
            store,
        })
    }

    /// Appends a piece. After running out of memory the octets are as they were.
    pub fn push_all(&mut self, piece: &[u8]) -> Result<(), NoMemory>
        ensures ok { OnOk result (self.new ≡ self.old ++ piece.now) }
        ensures err { OnErr result (self.new ≡ self.old) }
    {
        if let Store::Own(bytes) = &mut self.store {
            bytes.extend_from_slice(piece)?;
            return Ok(());
        }
        let mut own = Vec::from_slice(self.alloc, self.as_slice())?;
        own.extend_from_slice(piece)?;
        self.store = Store::Own(own);
        Ok(())
    }

    /// Drops all octets, and keeps their room.
    pub fn clear(&mut self)
        ensures { self.new ≡ [] }
    {
        self.truncate(0);
    }

    /// Keeps the first octets, at most so many, and all the room.
    pub fn truncate(&mut self, len: usize)
        ensures { self.new ≡ take len self.old }
    {
        match &mut self.store {
            Store::Own(bytes) => bytes.truncate(len),
            Store::Few { len: all, .. } => *all = len.min(*all as usize) as u32,
            Store::Shared { len: all, .. } => *all = len.min(*all),
        }
    }

    pub fn as_slice(&self) -> &[u8]
        ensures { result.now ≡ self.now }
    {
        match &self.store {
            Store::Own(bytes) => bytes.as_slice(),
            Store::Few { len, octets } => front(octets, *len as usize),
            Store::Shared { block, from, len } => part_of(block.as_slice(), *from, *len),
        }
    }

    pub fn len(&self) -> usize
        ensures { result ≡ length self.now }
    {
        match &self.store {
            Store::Own(bytes) => bytes.len(),
            Store::Few { len, .. } => *len as usize,
            Store::Shared { len, .. } => *len,
        }
    }

    pub fn is_empty(&self) -> bool
        ensures { result ≡ (length self.now == 0) }
    {
        self.len() == 0
    }
}

/// A list of pressures, in parts per million.
#[derive(Debug, Drop)]
pub struct PressureList {
    pressures: Vec<u32>,
}

impl Model for PressureList {
    ghost Value = { List ℕ };

    ghost view = { λ a. a.pressures.items };
}

impl PressureList {
    /// No pressures. Takes no memory.
    pub fn new(alloc: Global) -> Self
        ensures { result ≡ [] }
    {
        PressureList {
            pressures: Vec::new(alloc),
        }
    }

    /// The pressures of a vector. Takes no memory.
    pub fn from_vec(pressures: Vec<u32>) -> Self
        ensures { result ≡ pressures.items }
    {
        PressureList { pressures }
    }

    /// A copy of the pressures of a slice.
    pub fn from_slice(alloc: Global, pressures: &[u32]) -> Result<Self, NoMemory>
        ensures { IfOk result (λ made. made ≡ pressures.now) }
    {
        Ok(PressureList {
            pressures: Vec::from_slice(alloc, pressures)?,
        })
    }

    /// Appends a pressure. After running out of memory the list is as it was.
    pub fn push(&mut self, pressure: u32) -> Result<(), NoMemory>
        ensures ok { OnOk result (self.new ≡ self.old ++ pressure ∷ []) }
        ensures err { OnErr result (self.new ≡ self.old) }
    {
        self.pressures.push(pressure)?;
        Ok(())
    }

    pub fn as_slice(&self) -> &[u32]
        ensures { result.now ≡ self.now }
    {
        self.pressures.as_slice()
    }

    /// The vector of these pressures. Takes no memory.
    pub fn into_vec(self) -> Vec<u32>
        ensures { result.items ≡ self }
    {
        self.pressures
    }

    pub fn len(&self) -> usize
        ensures { result ≡ length self.now }
    {
        self.pressures.len()
    }

    pub fn is_empty(&self) -> bool
        ensures { result ≡ (length self.now == 0) }
    {
        self.pressures.is_empty()
    }
}
