// Where octets are kept.
ghost use Rattle.std.specs.Arc.{arc_value};
ghost use Rattle.std.specs.Prelude.{◌≡◌, ◌+◌, ◌-◌, ◌≤◌, drop, length, take, true, IfOk};

use crate::octets::NoMemory;
use std::alloc::Global;
use std::sync::Arc;

/// So many octets need no block of memory.
const FEW: usize = 16;

/// Where octets are kept.
pub(crate) enum Store {
    /// Here: the first so many of these. The length stands first and there are sixteen, so that both lie as the words of the
    /// other variants do: a processor stalls where it reads a word that was written in other pieces.
    Few {
        len: u32,
        octets: [u8; FEW],
    },
    /// In a block of memory of their own.
    Own(Vec<u8>),
    /// In a block of memory that others may have too: so many of it from a place on.
    Shared {
        block: Arc<Vec<u8>>,
        from: usize,
        len: usize,
    },
}

// By hand, so that the drop of octets is one call wherever they are.
impl Drop for Store {
    #[inline]
    fn drop(self) {
        match self {
            Store::Own(bytes) => drop(bytes),
            Store::Shared {
                block,
                from: _,
                len: _,
            } => drop(block),
            Store::Few { len: _, octets: _ } => {}
        }
    }
}

impl Store {
    ghost use Rattle.io_ports.specs.Stores.{stored, Reaches};

    /// A copy of a slice. Of few octets it takes no memory.
    pub(crate) fn copy_of(alloc: Global, octets: &[u8]) -> Result<Self, NoMemory>
        ensures { IfOk result (λ store. (stored store ≡ octets.now) × Reaches store) }
    {
        if octets.len() > FEW {
            return Ok(Store::Own(Vec::from_slice(alloc, octets)?));
        }
        Ok(Store::few(octets))
    }

    /// A copy of few octets.
    fn few(octets: &[u8]) -> Self
        requires { length octets.now ≤ 16 }
        ensures { (stored result ≡ octets.now) × Reaches result }
    {
        let mut few = [0; FEW];
        few[..octets.len()].copy_from_slice(octets);
        Store::Few {
            len: octets.len() as u32,
            octets: few,
        }
    }

    /// The same octets in a block that copies share, unless they are few.
    pub(crate) fn shared(self, alloc: Global) -> Result<Self, NoMemory>
        requires { Reaches self }
        ensures { IfOk result (λ shared. (stored shared ≡ stored self) × Reaches shared) }
    {
        match self {
            Store::Own(bytes) => {
                let len = bytes.len();
                let block = Arc::new(alloc, bytes)?;
                Ok(Store::Shared {
                    block,
                    from: 0,
                    len,
                })
            }
            Store::Few { len, octets } => Ok(Store::Few { len, octets }),
            Store::Shared { block, from, len } => Ok(Store::Shared { block, from, len }),
        }
    }

    /// So many octets of a block from a place on, which share it.
    pub(crate) fn within(block: &Arc<Vec<u8>>, from: usize, len: usize) -> Result<Self, NoMemory>
        requires { from + len ≤ length (arc_value block.now).items }
        ensures { IfOk result (λ store. (stored store ≡ take len (drop from (arc_value block.now).items)) × Reaches store) }
    {
        Ok(Store::Shared {
            block: Arc::try_clone(block)?,
            from,
            len,
        })
    }
}

/// Whether these octets stand before a place.
pub(crate) fn is_before(octets: &[u8], at: usize, before: &[u8]) -> bool
    requires { at ≤ length octets.now }
    ensures reach { result ≡ true → length before.now ≤ at }
    ensures stand { result ≡ true → take (length before.now) (drop (at - length before.now) octets.now) ≡ before.now }
{
    before.len() <= at && part_of(octets, at - before.len(), before.len()) == before
}

/// So many octets from a place on.
pub(crate) fn part_of(octets: &[u8], from: usize, len: usize) -> &[u8]
    requires { from + len ≤ length octets.now }
    ensures { result.now ≡ take len (drop from octets.now) }
{
    let (_, behind) = octets.split_at(from);
    let (part, _) = behind.split_at(len);
    part
}

/// The first octets, at most so many.
pub(crate) fn front(octets: &[u8], len: usize) -> &[u8]
    ensures { result.now ≡ take len octets.now }
{
    let (front, _) = octets.split_at(len.min(octets.len()));
    front
}
