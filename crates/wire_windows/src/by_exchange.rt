// Values by exchange.
ghost use Rattle.std.specs.FinMap.{empty, get, insert, len, remove};
ghost use Rattle.std.specs.Prelude.{◌≡◌, ◌^◌, ◌<◌, IsSome, OnErr, OnOk};

mod owing;
mod shifts;

use io_ports::NoMemory;
use paged_map::PagedMap;
use std::alloc::Global;
use std::marker::Model;

/// A value for each of some exchanges, found by the exchange's number.
#[derive(Drop)]
pub(crate) struct ByExchange<T> {
    map: PagedMap<u64, T>,
}

impl<T> Model for ByExchange<T> {
    ghost use Rattle.std.specs.Coded.{coded_ℕ};
    ghost use Rattle.std.specs.FinMap.{FinMap, code, from_entries};
    ghost use Rattle.std.specs.Ordering.{nat_cmp};

    ghost Value = { FinMap nat_cmp T };

    ghost coded = { code coded_ℕ T.code };

    ghost view = { λ a. from_entries a.map.entries };
}

impl<T: Copy> ByExchange<T> {
    /// No values. Takes no memory.
    pub(crate) fn new(alloc: Global) -> Self
        ensures { result ≡ empty }
    {
        ByExchange {
            map: PagedMap::new(alloc),
        }
    }

    /// How many exchanges have a value.
    pub(crate) fn len(&self) -> usize
        ensures len { result ≡ len self.now }
        ensures small { result < 2 ^ 63 }
    {
        self.map.len()
    }

    pub(crate) fn get(&self, x: u64) -> Option<T>
        ensures { result ≡ get self.now x }
    {
        self.map.get(&x).copied()
    }

    /// From now on the exchange has this value.
    pub(crate) fn put(&mut self, x: u64, value: T) -> Result<(), NoMemory>
        ensures ok { OnOk result (self.new ≡ insert self.old x value) }
        ensures err { OnErr result (self.new ≡ self.old) }
    {
        let _ = self.map.insert(x, value)?;
        Ok(())
    }

    /// An exchange that has a value has this one from now on. Takes no memory.
    pub(crate) fn set(&mut self, x: u64, value: T)
        requires { IsSome (get self.old x) }
        ensures { self.new ≡ insert self.old x value }
    {
        let Some(found) = self.map.get_mut(&x) else {
            unreachable!()
        };
        *found = value;
    }

    /// From now on the exchange has no value.
    pub(crate) fn remove(&mut self, x: u64)
        ensures { self.new ≡ remove self.old x }
    {
        let _ = self.map.remove(&x);
    }
}
