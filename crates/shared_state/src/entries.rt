// What is published under one version, and how it is shown to all readers.
ghost use Rattle.std.specs.Prelude.{◌≡◌, ◌≤◌, ◌<◌, ◌^◌, length, replicate};
ghost use Rattle.shared_state.specs.Entries.{padded};

use left_right::Absorb;
use std::alloc::AllocError;

/// The most resources, and so the most pressures of a version.
pub const RESOURCES: usize = 16;

/// The pressures of one version, 0 of each resource that isn't there. Version 0 has 0 of each.
#[derive(Clone, Copy, Debug)]
pub struct Entry {
    pub version: u64,
    pub pressures: [u32; 16],
    ghost numbered: { version < 2 ^ 63 },
}

impl Entry {
    /// Version 0: all pressures are 0.
    pub(crate) fn opening() -> Entry
        ensures { (result.version ≡ 0) × (result.pressures ≡ replicate 16 0) }
    {
        Entry {
            version: 0,
            pressures: [0; RESOURCES],
        }
    }

    /// An entry of at most 16 pressures.
    pub(crate) fn of(version: u64, pressures: &[u32]) -> Entry
        requires version { version < 2 ^ 63 }
        requires len { length pressures.now ≤ 16 }
        ensures { (result.version ≡ version) × (result.pressures ≡ padded pressures.now) }
    {
        let mut all = [0; RESOURCES];
        all[..pressures.len()].copy_from_slice(pressures);
        Entry {
            version,
            pressures: all,
        }
    }
}

/// An entry takes the place of the one before.
impl Absorb<Entry> for Entry {
    type State = Entry;

    ghost state = { λ e. e };

    ghost applied = { λ _ e. e };

    ghost never_fails = { Unit {0} };

    fn absorb_first(&mut self, operation: &Entry, _other: &Entry) -> Result<(), AllocError> {
        *self = *operation;
        Ok(())
    }
}
