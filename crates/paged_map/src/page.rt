// The values of 16 numbers that stand next to each other.
ghost use Rattle.paged_map.specs.Lends.{LendsSlot};
ghost use Rattle.number_set.specs.NumberSet.{first};
ghost use Rattle.paged_map.specs.Pages.{IsIndex, entries_from, width};
ghost use Rattle.std.specs.Borrow.{sem};
ghost use Rattle.std.specs.Map.{keys_of};
ghost use Rattle.std.specs.Option.{option_copied};
ghost use Rattle.std.specs.Prelude.{◌≡◌, ◌==◌, ◌<◌, ◌≤◌, ◌+◌, ◌*◌, IfOk, IfSome, None, Some, count_by, drop, false, is_some, length, slice_index_or, slice_set, true};

use io_ports::NoMemory;
use std::alloc::Global;
use std::marker::Model;

/// A page is for so many numbers.
pub(crate) const WIDTH: u64 = 16;

/// The values of 16 numbers that stand next to each other: a slot for each.
#[derive(Drop)]
pub(crate) struct Page<V> {
    // A 16th of each of its numbers.
    index: u64,
    // How many slots have a value.
    used: usize,
    slots: Vec<Option<V>>,
}

impl<V> Model for Page<V> {
    ghost use Rattle.paged_map.specs.Pages.{IsWhole};
    ghost use Rattle.std.specs.Prelude.{List, Option, ℕ};

    ghost Value = { ℕ × List (Option V) };

    ghost view = { λ p. (p.index, p.slots.items) };

    ghost invariant = { λ p. IsWhole p.index p.used p.slots.items };
}

impl<V> Page<V> {
    /// A page without values.
    pub(crate) fn new(alloc: Global, index: u64) -> Result<Self, NoMemory>
    where
        V: Drop,
        requires { IsIndex index }
        ensures index { IfOk result (λ page. page.0 ≡ index) }
        ensures blank { IfOk result (λ page. count_by is_some page.1 ≡ 0) }
        ensures long { IfOk result (λ page. length page.1 ≡ width) }
    {
        let slots = blank_slots(alloc)?;
        Ok(Page {
            index,
            used: 0,
            slots,
        })
    }

    /// A page without values is for these numbers from now on.
    pub(crate) fn turn(&mut self, index: u64)
        requires { IsIndex index }
        ensures { self.new ≡ (index, self.old.1) }
    {
        self.index = index;
    }

    #[inline(always)]
    pub(crate) fn index(&self) -> u64
        ensures { result ≡ self.now.0 }
    {
        self.index
    }

    /// Whether no number has a value.
    #[inline(always)]
    pub(crate) fn is_blank(&self) -> bool
        ensures { result ≡ (count_by is_some self.now.1 == 0) }
    {
        self.used == 0
    }

    #[inline(always)]
    pub(crate) fn get(&self, slot: usize) -> Option<&V>
        requires { slot < width }
        ensures { option_copied result ≡ slice_index_or self.now.1 slot None }
    {
        match &self.slots[slot] {
            Some(value) => Some(value),
            None => None,
        }
    }

    /// Whether the slot has a value.
    #[inline(always)]
    pub(crate) fn has(&self, slot: usize) -> bool
        requires { slot < width }
        ensures { result ≡ is_some (slice_index_or self.now.1 slot None) }
    {
        self.slots[slot].is_some()
    }

    /// The least number that has a value, from a slot on.
    pub(crate) fn first_from(&self, from: usize) -> Option<u64>
        requires { from ≤ width }
        ensures { result ≡ first (keys_of (entries_from (self.now.0 * width + from) (drop from self.now.1))) }
    {
        let mut slot = from;
        while slot < self.slots.len() {
            if self.slots[slot].is_some() {
                return Some(self.index * WIDTH + slot as u64);
            }
            slot += 1;
        }
        None
    }

    /// The value of a slot that has one, to be changed.
    #[inline(always)]
    pub(crate) fn value_mut(&mut self, slot: usize) -> &mut V
        requires slot { slot < width }
        requires there { is_some (slice_index_or self.old.1 slot None) ≡ true }
        ensures* writes_back { sem 𝓛 (LendsSlot V.row self.entry slot result) }
        ensures value { slice_index_or self.old.1 slot None ≡ Some result.now }
    {
        match &mut self.slots[slot] {
            Some(value) => value,
            None => unreachable!(),
        }
    }

    /// The slot has this value from now on. Answers what it had.
    pub(crate) fn put(&mut self, slot: usize, value: V) -> Option<V>
        requires { slot < width }
        ensures old { result ≡ slice_index_or self.old.1 slot None }
        ensures new { self.new ≡ (self.old.0, slice_set self.old.1 slot (Some value)) }
    {
        let old = self.slots[slot].replace(value);
        if old.is_none() {
            self.used += 1;
        }
        old
    }

    /// The slot has this value from now on; one that it had is dropped. Answers whether it had one.
    #[inline(always)]
    pub(crate) fn set(&mut self, slot: usize, value: V) -> bool
    where
        V: Drop,
        requires { slot < width }
        ensures had { result ≡ is_some (slice_index_or self.old.1 slot None) }
        ensures new { self.new ≡ (self.old.0, slice_set self.old.1 slot (Some value)) }
    {
        if self.has(slot) {
            self.renew(slot, value);
            return true;
        }
        self.fill(slot, value);
        false
    }

    // The slot has this value from now on, and what it had is dropped. Few have a value before, so it isn't inlined.
    #[inline(never)]
    fn renew(&mut self, slot: usize, value: V)
    where
        V: Drop,
        requires { slot < width }
        ensures { self.new ≡ (self.old.0, slice_set self.old.1 slot (Some value)) }
    {
        drop(self.put(slot, value));
    }

    // A slot without a value has this one from now on.
    #[inline(always)]
    fn fill(&mut self, slot: usize, value: V)
    where
        V: Drop,
        requires slot { slot < width }
        requires none { is_some (slice_index_or self.old.1 slot None) ≡ false }
        ensures { self.new ≡ (self.old.0, slice_set self.old.1 slot (Some value)) }
    {
        self.slots[slot] = Some(value);
        self.used += 1;
    }

    /// The slot has no value from now on. Answers what it had.
    pub(crate) fn take(&mut self, slot: usize) -> Option<V>
        requires { slot < width }
        ensures old { result ≡ slice_index_or self.old.1 slot None }
        ensures new { self.new ≡ (self.old.0, slice_set self.old.1 slot None) }
    {
        let old = self.slots[slot].take();
        if old.is_some() {
            self.used -= 1;
        }
        old
    }

    /// A slot that has a value has none from now on: the value is dropped where it lies, and isn't moved out first.
    #[inline(always)]
    pub(crate) fn discard(&mut self, slot: usize)
    where
        V: Drop,
        requires slot { slot < width }
        requires there { is_some (slice_index_or self.old.1 slot None) ≡ true }
        ensures { self.new ≡ (self.old.0, slice_set self.old.1 slot None) }
    {
        self.slots[slot] = None;
        self.used -= 1;
    }
}

/// A page without values that is kept for the next that comes, if there is one.
#[derive(Drop)]
pub(crate) struct Spare<V> {
    page: Option<Page<V>>,
}

impl<V> Model for Spare<V> {
    ghost use Rattle.std.specs.Prelude.{◌≡◌, IfSome, List, Option, count_by, is_some, ℕ};

    ghost Value = { Option (ℕ × List (Option V)) };

    ghost view = { λ s. s.page };

    ghost invariant = { λ s. IfSome s.page (λ page. count_by is_some page.1 ≡ 0) };
}

impl<V> Spare<V> {
    /// None is kept.
    pub(crate) fn none() -> Self {
        Spare { page: None }
    }

    /// A page without values for these numbers: the one that is kept, or else a new one.
    pub(crate) fn take(&mut self, alloc: Global, index: u64) -> Result<Page<V>, NoMemory>
    where
        V: Drop,
        requires { IsIndex index }
        ensures index { IfOk result (λ page. page.0 ≡ index) }
        ensures blank { IfOk result (λ page. count_by is_some page.1 ≡ 0) }
        ensures long { IfOk result (λ page. length page.1 ≡ width) }
    {
        match self.page.take() {
            Some(mut page) => {
                page.turn(index);
                Ok(page)
            }
            None => Page::new(alloc, index),
        }
    }

    /// A page without values is kept from now on, and no other.
    pub(crate) fn keep(&mut self, page: Page<V>)
    where
        V: Drop,
        requires { count_by is_some page.1 ≡ 0 }
    {
        self.page = Some(page);
    }
}

fn blank_slots<V: Drop>(alloc: Global) -> Result<Vec<Option<V>>, NoMemory>
    ensures blank { IfOk result (λ slots. count_by is_some slots.items ≡ 0) }
    ensures long { IfOk result (λ slots. length slots.items ≡ width) }
{
    let mut slots = Vec::with_capacity(alloc, WIDTH as usize)?;
    while slots.len() < WIDTH as usize {
        slots.push(None)?;
    }
    Ok(slots)
}
