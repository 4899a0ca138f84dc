// Values by number.
ghost use Rattle.number_set.specs.NumberMap.{IsSorted};
ghost use Rattle.number_set.specs.NumberSet.{first_above};
ghost use Rattle.paged_map.specs.Lends.{LendsValue};
ghost use Rattle.paged_map.specs.PagedMap.{Updates, value_at};
ghost use Rattle.std.specs.Borrow.{sem};
ghost use Rattle.std.specs.BTreeMap.{insert_entry, is_at};
ghost use Rattle.std.specs.Map.{keys_of, remove_entry};
ghost use Rattle.std.specs.Option.{option_copied, option_copied_mut, option_map};
ghost use Rattle.std.specs.Ordering.{nat_cmp};
ghost use Rattle.std.specs.Prelude.{◌≡◌, ◌<◌, ◌≤◌, ◌+◌, ◌^◌, [], if◌then◌else◌, IfOk, IfSome, IsSomeAnd, None, OnErr, OnOk, Some, ℕ, is_some, length, true};

use crate::key::Key;
use crate::page::{Page, Spare, WIDTH};
use crate::pages::{clear, find, next, on_last, page_for, search};
use io_ports::NoMemory;
use std::alloc::Global;
use std::marker::{Model, PhantomData};

/// At most so many values.
const MOST: usize = (1 << 63) - 1;

/// Values by number, in the order of the numbers. A look-up goes by halves through pages of 16 numbers, of which the last is
/// looked at first: it is made for numbers that are given in rising order, and for greatest ones that are asked most.
#[derive(Drop)]
pub struct PagedMap<K: Key, V> {
    alloc: Global,
    keys: PhantomData<K>,
    len: usize,
    // In the order of their indexes. None is blank but the last.
    pages: Vec<Page<V>>,
    // A page that went, for the next that comes.
    spare: Spare<V>,
}

impl<K: Key, V> Model for PagedMap<K, V> {
    ghost use Rattle.paged_map.specs.PagedMap.{PagedMap as Entries, map_code};

    ghost Value = { Entries V };

    ghost coded = { map_code V.code };

    ghost use Rattle.paged_map.specs.Pages.{AreBelow, AreKept, entries_on};

    ghost view = { λ m. record { entries = entries_on m.pages.items } };

    ghost invariant = { λ m. AreKept m.len m.pages.items × AreBelow K.bound (entries_on m.pages.items) };
}

impl<K: Key, V> PagedMap<K, V> {
    /// An empty map. Takes no memory.
    pub fn new(alloc: Global) -> Self
        ensures empty { result.entries ≡ [] }
        ensures ordered { IsSorted result.entries }
    {
        PagedMap {
            alloc,
            keys: PhantomData,
            len: 0,
            pages: Vec::new(alloc),
            spare: Spare::none(),
        }
    }

    /// The number of entries, below 2^63.
    #[inline(always)]
    pub fn len(&self) -> usize
        ensures len { result ≡ length self.now.entries }
        ensures small { result < 2 ^ 63 }
        ensures ordered { IsSorted self.now.entries }
    {
        self.len
    }

    /// Whether the map has a value for the key.
    #[inline(always)]
    pub fn contains_key(&self, key: &K) -> bool
        ensures { result ≡ is_some (value_at (K.number key.now) self.now) }
    {
        self.get(key).is_some()
    }

    /// The value of the key, if there is one.
    #[inline(always)]
    pub fn get(&self, key: &K) -> Option<&V>
        ensures value { option_copied result ≡ value_at (K.number key.now) self.now }
    {
        let number = key.number();
        match on_last(self.pages.as_slice(), number / WIDTH) {
            Some(place) => self.pages[place].get((number % WIDTH) as usize),
            None => self.get_far(*key),
        }
    }

    // The same where the key isn't on the last page. It isn't inlined, so that a look-up on the last page stays short wherever it
    // stands.
    #[inline(never)]
    fn get_far(&self, key: K) -> Option<&V>
        ensures value { option_copied result ≡ value_at (K.number key) self.now }
    {
        let number = key.number();
        match search(self.pages.as_slice(), number / WIDTH) {
            Ok(place) => self.pages[place].get((number % WIDTH) as usize),
            Err(_) => None,
        }
    }

    /// The least key above `after` that has a value, and None only where there is none.
    pub fn next_above(&self, after: K) -> Option<K>
        ensures next { option_map K.number result ≡ first_above (K.number after) (keys_of self.now.entries) }
        ensures found { IfSome result (λ k. (K.number after < K.number k) × (is_some (value_at (K.number k) self.now) ≡ true)) }
        ensures least { (n : ℕ) → K.number after < n → is_some (value_at n self.now) ≡ true → IsSomeAnd result (λ k. K.number k ≤ n) }
    {
        match next(self.pages.as_slice(), after.number()) {
            Some(number) => Some(K::of(number)),
            None => None,
        }
    }

    /// The value of the key, if there is one, to be changed in place: what is written there is its value from then on, and no
    /// other key's changes.
    #[inline(always)]
    pub fn get_mut(&mut self, key: &K) -> Option<&mut V>
        ensures* writes_back { sem 𝓛 (LendsValue K.row V.row K.Key self.entry (K.number key.now) result) }
        ensures value { option_copied_mut result ≡ value_at (K.number key.now) self.old }
        ensures ordered { IsSorted self.old.entries }
    {
        let number = key.number();
        let slot = (number % WIDTH) as usize;
        match find(self.pages.as_slice(), number / WIDTH) {
            Ok(place) => {
                if self.pages[place].has(slot) {
                    Some(self.pages[place].value_mut(slot))
                } else {
                    None
                }
            }
            Err(_) => None,
        }
    }

    /// Gives the key this value, and answers the one before, if there was one. After running out of memory, or at 2^63 - 1
    /// entries, nothing has changed.
    pub fn insert(&mut self, key: K, value: V) -> Result<Option<V>, NoMemory>
    where
        V: Drop,
        ensures old { IfOk result (λ old. old ≡ value_at (K.number key) self.old) }
        ensures updates { OnOk result (Updates (K.number key) self.old self.new (Some value)) }
        ensures entries { OnOk result (self.new.entries ≡ insert_entry nat_cmp self.old.entries (K.number key) value) }
        ensures len { IfOk result (λ old. length self.new.entries ≡ length self.old.entries + (if is_some old then 0 else 1)) }
        ensures ordered { IsSorted self.new.entries }
        ensures err { OnErr result (self.new ≡ self.old) }
    {
        let number = key.number();
        if self.len == MOST {
            return Err(NoMemory);
        }
        let place = page_for(&mut self.pages, &mut self.spare, self.alloc, number / WIDTH)?;
        let old = self.pages[place].put((number % WIDTH) as usize, value);
        if old.is_some() {
            return Ok(old);
        }
        self.len += 1;
        Ok(old)
    }

    /// Gives the key this value, as `insert`; one that it had is dropped. After running out of memory, or at 2^63 - 1 entries,
    /// nothing has changed.
    #[inline(always)]
    pub fn put(&mut self, key: K, value: V) -> Result<(), NoMemory>
    where
        V: Drop,
        ensures updates { OnOk result (Updates (K.number key) self.old self.new (Some value)) }
        ensures entries { OnOk result (self.new.entries ≡ insert_entry nat_cmp self.old.entries (K.number key) value) }
        ensures ordered { IsSorted self.new.entries }
        ensures err { OnErr result (self.new ≡ self.old) }
    {
        let number = key.number();
        if self.len == MOST {
            return Err(NoMemory);
        }
        let place = page_for(&mut self.pages, &mut self.spare, self.alloc, number / WIDTH)?;
        if self.pages[place].set((number % WIDTH) as usize, value) {
            return Ok(());
        }
        self.len += 1;
        Ok(())
    }

    /// Takes out the value of the key, and answers it, if there was one. Takes no memory.
    pub fn remove(&mut self, key: &K) -> Option<V>
    where
        V: Drop,
        ensures value { result ≡ value_at (K.number key.now) self.old }
        ensures updates { Updates (K.number key.now) self.old self.new None }
        ensures entries { self.new.entries ≡ remove_entry (is_at (nat_cmp (K.number key.now))) self.old.entries }
        ensures len { length self.new.entries + (if is_some result then 1 else 0) ≡ length self.old.entries }
        ensures ordered { IsSorted self.new.entries }
    {
        let number = key.number();
        let Ok(place) = find(self.pages.as_slice(), number / WIDTH) else {
            return None;
        };
        let slot = (number % WIDTH) as usize;
        if !self.pages[place].has(slot) {
            return None;
        }
        let old = self.pages[place].take(slot);
        self.len -= 1;
        clear(&mut self.pages, &mut self.spare, place);
        old
    }

    /// Takes out the value of the key, as `remove`, if there is one, and drops it where it lies: it isn't moved out, and no
    /// answer tells of it. Takes no memory.
    #[inline(always)]
    pub fn discard(&mut self, key: &K)
    where
        V: Drop,
        ensures updates { Updates (K.number key.now) self.old self.new None }
        ensures entries { self.new.entries ≡ remove_entry (is_at (nat_cmp (K.number key.now))) self.old.entries }
        ensures len { length self.new.entries + (if is_some (value_at (K.number key.now) self.old) then 1 else 0) ≡ length self.old.entries }
        ensures ordered { IsSorted self.new.entries }
    {
        let number = key.number();
        let Ok(place) = find(self.pages.as_slice(), number / WIDTH) else {
            return;
        };
        let slot = (number % WIDTH) as usize;
        if self.pages[place].has(slot) {
            self.pages[place].discard(slot);
            self.len -= 1;
            clear(&mut self.pages, &mut self.spare, place);
        }
    }
}
