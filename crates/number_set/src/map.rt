// Values by number.
ghost use Rattle.std.specs.BTreeMap.{insert_entry, is_at};
ghost use Rattle.std.specs.List.{insert, remove};
ghost use Rattle.std.specs.Map.{remove_entry, set_value};
ghost use Rattle.std.specs.Ordering.{nat_cmp};
ghost use Rattle.std.specs.Prelude.{◌≡◌, ◌<◌, ◌≤◌, ◌∷◌, [], IfSome, IsNone, IsSome, MatchOption, MatchResult, None, OnErr, OnOk, Some, drop, length, true};

use io_ports::NoMemory;
use std::alloc::Global;
use std::collections::VecDeque;
use std::marker::Model;

/// A value for each of some numbers, in the order of the numbers, side by side. It is made for some hundreds, of which the
/// greatest come last and the first or the last go: of what stands before and behind a number that comes or goes the fewer
/// are moved, as one block.
#[derive(Drop)]
pub struct NumberMap<T> {
    items: VecDeque<(u64, T)>,
}

impl<T> Model for NumberMap<T> {
    ghost use Rattle.number_set.specs.NumberMap.{IsSorted};
    ghost use Rattle.std.specs.Prelude.{List, ℕ};

    ghost Value = { List (ℕ × T) };

    ghost view = { λ a. a.items.items };

    ghost invariant = { λ a. IsSorted a.items.items };
}

impl<T: Copy> NumberMap<T> {
    ghost use Rattle.number_set.specs.NumberMap.{IsAt, IsBelow, IsGap, Puts, value_of};

    /// None. Takes no memory.
    pub fn new(alloc: Global) -> Self
        ensures { result ≡ [] }
    {
        NumberMap {
            items: VecDeque::new(alloc),
        }
    }

    /// How many there are.
    pub fn len(&self) -> usize
        ensures { result ≡ length self.now }
    {
        self.items.len()
    }

    /// What a number has.
    pub fn get(&self, number: u64) -> Option<T>
        ensures { result ≡ value_of number self.now }
    {
        match self.place_of(number) {
            Ok(place) => Some(self.items[place].1),
            Err(_) => None,
        }
    }

    /// From now on the number has this value. After running out of memory nothing has changed.
    pub fn insert(&mut self, number: u64, value: T) -> Result<(), NoMemory>
        ensures ok { OnOk result (self.new ≡ insert_entry nat_cmp self.old number value) }
        ensures puts { OnOk result (Puts number (Some value) self.old self.new) }
        ensures err { OnErr result (self.new ≡ self.old) }
    {
        match self.place_of(number) {
            Ok(place) => self.items[place] = (number, value),
            Err(place) => put_in(&mut self.items, place, (number, value))?,
        }
        Ok(())
    }

    /// From now on a number that has a value has this one; one that has none stays without. Takes no memory.
    pub fn set(&mut self, number: u64, value: T)
        ensures set { self.new ≡ set_value (is_at (nat_cmp number)) self.old value }
        ensures puts { IsSome (value_of number self.old) → Puts number (Some value) self.old self.new }
    {
        if let Ok(place) = self.place_of(number) {
            self.items[place] = (number, value);
        }
    }

    /// From now on the number has no value. Takes no memory.
    pub fn remove(&mut self, number: u64)
        ensures removed { self.new ≡ remove_entry (is_at (nat_cmp number)) self.old }
        ensures puts { Puts number None self.old self.new }
        ensures none { IsNone (value_of number self.old) → self.new ≡ self.old }
    {
        if let Ok(place) = self.place_of(number) {
            take_out(&mut self.items, place);
        }
    }

    /// Takes out the least number with its value. None only where there is none.
    #[inline(always)]
    pub fn pop_first(&mut self) -> Option<(u64, T)>
        ensures first { MatchOption result (self.old ≡ []) (λ e. self.old ≡ e ∷ drop 1 self.old) }
        ensures rest { self.new ≡ drop 1 self.old }
    {
        self.items.pop_front()
    }

    // Where a number stands, or else where it would come. Most that are asked for stand last, and most that come are greater.
    #[inline(always)]
    fn place_of(&self, number: u64) -> Result<usize, usize>
        ensures { MatchResult result (λ i. IsAt number i self.now) (λ i. IsGap number i self.now) }
    {
        let Some(last) = self.items.back() else {
            return Err(0);
        };
        if last.0 == number {
            return Ok(self.items.len() - 1);
        }
        if number > last.0 {
            return Err(self.items.len());
        }
        self.search(number)
    }

    // The same without a look at the last: before all where the number is below the first, as numbers of streams that are closed
    // mostly are, or as far from the first as the number is, or else by halves. It isn't inlined, so that its code is there once
    // for all that look for a number.
    #[inline(never)]
    fn search(&self, number: u64) -> Result<usize, usize>
        ensures { MatchResult result (λ i. IsAt number i self.now) (λ i. IsGap number i self.now) }
    {
        if self.is_below_all(number) {
            return Err(0);
        }
        match self.guess(number) {
            Some(place) => Ok(place),
            None => self.by_halves(number),
        }
    }

    // Whether a number is below the first.
    #[inline(always)]
    fn is_below_all(&self, number: u64) -> bool
        ensures { result ≡ true → IsGap number 0 self.now }
    {
        match self.items.front() {
            Some(first) => number < first.0,
            None => false,
        }
    }

    // The place as far from the first as the number is, if the number stands there. Most are numbers of streams, which their
    // peer gives by twos: it does where none between them has gone.
    #[inline(always)]
    fn guess(&self, number: u64) -> Option<usize>
        ensures { IfSome result (λ i. IsAt number i self.now) }
    {
        let first = self.items.front()?;
        let ahead = number.checked_sub(first.0)?;
        let place = usize::try_from(ahead / 2).ok()?;
        self.at_place(place, number)
    }

    // The place, if a number stands there.
    #[inline(always)]
    fn at_place(&self, place: usize, number: u64) -> Option<usize>
        ensures { IfSome result (λ i. IsAt number i self.now) }
    {
        let Some(item) = self.items.get(place) else {
            return None;
        };
        if item.0 == number {
            return Some(place);
        }
        None
    }

    // The same by halves.
    #[inline(never)]
    fn by_halves(&self, number: u64) -> Result<usize, usize>
        ensures { MatchResult result (λ i. IsAt number i self.now) (λ i. IsGap number i self.now) }
    {
        let place = self.count_below(number);
        match self.items.get(place) {
            Some(item) => {
                if item.0 == number {
                    Ok(place)
                } else {
                    Err(place)
                }
            }
            None => Err(place),
        }
    }

    // How many are below a number.
    fn count_below(&self, number: u64) -> usize
        ensures { IsBelow number result self.now }
    {
        self.items.partition_point(|item| item.0 < number)
    }
}

// An item comes to a place. Most come last. After running out of memory nothing has changed.
#[inline(always)]
fn put_in<T: Copy>(
    items: &mut VecDeque<(u64, T)>,
    place: usize,
    item: (u64, T),
) -> Result<(), NoMemory>
    requires { place ≤ length items.old.items }
    ensures ok { OnOk result (items.new.items ≡ insert items.old.items place item) }
    ensures err { OnErr result (items.new.items ≡ items.old.items) }
{
    if place == items.len() {
        items.push_back(item)?;
        return Ok(());
    }
    put_between(items, place, item)
}

// The same wherever the place is. Few come before others, so it isn't inlined.
#[inline(never)]
fn put_between<T: Copy>(
    items: &mut VecDeque<(u64, T)>,
    place: usize,
    item: (u64, T),
) -> Result<(), NoMemory>
    requires { place ≤ length items.old.items }
    ensures ok { OnOk result (items.new.items ≡ insert items.old.items place item) }
    ensures err { OnErr result (items.new.items ≡ items.old.items) }
{
    items.insert(place, item)?;
    Ok(())
}

// An item goes. Most that go stand first.
#[inline(always)]
fn take_out<T: Copy>(items: &mut VecDeque<(u64, T)>, place: usize)
    requires { place < length items.old.items }
    ensures { items.new.items ≡ remove items.old.items place }
{
    if place == 0 {
        let _ = items.pop_front();
        return;
    }
    take_between(items, place);
}

// The same wherever the place is. Few go from between others, so it isn't inlined.
#[inline(never)]
fn take_between<T: Copy>(items: &mut VecDeque<(u64, T)>, place: usize)
    requires { place < length items.old.items }
    ensures { items.new.items ≡ remove items.old.items place }
{
    let _ = items.remove(place);
}
