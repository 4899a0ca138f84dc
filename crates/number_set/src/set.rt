// A set of numbers in order.
ghost use Rattle.number_set.specs.NumberSet.{IsFoundAt, IsGapAt, Rises, first, first_above, has, marked};
ghost use Rattle.std.specs.List.{insert, remove};
ghost use Rattle.std.specs.Prelude.{◌≡◌, ◌+◌, ◌-◌, ◌<◌, ◌≤◌, ◌==◌, ℕ, [], IsSomeAnd, IfSome, MatchResult, OnOk, false, if◌then◌else◌, length, slice_get, slice_index, take, true, vec_capacity};

use io_ports::NoMemory;
use std::alloc::Global;
use std::marker::Model;

/// A set of numbers, in the order of the numbers. Once the room for a number is made, it comes and goes without memory. What
/// stands behind a number that comes or goes is moved as one block.
#[derive(Drop)]
pub struct NumberSet {
    items: Vec<u64>,
}

impl Model for NumberSet {
    ghost use Rattle.number_set.specs.NumberSet.{NumberSet};

    ghost Value = { NumberSet };

    ghost use Rattle.number_set.specs.NumberSet.{IsKept, set_of};

    ghost view = { set_of };

    ghost invariant = { IsKept };
}

impl NumberSet {
    /// None, and room for none. Takes no memory.
    pub fn new(alloc: Global) -> Self
        ensures { result.items ≡ [] }
    {
        NumberSet {
            items: Vec::new(alloc),
        }
    }

    /// How many there are.
    pub fn len(&self) -> usize
        ensures len { result ≡ length self.now.items }
    {
        self.items.len()
    }

    /// Makes room for one number more. Without memory the set is as it was.
    pub fn reserve_one(&mut self) -> Result<(), NoMemory>
        ensures items { self.new.items ≡ self.old.items }
        ensures room { OnOk result (length self.new.items < self.new.room) }
        ensures more { self.old.room ≤ self.new.room }
    {
        self.items.reserve(1)?;
        Ok(())
    }

    /// Makes room for `most` numbers in all. Without memory the set is as it was.
    pub fn reserve(&mut self, most: usize) -> Result<(), NoMemory>
        ensures items { self.new.items ≡ self.old.items }
        ensures room { OnOk result (most ≤ self.new.room) }
        ensures more { self.old.room ≤ self.new.room }
    {
        let more = most.saturating_sub(self.items.len());
        self.items.reserve(more)?;
        Ok(())
    }

    /// From now on the number is there, or isn't. There must be room for a number that comes; takes no memory.
    #[inline(always)]
    pub fn mark(&mut self, number: u64, is_there: bool)
        requires { is_there ≡ true → has self.old.items number ≡ false → length self.old.items < self.old.room }
        ensures items { self.new.items ≡ marked number is_there self.old.items }
        ensures members { (y : ℕ) → has self.new.items y ≡ (if number == y then is_there else has self.old.items y) }
        ensures len { length self.new.items + (if has self.old.items number then 1 else 0) ≡ length self.old.items + (if is_there then 1 else 0) }
        ensures room { self.new.room ≡ self.old.room }
    {
        match place_in(self.items.as_slice(), number) {
            Ok(index) if !is_there => take_out(&mut self.items, index),
            Err(index) if is_there => put_in(&mut self.items, index, number),
            _ => {}
        }
    }

    /// Puts a number in. There must be room for one that isn't there yet; takes no memory.
    #[inline(always)]
    pub fn insert(&mut self, number: u64)
        requires { has self.old.items number ≡ false → length self.old.items < self.old.room }
        ensures items { self.new.items ≡ marked number true self.old.items }
        ensures members { (y : ℕ) → has self.new.items y ≡ (if number == y then true else has self.old.items y) }
        ensures len { length self.new.items + (if has self.old.items number then 1 else 0) ≡ length self.old.items + 1 }
        ensures room { self.new.room ≡ self.old.room }
    {
        self.mark(number, true);
    }

    /// Takes a number out; one that isn't there changes nothing. Takes no memory.
    #[inline(always)]
    pub fn remove(&mut self, number: u64)
        ensures items { self.new.items ≡ marked number false self.old.items }
        ensures members { (y : ℕ) → has self.new.items y ≡ (if number == y then false else has self.old.items y) }
        ensures len { length self.new.items + (if has self.old.items number then 1 else 0) ≡ length self.old.items }
        ensures room { self.new.room ≡ self.old.room }
    {
        self.mark(number, false);
    }

    /// Whether a number is there.
    #[inline(always)]
    pub fn contains(&self, number: u64) -> bool
        ensures { result ≡ has self.now.items number }
    {
        // Most sets that are asked have one or two.
        match self.items.as_slice() {
            [] => false,
            [one] => *one == number,
            [one, other] => *one == number || *other == number,
            items => items.binary_search(&number).is_ok(),
        }
    }

    /// The greatest.
    pub fn last(&self) -> Option<u64>
        ensures last { result ≡ slice_get self.now.items (length self.now.items - 1) }
        ensures found { IfSome result (λ x. has self.now.items x ≡ true) }
    {
        self.items.last().copied()
    }

    /// Takes out the greatest. None only where there is none.
    #[inline(always)]
    pub fn pop_last(&mut self) -> Option<u64>
        ensures last { result ≡ slice_get self.old.items (length self.old.items - 1) }
        ensures items { self.new.items ≡ take (length self.old.items - 1) self.old.items }
        ensures fewer { IfSome result (λ x. length self.new.items + 1 ≡ length self.old.items) }
        ensures room { self.new.room ≡ self.old.room }
    {
        self.items.pop()
    }

    /// The least.
    #[inline(always)]
    pub fn first(&self) -> Option<u64>
        ensures { result ≡ first self.now.items }
    {
        self.items.first().copied()
    }

    /// The least that is above another.
    #[inline(always)]
    pub fn next_above(&self, after: u64) -> Option<u64>
        ensures next { result ≡ first_above after self.now.items }
        ensures found { IfSome result (λ x. (after < x) × (has self.now.items x ≡ true)) }
        ensures least { (y : ℕ) → after < y → has self.now.items y ≡ true → IsSomeAnd result (λ x. x ≤ y) }
    {
        self.items.get(self.count_upto(after)).copied()
    }

    // How many are at most so great.
    #[inline(always)]
    fn count_upto(&self, most: u64) -> usize
        ensures within { result ≤ length self.now.items }
        ensures below { (k : ℕ) → k < result → slice_index self.now.items k ≤ most }
        ensures above { (k : ℕ) → result ≤ k → k < length self.now.items → most < slice_index self.now.items k }
    {
        match self.items.binary_search(&most) {
            Ok(index) => index + 1,
            Err(index) => index,
        }
    }
}

// Where a number stands, or else where it would come. Most stand last, or come there.
#[inline(always)]
fn place_in(items: &[u64], number: u64) -> Result<usize, usize>
    requires { Rises items.now }
    ensures { MatchResult result (IsFoundAt items.now number) (IsGapAt items.now number) }
{
    match items.last() {
        Some(last) => place_by(items, *last, number),
        None => Err(0),
    }
}

// The same by the last of them.
#[inline(always)]
fn place_by(items: &[u64], last: u64, number: u64) -> Result<usize, usize>
    requires rises { Rises items.now }
    requires some { 0 < length items.now }
    requires last { slice_index items.now (length items.now - 1) ≡ last }
    ensures { MatchResult result (IsFoundAt items.now number) (IsGapAt items.now number) }
{
    if last == number {
        return Ok(items.len() - 1);
    }
    if number > last {
        return Err(items.len());
    }
    search(items, number)
}

// The same by the first of them, or else by halves: most that don't stand last stand first, or come there. It isn't inlined, so
// that its code is there once for all that look for a number.
#[inline(never)]
fn search(items: &[u64], number: u64) -> Result<usize, usize>
    requires { Rises items.now }
    ensures { MatchResult result (IsFoundAt items.now number) (IsGapAt items.now number) }
{
    let Some(first) = items.first() else {
        return Err(0);
    };
    if number == *first {
        return Ok(0);
    }
    if number < *first {
        return Err(0);
    }
    items.binary_search(&number)
}

// A number comes to a place, for which there is room. Most come last.
#[inline(always)]
fn put_in(items: &mut Vec<u64>, index: usize, number: u64)
    requires within { index ≤ length items.old.items }
    requires room { length items.old.items < vec_capacity items.old }
    ensures items { items.new.items ≡ insert items.old.items index number }
    ensures room { vec_capacity items.new ≡ vec_capacity items.old }
{
    if index == items.len() {
        items.push_reserved(number);
        return;
    }
    put_between(items, index, number);
}

// The same wherever the place is. Few come before others, so it isn't inlined.
#[inline(never)]
fn put_between(items: &mut Vec<u64>, index: usize, number: u64)
    requires within { index ≤ length items.old.items }
    requires room { length items.old.items < vec_capacity items.old }
    ensures items { items.new.items ≡ insert items.old.items index number }
    ensures room { vec_capacity items.new ≡ vec_capacity items.old }
{
    // Where one number alone stands behind, as in a set of two.
    if index + 1 == items.len() {
        let last = items[index];
        items[index] = number;
        items.push_reserved(last);
        return;
    }
    let Ok(()) = items.insert(index, number) else {
        unreachable!()
    };
}

// The number at a place goes. Most that go stand last.
#[inline(always)]
fn take_out(items: &mut Vec<u64>, index: usize)
    requires { index < length items.old.items }
    ensures items { items.new.items ≡ remove items.old.items index }
    ensures room { vec_capacity items.new ≡ vec_capacity items.old }
{
    if index == items.len() - 1 {
        let _ = items.pop();
        return;
    }
    take_between(items, index);
}

// The same wherever the place is. Few go from before others, so it isn't inlined.
#[inline(never)]
fn take_between(items: &mut Vec<u64>, index: usize)
    requires { index < length items.old.items }
    ensures items { items.new.items ≡ remove items.old.items index }
    ensures room { vec_capacity items.new ≡ vec_capacity items.old }
{
    let _ = items.remove(index);
}
