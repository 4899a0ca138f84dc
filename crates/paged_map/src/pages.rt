// Pages in the order of their indexes.
ghost use Rattle.number_set.specs.NumberMap.{IsAt, IsGap, IsSorted};
ghost use Rattle.number_set.specs.NumberSet.{first, first_above};
ghost use Rattle.paged_map.specs.Pages.{AreOrdered, IsIndex, entries_on, width};
ghost use Rattle.std.specs.Map.{keys_of};
ghost use Rattle.std.specs.Prelude.{◌≡◌, ◌<◌, [], IfOk, IfSome, MatchResult, count_by, is_some, length, slice_index_or};

use crate::page::{Page, Spare, WIDTH};
use io_ports::NoMemory;
use std::alloc::Global;

/// Where the page with an index stands, or else where it would come. The last page is looked at first.
#[inline(always)]
pub(crate) fn find<V>(pages: &[Page<V>], index: u64) -> Result<usize, usize>
    requires { IsSorted pages.now }
    ensures { MatchResult result (λ i. IsAt index i pages.now) (λ i. IsGap index i pages.now) }
{
    match pages.last() {
        Some(last) => {
            if last.index() == index {
                Ok(pages.len() - 1)
            } else {
                search(pages, index)
            }
        }
        None => Err(0),
    }
}

/// Where the last page stands, if it has an index.
#[inline(always)]
pub(crate) fn on_last<V>(pages: &[Page<V>], index: u64) -> Option<usize>
    requires { IsSorted pages.now }
    ensures { IfSome result (λ i. IsAt index i pages.now) }
{
    let last = pages.last()?;
    if last.index() == index {
        return Some(pages.len() - 1);
    }
    None
}

/// The same as `find` without a look at the last: as far from the first page as the index is, or else by halves. It isn't inlined,
/// so that a look-up on the last page stays short wherever it stands.
#[inline(never)]
pub(crate) fn search<V>(pages: &[Page<V>], index: u64) -> Result<usize, usize>
    requires { IsSorted pages.now }
    ensures { MatchResult result (λ i. IsAt index i pages.now) (λ i. IsGap index i pages.now) }
{
    match guess(pages, index) {
        Some(place) => Ok(place),
        None => by_halves(pages, index),
    }
}

// The place as far from the first page as the index is, if the page stands there: it does where no page between them has gone.
#[inline(always)]
fn guess<V>(pages: &[Page<V>], index: u64) -> Option<usize>
    requires { IsSorted pages.now }
    ensures { IfSome result (λ i. IsAt index i pages.now) }
{
    let first = pages.first()?;
    let ahead = index.checked_sub(first.index())?;
    let place = usize::try_from(ahead).ok()?;
    at_place(pages, place, index)
}

// The place, if the page with an index stands there.
#[inline(always)]
fn at_place<V>(pages: &[Page<V>], place: usize, index: u64) -> Option<usize>
    requires { IsSorted pages.now }
    ensures { IfSome result (λ i. IsAt index i pages.now) }
{
    let Some(page) = pages.get(place) else {
        return None;
    };
    if page.index() == index {
        return Some(place);
    }
    None
}

// The same by halves.
fn by_halves<V>(pages: &[Page<V>], index: u64) -> Result<usize, usize>
    requires { IsSorted pages.now }
    ensures { MatchResult result (λ i. IsAt index i pages.now) (λ i. IsGap index i pages.now) }
{
    let place = pages.partition_point(|page| page.index() < index);
    match pages.get(place) {
        Some(page) => {
            if page.index() == index {
                Ok(place)
            } else {
                Err(place)
            }
        }
        None => Err(place),
    }
}

/// The least number above another that has a value on these pages.
pub(crate) fn next<V>(pages: &[Page<V>], after: u64) -> Option<u64>
    requires { AreOrdered pages.now }
    ensures { result ≡ first_above after (keys_of (entries_on pages.now)) }
{
    match find(pages, after / WIDTH) {
        Ok(place) => {
            let above = pages[place].first_from((after % WIDTH) as usize + 1);
            if above.is_some() {
                above
            } else {
                first_on(&pages[place + 1..])
            }
        }
        Err(place) => first_on(&pages[place..]),
    }
}

// The least number that has a value on these pages.
fn first_on<V>(pages: &[Page<V>]) -> Option<u64>
    ensures { result ≡ first (keys_of (entries_on pages.now)) }
{
    let mut rest = pages;
    while let Some((page, later)) = rest.split_first() {
        let first = page.first_from(0);
        if first.is_some() {
            return first;
        }
        rest = later;
    }
    None
}

/// Where the page with an index stands. One that isn't there comes; the values stay what they are, also without memory.
#[inline(always)]
pub(crate) fn page_for<V: Drop>(
    pages: &mut Vec<Page<V>>,
    spare: &mut Spare<V>,
    alloc: Global,
    index: u64,
) -> Result<usize, NoMemory>
    requires index { IsIndex index }
    requires ordered { AreOrdered pages.old.items }
    ensures place { IfOk result (λ place. IsAt index place pages.new.items) }
    ensures ordered { AreOrdered pages.new.items }
    ensures same { entries_on pages.new.items ≡ entries_on pages.old.items }
{
    match find(pages.as_slice(), index) {
        Ok(place) => Ok(place),
        Err(_) => add(pages, spare, alloc, index),
    }
}

// A page comes, unless it is there: the last one, where it is blank, or else the spare one or a new one. One value in sixteen needs
// it, so it isn't inlined.
#[inline(never)]
fn add<V: Drop>(
    pages: &mut Vec<Page<V>>,
    spare: &mut Spare<V>,
    alloc: Global,
    index: u64,
) -> Result<usize, NoMemory>
    requires index { IsIndex index }
    requires ordered { AreOrdered pages.old.items }
    ensures place { IfOk result (λ place. IsAt index place pages.new.items) }
    ensures ordered { AreOrdered pages.new.items }
    ensures same { entries_on pages.new.items ≡ entries_on pages.old.items }
{
    let page = blank(pages, spare, alloc, index)?;
    match find(pages.as_slice(), index) {
        Ok(place) => Ok(place),
        Err(place) => {
            pages.insert(place, page)?;
            Ok(place)
        }
    }
}

// A blank page, which is taken from the end where the last is blank.
fn blank<V: Drop>(
    pages: &mut Vec<Page<V>>,
    spare: &mut Spare<V>,
    alloc: Global,
    index: u64,
) -> Result<Page<V>, NoMemory>
    requires index { IsIndex index }
    requires ordered { AreOrdered pages.old.items }
    ensures index { IfOk result (λ page. page.0 ≡ index) }
    ensures blank { IfOk result (λ page. count_by is_some page.1 ≡ 0) }
    ensures long { IfOk result (λ page. length page.1 ≡ width) }
    ensures ordered { AreOrdered pages.new.items }
    ensures same { entries_on pages.new.items ≡ entries_on pages.old.items }
{
    let len = pages.len();
    if len == 0 || !pages[len - 1].is_blank() {
        return spare.take(alloc, index);
    }
    let mut page = pages.remove(len - 1);
    page.turn(index);
    Ok(page)
}

/// A blank page goes, unless it is the last: its numbers or greater ones come next.
#[inline(always)]
pub(crate) fn clear<V: Drop>(pages: &mut Vec<Page<V>>, spare: &mut Spare<V>, place: usize)
    requires ordered { AreOrdered pages.old.items }
    requires place { place < length pages.old.items }
    ensures ordered { AreOrdered pages.new.items }
    ensures same { entries_on pages.new.items ≡ entries_on pages.old.items }
{
    if place < pages.len() - 1 && pages[place].is_blank() {
        put_aside(pages, spare, place);
    }
}

// A blank page goes, and is the spare one. One value in sixteen needs it, so it isn't inlined.
#[inline(never)]
fn put_aside<V: Drop>(pages: &mut Vec<Page<V>>, spare: &mut Spare<V>, place: usize)
    requires ordered { AreOrdered pages.old.items }
    requires place { place < length pages.old.items }
    requires blank { count_by is_some (slice_index_or pages.old.items place (0, [])).1 ≡ 0 }
    ensures ordered { AreOrdered pages.new.items }
    ensures same { entries_on pages.new.items ≡ entries_on pages.old.items }
{
    spare.keep(pages.remove(place));
}
