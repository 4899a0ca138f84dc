// The windows of all open streams under a new initial window.
ghost use Rattle.paged_map.specs.PagedMap.{value_at};
ghost use Rattle.std.specs.FinMap.{get};
ghost use Rattle.std.specs.Option.{option_map_or};
ghost use Rattle.std.specs.Prelude.{◌≡◌, ◌==◌, IfSome, if◌then◌else◌, option_map, true, false, ℕ};
ghost use Rattle.wire_windows.specs.Shifts.{Refuses, may_move, moved_by};

use super::ByExchange;
use h2_windows::{MAX_WINDOW, SendWindow};
use paged_map::PagedMap;

impl ByExchange<SendWindow> {
    /// Whether each window may go over to a new initial window: the room of none would pass the largest window.
    pub(crate) fn may_shift(&self, to: u32) -> bool
        ensures all { result ≡ true → (x : ℕ) → IfSome (get self.now x) (λ s. may_move to s ≡ true) }
        ensures some { result ≡ false → Refuses to self.now }
    {
        all_may_move(&self.map, to)
    }

    /// Each window that may goes over to a new initial window.
    pub(crate) fn shift(&mut self, to: u32)
        ensures { (x : ℕ) → get self.new x ≡ option_map (moved_by to) (get self.old x) }
    {
        move_all(&mut self.map, to);
    }
}

// Whether each window may go over to a new initial window. They are gone through by rising numbers.
fn all_may_move(map: &PagedMap<u64, SendWindow>, to: u32) -> bool
    ensures all { result ≡ true → (x : ℕ) → option_map_or (may_move to) (value_at x map.now) true ≡ true }
    ensures some { result ≡ false → (x : ℕ) × (option_map_or (may_move to) (value_at x map.now) true ≡ false) }
{
    if !may_move_at(map, 0, to) {
        return false;
    }
    let mut after = 0;
    while let Some(x) = map.next_above(after) {
        if !may_move_at(map, x, to) {
            return false;
        }
        after = x;
    }
    true
}

// Each window that may goes over to a new initial window.
fn move_all(map: &mut PagedMap<u64, SendWindow>, to: u32)
    ensures { (x : ℕ) → value_at x map.new ≡ option_map (moved_by to) (value_at x map.old) }
{
    move_at(map, 0, to);
    let mut after = 0;
    while let Some(x) = map.next_above(after) {
        move_at(map, x, to);
        after = x;
    }
}

// Whether the window of an exchange, if it has one, may go over to a new initial window.
fn may_move_at(map: &PagedMap<u64, SendWindow>, x: u64, to: u32) -> bool
    ensures { result ≡ option_map_or (may_move to) (value_at x map.now) true }
{
    match map.get(&x) {
        Some(window) => may_move(*window, to),
        None => true,
    }
}

// The window of an exchange, if it has one and that may, goes over to a new initial window.
fn move_at(map: &mut PagedMap<u64, SendWindow>, x: u64, to: u32)
    ensures { (q : ℕ) → value_at q map.new ≡ (if q == x then option_map (moved_by to) (value_at q map.old) else value_at q map.old) }
{
    if let Some(window) = map.get_mut(&x) {
        *window = moved_by(*window, to);
    }
}

// Whether a window may go over to a new initial window.
fn may_move(window: SendWindow, to: u32) -> bool
    ensures { result ≡ may_move to window }
{
    let mut moved = window;
    window.initial() <= MAX_WINDOW
        && to <= MAX_WINDOW
        && moved.shift_initial(window.initial(), to).is_ok()
}

// The window under a new initial window, or as it is where it may not go over to it.
fn moved_by(window: SendWindow, to: u32) -> SendWindow
    ensures { result ≡ moved_by to window }
{
    let mut moved = window;
    if window.initial() <= MAX_WINDOW
        && to <= MAX_WINDOW
        && moved.shift_initial(window.initial(), to).is_ok()
    {
        moved
    } else {
        window
    }
}
