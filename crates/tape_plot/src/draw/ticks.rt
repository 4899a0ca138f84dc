// The axis of dispatches.
ghost use Rattle.std.specs.Prelude.{◌<◌, ◌≤◌, IfSome};

use super::frame::{AXIS, END, Frame, LEFT, PLOT};
use super::put::{put_level_line, put_number_text};
use io_ports::{NoMemory, Octets};
use tape_summary::put_behind;

/// How far two ticks stand apart at least; the first and the second may be half as far.
const APART: u64 = 90;

/// The powers of ten that are tried.
const POWERS: u32 = 18;

/// The axis above all rows and the one below them, with a number and a thin line at each tick.
pub fn put_ticks(into: &mut Octets, frame: &Frame, end: u64) -> Result<(), NoMemory> {
    put_level_line(into, b"x", LEFT, AXIS, END)?;
    put_level_line(into, b"x", LEFT, end, END)?;
    let step = step_of(frame);
    let mut turn = frame.first;
    while turn <= frame.end {
        put_tick(into, frame, turn, end)?;
        let Some(next) = next_tick(turn, step) else {
            return Ok(());
        };
        turn = next;
    }
    Ok(())
}

fn put_tick(into: &mut Octets, frame: &Frame, turn: u64, end: u64) -> Result<(), NoMemory> {
    let x = frame.x(frame.column(turn));
    put_behind(into, b"<path class=\"g\" d=\"M", x)?;
    put_behind(into, b" ", AXIS - 4)?;
    put_behind(into, b"V", end.saturating_add(4))?;
    into.push_all(b"\"/>\n")?;
    put_number_text(into, b"k", x, AXIS - 8, turn)?;
    put_number_text(into, b"k", x, end.saturating_add(16), turn)
}

// The next dispatch that is a multiple of the step and at least half a step away, so that there is room for its number.
fn next_tick(turn: u64, step: u64) -> Option<u64>
    requires { 1 ≤ step }
    ensures { IfSome result (λ next. turn < next) }
{
    let gap = step - turn % step;
    let next = turn.checked_add(gap)?;
    if gap < step - gap {
        return next.checked_add(step);
    }
    Some(next)
}

// One of 1, 2, 5, 10, 20, 50 and so on: the least that is wide enough.
fn step_of(frame: &Frame) -> u64
    ensures { 1 ≤ result }
{
    let mut ten = 1u64;
    for _ in 0..POWERS {
        if let Some(step) = wide_step(frame, ten) {
            return step;
        }
        ten = ten.saturating_mul(10);
    }
    ten
}

// A number, or twice or five times it: the least that is wide enough.
fn wide_step(frame: &Frame, ten: u64) -> Option<u64>
    requires { 1 ≤ ten }
    ensures { IfSome result (λ step. 1 ≤ step) }
{
    if is_wide(frame, ten) {
        return Some(ten);
    }
    let two = ten.saturating_mul(2);
    if is_wide(frame, two) {
        return Some(two);
    }
    let five = ten.saturating_mul(5);
    if is_wide(frame, five) {
        return Some(five);
    }
    None
}

// Whether so many dispatches are wide enough for a number.
fn is_wide(frame: &Frame, step: u64) -> bool {
    let turns = frame.columns.saturating_mul(frame.width.turns());
    step.saturating_mul(PLOT) / turns.max(1) >= APART
}
