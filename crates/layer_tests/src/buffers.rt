// Tables of changes. What each crosses was found by hand from the rule for above.

use crate::said::{holds, same, same_in};
use io_ports::NoMemory;
use std::alloc::{AllocError, AllocGlobal, Global};
use std::process::Abort;
use wm_buffer::{Crossed, Shifted, WatermarkBuffer};

const NOTHING: Crossed = Crossed::Nothing;

const HIGH: Crossed = Crossed::High;

const LOW: Crossed = Crossed::Low;

/// The octets `from`, `from + 1` and so on, each modulo 251.
fn octets(alloc: Global, from: u64, n: u64) -> Result<Vec<u8>, AllocError> {
    let mut made = Vec::new(alloc);
    for i in 0..n {
        made.push((from.wrapping_add(i) % 251) as u8)?;
    }
    Ok(made)
}

/// Takes out all octets, part by part.
fn spell(alloc: Global, buffer: &mut WatermarkBuffer) -> Result<Vec<u8>, AllocError> {
    let mut spelled = Vec::new(alloc);
    for _part in 0..2 {
        let _len = buffer.len();
        let front = buffer.front();
        spelled.extend_from_slice(front)?;
        let n = front.len() as u32;
        buffer.take(n);
    }
    Ok(spelled)
}

/// Adds the octets that count up from `first`.
fn put(
    alloc: Global,
    buffer: &mut WatermarkBuffer,
    first: u64,
    n: u32,
) -> Result<Crossed, NoMemory> {
    buffer.add(&octets(alloc, first, u64::from(n))?)
}

/// A buffer that holds such octets.
fn filled(alloc: Global, limit: u32, first: u64, n: u32) -> Result<WatermarkBuffer, NoMemory> {
    let mut buffer = WatermarkBuffer::new(alloc, limit);
    put(alloc, &mut buffer, first, n)?;
    Ok(buffer)
}

/// Takes out all octets: so many, which count up from `first`.
fn counts_up(
    rt: &(impl AllocGlobal + Abort),
    buffer: &mut WatermarkBuffer,
    first: u64,
    n: u64,
) -> Result<(), NoMemory> {
    let spelled = spell(rt.alloc(), buffer)?;
    let wanted = octets(rt.alloc(), first, n)?;
    same_in(rt, &n, &spelled.as_slice(), &wanted.as_slice());
    Ok(())
}

// The octets added, then those taken, what the adding and the taking crossed, and whether the buffer is
// above after both.
type Change = (u32, u32, Crossed, Crossed, bool);

// One buffer: its limit, and its changes.
const CHANGES: [(u32, [Change; 4]); 6] = [
    // Ten octets rise over 8; five are more than half, four aren't.
    (
        8,
        [
            (10, 5, HIGH, NOTHING, true),
            (0, 1, NOTHING, LOW, false),
            (4, 0, NOTHING, NOTHING, false),
            (1, 5, HIGH, LOW, false),
        ],
    ),
    // As many as the limit aren't above; what comes on top of a rise crosses nothing.
    (
        8,
        [
            (8, 0, NOTHING, NOTHING, false),
            (1, 0, HIGH, NOTHING, true),
            (7, 11, NOTHING, NOTHING, true),
            (4, 9, NOTHING, LOW, false),
        ],
    ),
    // Half of 9 is 4.
    (
        9,
        [
            (9, 0, NOTHING, NOTHING, false),
            (1, 5, HIGH, NOTHING, true),
            (0, 1, NOTHING, LOW, false),
            (6, 10, HIGH, LOW, false),
        ],
    ),
    // Half of 1 is 0.
    (
        1,
        [
            (1, 0, NOTHING, NOTHING, false),
            (1, 1, HIGH, NOTHING, true),
            (0, 1, NOTHING, LOW, false),
            (3, 3, HIGH, LOW, false),
        ],
    ),
    // Without a limit nothing is crossed.
    (
        0,
        [
            (1, 0, NOTHING, NOTHING, false),
            (1000, 0, NOTHING, NOTHING, false),
            (0, 1001, NOTHING, NOTHING, false),
            (70_000, 70_000, NOTHING, NOTHING, false),
        ],
    ),
    // A take from a buffer that never rose isn't low.
    (
        100,
        [
            (90, 80, NOTHING, NOTHING, false),
            (90, 100, NOTHING, NOTHING, false),
            (101, 51, HIGH, LOW, false),
            (0, 50, NOTHING, NOTHING, false),
        ],
    ),
];

/// The changes of a buffer of this limit, one after another.
fn changes_cross(
    rt: &(impl AllocGlobal + Abort),
    limit: u32,
    changes: &[Change],
) -> Result<(), NoMemory> {
    let mut buffer = WatermarkBuffer::new(rt.alloc(), limit);
    same(rt, &buffer.limit(), &limit);
    for change in changes {
        change_crosses(rt, limit, &mut buffer, change)?;
    }
    Ok(())
}

fn change_crosses(
    rt: &(impl AllocGlobal + Abort),
    limit: u32,
    buffer: &mut WatermarkBuffer,
    change: &Change,
) -> Result<(), NoMemory> {
    let (added, taken, rose, drained, above) = change;
    same_in(rt, &limit, &put(rt.alloc(), buffer, 0, *added)?, rose);
    assert!(rt; *taken <= buffer.len());
    same_in(rt, &limit, &buffer.take(*taken), drained);
    same_in(rt, &limit, &buffer.is_above(), above);
    Ok(())
}

#[test]
fn one_buffer_crosses_its_marks(rt: HostRuntime) -> Result<(), NoMemory> {
    for (limit, changes) in CHANGES {
        changes_cross(&rt, limit, &changes)?;
    }
    Ok(())
}

// A ready buffer over its ring's seam, the octets added and then taken.
#[test]
fn a_ready_buffer_takes_what_it_has_room_for(rt: HostRuntime) -> Result<(), NoMemory> {
    let mut buffer = WatermarkBuffer::new(rt.alloc(), 10);
    holds(&rt, buffer.is_empty());
    buffer.ready(65_536)?;
    goes_over_the_seam(&rt, &mut buffer)?;
    counts_up(&rt, &mut buffer, 65_541, 65_546)?;
    holds(&rt, buffer.is_empty());
    Ok(())
}

fn goes_over_the_seam(
    rt: &(impl AllocGlobal + Abort),
    buffer: &mut WatermarkBuffer,
) -> Result<(), NoMemory> {
    same(rt, &put(rt.alloc(), buffer, 0, 65_546)?, &HIGH);
    assert!(rt; 65_541 <= buffer.len());
    same(rt, &buffer.take(65_541), &LOW);
    same(rt, &put(rt.alloc(), buffer, 65_546, 65_541)?, &HIGH);
    same(rt, &buffer.len(), &65_546);
    Ok(())
}

// A move: the limit and the octets of the buffer that it takes from, the same of the one that it goes
// to, the head's octets and those moved, and what each buffer crossed.
const MOVES: [((u32, u32), (u32, u32), (u32, u32), (Crossed, Crossed)); 8] = [
    ((8, 10), (8, 0), (0, 6), (LOW, NOTHING)),
    ((8, 10), (8, 0), (9, 0), (NOTHING, HIGH)),
    ((8, 10), (8, 2), (0, 7), (LOW, HIGH)),
    // Head and octets pass the limit together.
    ((8, 10), (8, 0), (4, 5), (NOTHING, HIGH)),
    ((8, 8), (8, 0), (0, 8), (NOTHING, NOTHING)),
    ((0, 100), (0, 100), (9, 100), (NOTHING, NOTHING)),
    ((4, 3), (4, 9), (9, 3), (NOTHING, NOTHING)),
    ((16_384, 65_536), (65_536, 0), (9, 65_536), (LOW, HIGH)),
];

#[test]
fn a_move_is_one_change_of_both(rt: HostRuntime) -> Result<(), NoMemory> {
    for (from, to, (ahead, n), (drained, raised)) in MOVES {
        let wanted = Shifted {
            from: drained,
            to: raised,
        };
        moves(&rt, from, to, ahead, n, wanted)?;
    }
    Ok(())
}

/// Moves n octets between such buffers, behind a head of so many, and judges what both cross and hold then.
fn moves(
    rt: &(impl AllocGlobal + Abort),
    first: (u32, u32),
    second: (u32, u32),
    ahead: u32,
    n: u32,
    wanted: Shifted,
) -> Result<(), NoMemory> {
    let (from_limit, had) = first;
    let (to_limit, has) = second;
    let lies_before = u64::from(has).wrapping_add(u64::from(ahead));
    let head = octets(rt.alloc(), u64::from(has), u64::from(ahead))?;
    let mut to = filled(rt.alloc(), to_limit, 0, has)?;
    let mut from = filled(rt.alloc(), from_limit, lies_before, had)?;
    moves_to(rt, &mut from, &mut to, head.as_slice(), n, wanted);
    same(rt, &from.len(), &had.saturating_sub(n));
    counts_up(rt, &mut to, 0, lies_before.wrapping_add(u64::from(n)))
}

fn moves_to(
    rt: &impl Abort,
    from: &mut WatermarkBuffer,
    to: &mut WatermarkBuffer,
    head: &[u8],
    n: u32,
    wanted: Shifted,
) {
    assert!(rt; n <= from.len());
    same_in(rt, &n, &from.move_to(to, head, n), &Ok(wanted));
}
