// Tables of reads and writes, with what each answers.

use crate::said::{holds, same};
use io_ports::{
    Failed, MemSink, MemSource, NoMemory, Octets, PressureList, Sink, Source, StdSink, StdSource,
};
use std::alloc::{AllocError, Global};
use std::io::{self, ErrorKind, Read, Write};
use std::process::Abort;

type Answer = Result<usize, Failed>;

/// Reads into a piece of `room` octets, as often as there are answers wanted. The octets that were
/// given, where each read answered as wanted.
fn reads<S: Source>(
    alloc: Global,
    source: &mut S,
    room: usize,
    wanted: &[Answer],
) -> Result<Option<Vec<u8>>, AllocError> {
    let mut into = vec![in alloc; 0u8; room]?;
    let mut given = Vec::new(alloc);
    for want in wanted {
        let answer = source.read(&mut into);
        if answer != *want {
            return Ok(None);
        }
        if let Ok(n) = answer {
            given.extend_from_slice(&into[..n])?;
        }
    }
    Ok(Some(given))
}

/// Whether each read answered as wanted, and they gave these octets.
fn are_given(given: &Option<Vec<u8>>, octets: &[u8]) -> bool {
    match given {
        Some(given) => given.as_slice() == octets,
        None => false,
    }
}

/// Whether the writes of these pieces answer as wanted.
fn writes<K: Sink>(sink: &mut K, pieces: &[(&[u8], Answer)]) -> bool {
    for (piece, want) in pieces {
        if sink.write(piece) != *want {
            return false;
        }
    }
    true
}

// A source of "abcdefgh": the calls that fail, the most that a call gives, the room that it is read
// into, and what the calls answer.
const READS: [(&[u64], usize, usize, &[Answer]); 4] = [
    (&[], 100, 3, &[Ok(3), Ok(3), Ok(2), Ok(0), Ok(0)]),
    (
        &[1, 4],
        3,
        4,
        &[Ok(3), Err(Failed), Ok(3), Ok(2), Err(Failed), Ok(0)],
    ),
    (&[0, 1], 100, 16, &[Err(Failed), Err(Failed), Ok(8), Ok(0)]),
    (&[1], 1, 0, &[Ok(0), Err(Failed), Ok(0)]),
];

const ALL: &[u8] = b"abcdefgh";

#[test]
fn sources_give_their_octets_in_pieces(rt: HostRuntime) -> Result<(), NoMemory> {
    for (failing, most, room, wanted) in READS {
        source_gives(&rt, failing, most, room, wanted)?;
    }
    Ok(())
}

// Whether a source whose calls fail so gives all, or nothing where there is no room.
fn source_gives(
    rt: &(impl AllocGlobal + Abort),
    failing: &[u64],
    most: usize,
    room: usize,
    wanted: &[Answer],
) -> Result<(), NoMemory> {
    let mut source = MemSource::new(ALL.to_vec(rt.alloc())?, failing.to_vec(rt.alloc())?);
    assert!(rt; 0 < most);
    source.give_at_most(most);
    let all = if room == 0 { &[] } else { ALL };
    gives(rt, &mut source, room, wanted, all)
}

fn gives<S: Source>(
    rt: &(impl AllocGlobal + Abort),
    source: &mut S,
    room: usize,
    wanted: &[Answer],
    all: &[u8],
) -> Result<(), NoMemory> {
    let given = reads(rt.alloc(), source, room, wanted)?;
    holds(rt, are_given(&given, all));
    Ok(())
}

#[test]
fn readers_give_their_octets_in_pieces(rt: HostRuntime) -> Result<(), NoMemory> {
    let wanted: [Answer; 4] = [Ok(3), Ok(3), Ok(2), Ok(0)];
    gives(&rt, &mut StdSource::new(ALL), 3, &wanted, ALL)?;
    let failed: [Answer; 2] = [Err(Failed), Err(Failed)];
    gives(&rt, &mut StdSource::new(Broken), 3, &failed, &[])
}

// A sink: its room, the most that a call takes, the calls that fail, what the writes answer, and
// what was written in the end.
const WRITES: [(usize, usize, &[u64], &[(&[u8], Answer)], &[u8]); 6] = [
    (
        8,
        100,
        &[],
        &[(b"abc", Ok(3)), (b"", Ok(0)), (b"def", Ok(3))],
        b"abcdef",
    ),
    (
        4,
        100,
        &[],
        &[(b"abc", Ok(3)), (b"def", Err(Failed)), (b"g", Ok(1))],
        b"abcg",
    ),
    (8, 2, &[], &[(b"abc", Ok(2)), (b"c", Ok(1))], b"abc"),
    (8, 0, &[], &[(b"abc", Ok(0)), (b"", Ok(0))], b""),
    (
        8,
        100,
        &[1],
        &[(b"ab", Ok(2)), (b"cd", Err(Failed)), (b"ef", Ok(2))],
        b"abef",
    ),
    (0, 100, &[], &[(b"", Ok(0)), (b"a", Err(Failed))], b""),
];

// Whether a sink takes the pieces so.
fn sink_takes(
    rt: &(impl AllocGlobal + Abort),
    room: usize,
    most: usize,
    failing: &[u64],
    pieces: &[(&[u8], Answer)],
    wanted: &[u8],
) -> Result<(), NoMemory> {
    let failing = failing.to_vec(rt.alloc())?;
    let Ok(mut sink) = MemSink::new(rt.alloc(), room, failing) else {
        return Err(NoMemory);
    };
    sink.take_at_most(most);
    holds(rt, writes(&mut sink, pieces));
    holds(rt, sink.octets() == wanted);
    Ok(())
}

#[test]
fn sinks_take_pieces(rt: HostRuntime) -> Result<(), NoMemory> {
    for (room, most, failing, pieces, wanted) in WRITES {
        sink_takes(&rt, room, most, failing, pieces, wanted)?;
    }
    Ok(())
}

#[test]
fn vectors_take_pieces(rt: HostRuntime) {
    let mut held = Vec::new(rt.alloc());
    let pieces: [(&[u8], Answer); 2] = [(b"abc", Ok(3)), (b"d", Ok(1))];
    holds(&rt, writes(&mut StdSink::new(&mut held), &pieces));
    holds(&rt, held.as_slice() == b"abcd".as_slice());
}

#[test]
fn blocks_take_pieces(rt: HostRuntime) {
    let mut block = [0u8; 4];
    let pieces: [(&[u8], Answer); 3] = [(b"abc", Ok(3)), (b"def", Ok(1)), (b"e", Ok(0))];
    holds(
        &rt,
        writes(&mut StdSink::new(block.as_mut_slice()), &pieces),
    );
    same(&rt, &block, b"abcd");
    holds(
        &rt,
        writes(&mut StdSink::new(Broken), &[(b"abc", Err(Failed))]),
    );
}

/// A reader and writer that always fails.
#[derive(Drop)]
struct Broken;

impl Read for Broken {
    fn read(&mut self, _into: &mut [u8]) -> io::Result<usize> {
        Err(io::Error::from(ErrorKind::BrokenPipe))
    }
}

impl Write for Broken {
    fn write(&mut self, _piece: &[u8]) -> io::Result<usize> {
        Err(io::Error::from(ErrorKind::BrokenPipe))
    }

    fn flush(&mut self) -> io::Result<()> {
        Err(io::Error::from(ErrorKind::BrokenPipe))
    }
}

#[test]
fn octets_keep_what_is_appended(rt: HostRuntime) {
    let mut octets = Octets::new(rt.alloc());
    holds(&rt, octets.is_empty());
    same(&rt, &octets.push_all(b"abc"), &Ok(()));
    same(&rt, &octets.push_all(b"de"), &Ok(()));
    same(&rt, &octets.len(), &5);
    holds(&rt, octets.as_slice() == b"abcde".as_slice());
    octets.truncate(3);
    holds(&rt, octets.as_slice() == b"abc".as_slice());
    octets.clear();
    holds(&rt, octets.is_empty());
}

#[test]
fn octets_are_made_from_others(rt: HostRuntime) -> Result<(), NoMemory> {
    let copy = Octets::from_slice(rt.alloc(), b"abcde")?;
    holds(&rt, copy.as_slice() == b"abcde".as_slice());
    let copy = Octets::from_vec(Vec::from_slice(rt.alloc(), b"abcde")?);
    holds(&rt, copy.as_slice() == b"abcde".as_slice());
    Ok(())
}

/// A copy of octets that share a block is cut and grows, and the others stay.
fn shared_stay(rt: &(impl AllocGlobal + Abort), octets: &[u8]) -> Result<(), NoMemory> {
    let shared = Octets::from_slice(rt.alloc(), octets)?.shared()?;
    let mut copy = shared.copied()?;
    copy.truncate(2);
    same(rt, &copy.push_all(b"x"), &Ok(()));
    holds(rt, copy.as_slice() == b"abx".as_slice());
    holds(rt, shared.as_slice() == octets);
    Ok(())
}

#[test]
fn copies_of_shared_octets_are_apart(rt: HostRuntime) -> Result<(), NoMemory> {
    shared_stay(&rt, b"abcde")?;
    shared_stay(&rt, b"abcdefghijklmnopqrstuvwxyz")
}

#[test]
fn pressures_keep_what_is_appended(rt: HostRuntime) -> Result<(), NoMemory> {
    let alloc = rt.alloc();
    let mut pressures = PressureList::from_vec(vec![in alloc; 1]?);
    same(&rt, &pressures.push(1_000_000), &Ok(()));
    same(&rt, &pressures.len(), &2);
    holds(&rt, pressures.as_slice() == [1, 1_000_000].as_slice());
    holds(&rt, !pressures.is_empty());
    holds(&rt, PressureList::new(alloc).into_vec().is_empty());
    Ok(())
}
