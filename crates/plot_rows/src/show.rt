// Prints what comes of a case.
use crate::case::Case;
use io_ports::{MemSink, MemSource, NoMemory};
use std::alloc::Global;
use std::io;
use tape_plot::{Choice, Outcome, plot_tape, read_choice};

/// How many octets a sink has room for.
const ROOM: usize = 400_000;

/// How a picture came out, and what was written.
#[derive(Drop)]
struct Drawn {
    outcome: Outcome,
    out: MemSink,
}

// The picture of a case, where each read gives at most so many octets.
fn draw(alloc: Global, case: &Case, choice: &Choice, most: usize) -> Result<Drawn, NoMemory> {
    let mut held = Vec::new(alloc);
    held.extend_from_slice(case.tape.as_slice())?;
    let mut reads = Vec::new(alloc);
    reads.extend_from_slice(case.reads.as_slice())?;
    let mut writes = Vec::new(alloc);
    writes.extend_from_slice(case.writes.as_slice())?;
    let mut source = MemSource::new(held, reads);
    source.give_at_most(most.max(1));
    let mut out = MemSink::new(alloc, ROOM, writes)?;
    let outcome = plot_tape(alloc, choice, &mut source, &mut out);
    Ok(Drawn { outcome, out })
}

/// Prints the status of a case, the line that was refused and why, and the picture. A case without faults comes out the same
/// where it is read in pieces of 7 octets, or else it is said that it doesn't. A picture is dropped by a call, since the check
/// follows a drop without one field by field.
pub fn show_case<R: Print + AllocGlobal>(rt: &R, case: &Case) -> io::Result<()> {
    let Some(choice) = read_choice(case.words.as_slice()) else {
        return println!(rt; "2 Usage");
    };
    let Ok(whole) = draw(rt.alloc(), case, &choice, usize::MAX) else {
        return println!(rt; "no memory");
    };
    let end = show_whole(rt, case, &choice, &whole);
    drop(whole);
    end
}

fn show_whole<R: Print + AllocGlobal>(
    rt: &R,
    case: &Case,
    choice: &Choice,
    whole: &Drawn,
) -> io::Result<()> {
    show_outcome(rt, &whole.outcome)?;
    print!(rt;
        "{}",
        std::str::from_utf8(whole.out.octets()).unwrap_or("not UTF-8")
    )?;
    if !case.reads.is_empty() {
        return Ok(());
    }
    let Ok(pieces) = draw(rt.alloc(), case, choice, 7) else {
        return println!(rt; "no memory");
    };
    let same = is_same(&pieces, whole);
    drop(pieces);
    if same {
        Ok(())
    } else {
        println!(rt; "otherwise in pieces of 7")
    }
}

fn is_same(pieces: &Drawn, whole: &Drawn) -> bool {
    pieces.outcome == whole.outcome && pieces.out.octets() == whole.out.octets()
}

fn show_outcome<R: Print>(rt: &R, outcome: &Outcome) -> io::Result<()> {
    let status = outcome.status;
    match outcome.refusal {
        Some(refusal) => {
            let line = outcome.line;
            println!(rt; "{} {status:?}: line {line}: {refusal:?}", status.code())
        }
        None => println!(rt; "{} {status:?}", status.code()),
    }
}
