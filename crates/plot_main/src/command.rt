// The command line: its words are those behind the program's name.
use crate::pages::{HELP, USAGE, VERSION};
use program_ports::{Input, Output};
use session_run::Status;
use std::env::{self, Env};
use std::io::{Eprint, ErrorKind, Read, Write};
use std::process::ExitCode;
use tape_plot::{Outcome, plot_tape, read_choice};

const UNWRITTEN: &str = "standard output couldn't be written";

/// Draws what the words ask for of the tape that is read, and answers the exit code. Why it isn't 0 is told in a line on standard
/// error; where the words have no form, that is the usage. `--help` and `--version` are answered on the output.
pub fn plot_words<R: Env + Eprint + AllocGlobal, I: Read + Drop, O: Write + Drop>(
    rt: &R,
    input: I,
    output: O,
) -> ExitCode {
    let words = match words(rt) {
        Ok(words) => words,
        Err(status) => return end_early(rt, status),
    };
    match page(words.as_slice()) {
        Some(text) => show_page(rt, output, text),
        None => plot(rt, words.as_slice(), input, output),
    }
}

fn plot<R: Eprint + AllocGlobal, I: Read + Drop, O: Write + Drop>(
    rt: &R,
    words: &[String],
    input: I,
    output: O,
) -> ExitCode {
    let Some(choice) = read_choice(words) else {
        return end_early(rt, Status::Usage);
    };
    let mut tape = Input::new(input);
    let mut out = Output::new(output);
    let outcome = plot_tape(rt.alloc(), &choice, &mut tape, &mut out);
    tell_outcome(rt, &outcome, tape.kind(), out.kind());
    ExitCode::from(outcome.status.code())
}

// Where the words have no form, or can't be had, there is nothing to draw.
fn end_early<R: Eprint>(rt: &R, status: Status) -> ExitCode {
    // Where standard error is closed there is nobody to tell.
    let _ = if status == Status::Usage {
        rt.eprint(USAGE)
    } else {
        rt.eprint("h2plot: out of memory\n")
    };
    ExitCode::from(status.code())
}

// The page that the words ask for, if they ask for one.
fn page(words: &[String]) -> Option<&'static str> {
    match words {
        [word] if word.as_str() == "--help" => Some(HELP),
        [word] if word.as_str() == "--version" => Some(VERSION),
        _ => None,
    }
}

fn show_page<R: Eprint, O: Write + Drop>(rt: &R, mut output: O, text: &str) -> ExitCode {
    match output.write_all(text.as_bytes()) {
        Ok(()) => ExitCode::from(Status::Done.code()),
        Err(error) => {
            tell_fault(rt, UNWRITTEN, Some(error.kind()));
            ExitCode::from(Status::WriteFault.code())
        }
    }
}

// The words behind the program's name. Words that aren't UTF-8 have no form.
fn words<R: Env + AllocGlobal>(rt: &R) -> Result<Vec<String>, Status> {
    let all = env::args(rt).map_err(|error| match error.kind() {
        ErrorKind::OutOfMemory => Status::Memory,
        _ => Status::Usage,
    })?;
    let mut words = Vec::new(rt.alloc());
    for word in all.skip(1) {
        words.push(word).map_err(|_| Status::Memory)?;
    }
    Ok(words)
}

// Tells in one line why a tape wasn't drawn. Given are the kinds of the errors that the last read and the last write failed with.
// Where standard error is closed there is nobody to tell.
fn tell_outcome<R: Eprint>(
    rt: &R,
    outcome: &Outcome,
    read: Option<ErrorKind>,
    written: Option<ErrorKind>,
) {
    let line = outcome.line;
    if let Some(refusal) = outcome.refusal {
        let _ = eprintln!(rt; "h2plot: line {line}: {refusal}");
        return;
    }
    match outcome.status {
        Status::ReadFault => tell_fault(rt, "standard input couldn't be read", read),
        Status::WriteFault => tell_fault(rt, UNWRITTEN, written),
        Status::Memory => tell_fault(rt, "out of memory", None),
        _ => {}
    }
}

fn tell_fault<R: Eprint>(rt: &R, why: &str, kind: Option<ErrorKind>) {
    let _ = match kind {
        Some(kind) => eprintln!(rt; "h2plot: {why}: {kind}"),
        None => eprintln!(rt; "h2plot: {why}"),
    };
}
