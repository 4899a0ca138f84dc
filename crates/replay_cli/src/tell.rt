// Why a replay ended, on standard error.
use io_ports::Octets;
use replay_run::{Outcome, Reason, Status, put_reason};
use std::io::{Eprint, ErrorKind};

/// Tells in one line why a replay wasn't carried to its end. Given are the name of the configuration's file, if the words have one,
/// and the kinds of the errors that the last read of the configuration, that of the session and the last write failed with. Where
/// standard error is closed there is nobody to tell.
pub fn tell_outcome<R: Eprint + AllocGlobal>(
    rt: &R,
    outcome: &Outcome,
    path: Option<&str>,
    config: Option<ErrorKind>,
    session: Option<ErrorKind>,
    out: Option<ErrorKind>,
) {
    if outcome.status == Status::Done {
        return;
    }
    match (&outcome.reason, path) {
        (Reason::ConfigRead, Some(path)) => tell_config(rt, path, config),
        (Reason::SessionRead, _) => tell_reason(rt, &outcome.reason, session),
        (Reason::Write, _) => tell_reason(rt, &outcome.reason, out),
        _ => tell_reason(rt, &outcome.reason, None),
    }
}

/// Tells that a page couldn't be written.
pub fn tell_unwritten<R: Eprint>(rt: &R, kind: ErrorKind) {
    tell_line(rt, "the output can't be written", Some(kind));
}

// The configuration of this name couldn't be read.
fn tell_config<R: Eprint>(rt: &R, path: &str, kind: Option<ErrorKind>) {
    let _ = match kind {
        Some(kind) => eprintln!(rt; "h2replay: the configuration {path} can't be read: {kind}"),
        None => eprintln!(rt; "h2replay: the configuration {path} can't be read"),
    };
}

fn tell_reason<R: Eprint + AllocGlobal>(rt: &R, reason: &Reason, kind: Option<ErrorKind>) {
    let mut text = Octets::new(rt.alloc());
    let told = put_reason(rt.alloc(), reason, &mut text);
    match (told, std::str::from_utf8(text.as_slice())) {
        (Ok(()), Ok(line)) => tell_line(rt, line, kind),
        _ => tell_line(rt, "out of memory", None),
    }
}

fn tell_line<R: Eprint>(rt: &R, line: &str, kind: Option<ErrorKind>) {
    let _ = match kind {
        Some(kind) => eprintln!(rt; "h2replay: {line}: {kind}"),
        None => eprintln!(rt; "h2replay: {line}"),
    };
}
