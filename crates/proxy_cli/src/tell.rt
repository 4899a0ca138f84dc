// Why the proxy ended, on standard error.

use crate::config_path;
use crate::pages::USAGE;
use config_tables::ConfigFault;
use config_text::tell_no_toml;
use io_ports::Octets;
use proxy_site::{ServeReason, Status};
use proxy_wire::{ProxyReason, ProxyServed, WireEnd};
use relay_work::RelayEnded;
use session_config::put_config_fault;
use std::io::{Eprint, ErrorKind};
use worker_loop::Ended;

/// Tells why the proxy ended otherwise than by its turns: in one line, or in one for each worker that did; where the words have no
/// form, that is the usage. Given are the words, what was read of the configuration, and the kinds of the errors that its last read
/// and the output's last write failed with. Where standard error is closed there is nobody to tell.
pub fn tell_served<R: Eprint + AllocGlobal>(
    rt: &R,
    served: ProxyServed,
    words: &[String],
    text: &[u8],
    config: Option<ErrorKind>,
    out: Option<ErrorKind>,
) {
    match served.reason {
        ProxyReason::Wire(end) => tell_wire(rt, end, out),
        ProxyReason::Relay(_) if served.status == Status::Done => {}
        ProxyReason::Relay(ServeReason::Words) => {
            let _ = rt.eprint(USAGE);
        }
        ProxyReason::Relay(ServeReason::Config(ConfigFault::NotToml)) => tell_no_toml(
            rt, "h2proxy", text,
        ),
        ProxyReason::Relay(reason) => tell_reason(rt, reason, config_path(words), config, out),
    }
}

fn tell_reason<R: Eprint + AllocGlobal>(
    rt: &R,
    reason: ServeReason,
    path: Option<&str>,
    config: Option<ErrorKind>,
    out: Option<ErrorKind>,
) {
    match (reason, path) {
        (ServeReason::Config(fault), _) => tell_config(rt, fault),
        (ServeReason::ConfigRead, Some(path)) => tell_unread(rt, path, config),
        (ServeReason::Write, _) => tell_line(rt, line_of(&ServeReason::Write), out),
        (reason, _) => tell_line(rt, line_of(&reason), None),
    }
}

// The configuration of this name couldn't be read.
fn tell_unread<R: Eprint>(rt: &R, path: &str, kind: Option<ErrorKind>) {
    let _ = match kind {
        Some(kind) => eprintln!(rt; "h2proxy: the configuration {path} can't be read: {kind}"),
        None => eprintln!(rt; "h2proxy: the configuration {path} can't be read"),
    };
}

/// Tells that a page couldn't be written.
pub fn tell_unwritten<R: Eprint>(rt: &R, kind: ErrorKind) {
    tell_line(rt, line_of(&ServeReason::Write), Some(kind));
}

fn line_of(reason: &ServeReason) -> &'static str {
    match reason {
        ServeReason::Words => "the words have no form",
        ServeReason::Config(_) => "the configuration is refused",
        ServeReason::LongConfig => "the configuration has more than 1,048,576 octets",
        ServeReason::ConfigRead => "the configuration can't be read",
        ServeReason::Listen => "ended, since it can't listen",
        ServeReason::Fit => "ended, since it has no sockets or no journal",
        ServeReason::Write => "the output can't be written",
        ServeReason::JournalHead => "the journal can't be written",
        ServeReason::Relay(RelayEnded::TapsFault) =>
            "ended, since the system couldn't wait for its sockets",
        ServeReason::Relay(RelayEnded::JournalFault) => "ended, since the journal can't be written",
        ServeReason::Relay(RelayEnded::Memory) => "ended, out of memory",
        ServeReason::Relay(_) => "ended",
        ServeReason::Memory => "out of memory",
    }
}

// Tells why the proxy of HTTP/2 ended, or if its workers ran, why each of them did.
fn tell_wire<R: Eprint>(rt: &R, end: WireEnd, out: Option<ErrorKind>) {
    match end {
        WireEnd::Listen => tell_line(rt, line_of(&ServeReason::Listen), None),
        WireEnd::Fit => tell_line(rt, line_of(&ServeReason::Fit), None),
        WireEnd::JournalHead => tell_line(rt, line_of(&ServeReason::JournalHead), None),
        WireEnd::Write => tell_line(rt, line_of(&ServeReason::Write), out),
        WireEnd::Memory => tell_line(rt, line_of(&ServeReason::Memory), None),
        WireEnd::Workers(ends) => tell_workers(rt, ends.as_slice()),
        WireEnd::Round(ends) => {
            tell_line(rt, "ended, since clients can't be accepted", None);
            tell_workers(rt, ends.as_slice());
        }
        WireEnd::Threads(ends) => {
            tell_line(rt, "ended, since a worker had no thread", None);
            tell_workers(rt, ends.as_slice());
        }
    }
}

fn tell_workers<R: Eprint>(rt: &R, ends: &[Ended]) {
    let mut worker = 0u32;
    for ended in ends {
        worker = worker.saturating_add(1);
        tell_worker(rt, worker, *ended);
    }
}

fn tell_worker<R: Eprint>(rt: &R, worker: u32, ended: Ended) {
    if let Some(why) = cause_of(ended) {
        let _ = eprintln!(rt; "h2proxy: worker {worker} ended, {why}");
    }
}

// Why a worker ended, where that wasn't by its turns.
fn cause_of(ended: Ended) -> Option<&'static str> {
    match ended {
        Ended::Turns => None,
        Ended::Stopped => Some("since it was told to stop"),
        Ended::WiresFault => Some("since the system couldn't wait for its sockets"),
        Ended::JournalFault => Some("since its journal can't be written"),
        Ended::Memory => Some("out of memory"),
    }
}

fn tell_config<R: Eprint + AllocGlobal>(rt: &R, fault: ConfigFault) {
    let mut text = Octets::new(rt.alloc());
    let told = put_config_fault(&fault, &mut text);
    match (told, std::str::from_utf8(text.as_slice())) {
        (Ok(()), Ok(line)) => tell_line(rt, line, None),
        _ => tell_line(rt, "out of memory", None),
    }
}

fn tell_line<R: Eprint>(rt: &R, line: &str, kind: Option<ErrorKind>) {
    let _ = match kind {
        Some(kind) => eprintln!(rt; "h2proxy: {line}: {kind}"),
        None => eprintln!(rt; "h2proxy: {line}"),
    };
}
