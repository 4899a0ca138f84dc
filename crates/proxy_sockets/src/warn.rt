// What an operator should know, on standard error. Where that is closed there is nobody to tell.

use std::io::{Eprint, Error, ErrorKind};

/// The proxy can't listen.
pub fn warn_listen<R: Eprint>(rt: &R, at: &[u8], kind: ErrorKind) {
    let at = shown(at);
    let _ = match kind {
        ErrorKind::InvalidInput => {
            eprintln!(rt; "h2proxy: proxy.listen is no address with a port: {at}")
        }
        _ => eprintln!(rt; "h2proxy: can't listen at {at}: {kind}"),
    };
}

/// A cluster has no address that can be read.
pub fn warn_address<R: Eprint>(rt: &R, name: &[u8]) {
    let name = shown(name);
    let _ = eprintln!(rt;
        "h2proxy: cluster {name} has no address of numbers with a port, and is never reached"
    );
}

/// The system allows fewer files than may be needed.
pub fn warn_files<R: Eprint>(rt: &R, files: u64, most: u64) {
    let _ = eprintln!(rt;
        "h2proxy: {files} open files are allowed (ulimit -n), and {most} may be needed"
    );
}

/// A resource has no gauge.
pub fn warn_gauge<R: Eprint>(rt: &R, name: &[u8]) {
    let name = shown(name);
    let _ = eprintln!(rt; "h2proxy: resource {name} has no gauge: its triggers never fire");
}

/// A key that is set does nothing.
pub fn warn_key<R: Eprint>(rt: &R, what: &str) {
    let _ = eprintln!(rt; "h2proxy: {what}");
}

/// The journal can't be made.
pub fn warn_journal<R: Eprint>(rt: &R, path: &str, kind: ErrorKind) {
    let _ = eprintln!(rt; "h2proxy: the journal {path} can't be made: {kind}");
}

/// The journal of a worker that counts from 1, or of a relay, couldn't be written.
pub fn warn_written<R: Eprint>(rt: &R, worker: Option<u32>, kind: ErrorKind) {
    let _ = match worker {
        Some(worker) => eprintln!(rt;
            "h2proxy: the journal of worker {worker} can't be written: {kind}"
        ),
        None => eprintln!(rt; "h2proxy: the journal can't be written: {kind}"),
    };
}

/// The system gives no sockets.
pub fn warn_sockets<R: Eprint>(rt: &R, error: &Error) {
    let _ = eprintln!(rt; "h2proxy: no sockets: {error}");
}

/// Octets as they are told.
pub fn shown(octets: &[u8]) -> &str {
    std::str::from_utf8(octets).unwrap_or("?")
}
