//! The command line of `h2proxy`, whose words are those behind the program's name.
#![tactic(auto)]

mod pages;
mod tell;

use crate::pages::{HELP, USAGE, VERSION};
use crate::tell::tell_unwritten;
use config_text::ConfigFile;
use program_ports::{Input, Output};
use proxy_site::Status;
use proxy_sockets::{ClientCounts, ClientGauge, SocketSite};
use proxy_wire::{ProxyForm, read_proxy_form, serve_proxy};
use std::env::{self, Env};
use std::fs;
use std::io::{Eprint, ErrorKind, Write};
use std::net::Net;
use std::process::ExitCode;
use std::rt::Files;
use std::sync::{Arc, Wait};
use std::thread::Threads;
use std::time::Clock;
pub use tell::tell_served;
use wire_steps::WireSteps;

/// Does what the words ask for, with what the proxy says on the output, and answers the exit code of its status. Why it
/// isn't 0 is told in lines on standard error; where the words have no form, that is the usage. `--help` and `--version` are
/// answered on the output.
pub fn serve_words<
    R: Env
        + Eprint
        + Files
        + Net
        + Clock
        + Threads
        + Wait
        + AllocGlobal
        + Copy
        + Drop
        + Send
        + Sync,
    O: Write + Drop,
>(rt: R, output: O) -> ExitCode
where
    R::File: Send,
    R::Stream: Send,
    R::Listener: Send,
{
    let words = match words(&rt) {
        Ok(words) => words,
        Err(status) => return end_early(&rt, status),
    };
    match page(words.as_slice()) {
        Some(text) => show_page(&rt, output, text),
        None => serve_sockets(rt, words.as_slice(), output),
    }
}

fn serve_sockets<
    R: Eprint + Files + Net + Clock + Threads + Wait + AllocGlobal + Copy + Drop + Send + Sync,
    O: Write + Drop,
>(rt: R, words: &[String], output: O) -> ExitCode
where
    R::File: Send,
    R::Stream: Send,
    R::Listener: Send,
{
    let Ok(counts) = Arc::new(rt.alloc(), ClientCounts::new()) else {
        return end_early(&rt, Status::Memory);
    };
    match Arc::try_clone(&counts) {
        Ok(read) => {
            let mut gauge = ClientGauge::new(read);
            let mut site = SocketSite::new(rt, counts);
            let code = serve_site(&rt, words, &mut site, &mut gauge, output);
            drop(site);
            code
        }
        Err(_) => end_early(&rt, Status::Memory),
    }
}

fn serve_site<
    R: Eprint + Files + Net + Clock + Threads + Wait + AllocGlobal + Copy + Drop + Send + Sync,
    O: Write + Drop,
>(
    rt: &R,
    words: &[String],
    site: &mut SocketSite<R>,
    gauge: &mut ClientGauge,
    output: O,
) -> ExitCode
where
    R::File: Send,
    R::Stream: Send,
    R::Listener: Send,
{
    let mut config = Input::new(open_config(rt, words));
    let mut out = Output::new(output);
    let served = serve_proxy(
        rt,
        rt.alloc(),
        &WireSteps,
        words,
        &mut config,
        site,
        gauge,
        &mut out,
    );
    let code = ExitCode::from(served.status.code());
    tell_served(
        rt,
        served,
        words,
        config.reader().text(),
        config.kind(),
        out.kind(),
    );
    code
}

// Where the words can't be had, or there is no memory for the counts of clients, there is nothing to do.
fn end_early<R: Eprint>(rt: &R, status: Status) -> ExitCode {
    let text = if status == Status::Usage {
        USAGE
    } else {
        "h2proxy: out of memory\n"
    };
    let _ = rt.eprint(text);
    ExitCode::from(status.code())
}

// The page that the words ask for, if they ask for one.
fn page(words: &[String]) -> Option<&'static str> {
    match words {
        [word] if word.as_str() == "--help" => Some(HELP),
        [word] if word.as_str() == "--version" => Some(VERSION),
        _ => None,
    }
}

fn show_page<R: Eprint, O: Write + Drop>(rt: &R, mut output: O, text: &str) -> ExitCode {
    match output.write_all(text.as_bytes()) {
        Ok(()) => ExitCode::from(Status::Done.code()),
        Err(error) => {
            tell_unwritten(rt, error.kind());
            ExitCode::from(Status::WriteFault.code())
        }
    }
}

// The file that the words name, if they have a form. One that can't be opened is a reader whose reads fail.
fn open_config<R: Files + AllocGlobal>(rt: &R, words: &[String]) -> ConfigFile<R::File> {
    match config_path(words) {
        Some(path) => ConfigFile::of(rt.alloc(), fs::open(rt, path)),
        None => ConfigFile::Shut(ErrorKind::NotFound),
    }
}

fn config_path(words: &[String]) -> Option<&str> {
    let path = match read_proxy_form(words)? {
        ProxyForm::Relay { .. } => words.get(1)?,
        ProxyForm::Wire { .. } => words.first()?,
    };
    Some(path.as_str())
}

// The words behind the program's name. Words that aren't UTF-8 have no form.
fn words<R: Env + AllocGlobal>(rt: &R) -> Result<Vec<String>, Status> {
    let all = env::args(rt).map_err(|error| match error.kind() {
        ErrorKind::OutOfMemory => Status::Memory,
        _ => Status::Usage,
    })?;
    let mut words = Vec::new(rt.alloc());
    for word in all.skip(1) {
        words.push(word).map_err(|_| Status::Memory)?;
    }
    Ok(words)
}
