//! The command line of `h2replay`: its words are those behind the program's name.
#![tactic(auto)]

mod pages;
mod tell;

use crate::pages::{HELP, USAGE, VERSION};
use crate::tell::{tell_outcome, tell_unwritten};
use config_tables::ConfigFault;
use config_text::{ConfigFile, tell_no_toml};
use program_ports::{Input, Output};
use replay_run::{Form, Reason, Status, read_form, replay_with_reason};
use std::env::{self, Env};
use std::fs;
use std::io::{Eprint, ErrorKind, Read, Write};
use std::process::ExitCode;
use std::rt::Files;

/// Replays what the words ask for, from the input to the output, and answers the exit code of the
/// replay's status. Why it isn't 0 is told in a line on standard error; where the words have no form, that is the usage.
/// `--help` and `--version` are answered on the output.
pub fn replay_words<R: Env + Eprint + Files + AllocGlobal, I: Read + Drop, O: Write + Drop>(
    rt: &R,
    input: I,
    output: O,
) -> ExitCode {
    let words = match words(rt) {
        Ok(words) => words,
        Err(status) => return end_early(rt, status),
    };
    match page(words.as_slice()) {
        Some(text) => show_page(rt, output, text),
        None => replay_session(rt, words.as_slice(), input, output),
    }
}

fn replay_session<R: Eprint + Files + AllocGlobal, I: Read + Drop, O: Write + Drop>(
    rt: &R,
    words: &[String],
    input: I,
    output: O,
) -> ExitCode {
    let mut config = Input::new(open_config(rt, words));
    let mut session = Input::new(input);
    let mut out = Output::new(output);
    let outcome = replay_with_reason(rt.alloc(), words, &mut config, &mut session, &mut out);
    if outcome.status == Status::Usage {
        // Where standard error is closed there is nobody to tell.
        let _ = rt.eprint(USAGE);
    } else if let Reason::Config(ConfigFault::NotToml) = outcome.reason {
        tell_no_toml(rt, "h2replay", config.reader().text());
    } else {
        tell_outcome(
            rt,
            &outcome,
            config_path(words),
            config.kind(),
            session.kind(),
            out.kind(),
        );
    }
    ExitCode::from(outcome.status.code())
}

// Where the words can't be had there is nothing to replay.
fn end_early<R: Eprint>(rt: &R, status: Status) -> ExitCode {
    if status == Status::Usage {
        let _ = rt.eprint(USAGE);
    } else {
        let _ = rt.eprint("h2replay: out of memory\n");
    }
    ExitCode::from(status.code())
}

// The page that the words ask for, if they ask for one.
fn page(words: &[String]) -> Option<&'static str> {
    match words {
        [word] if word.as_str() == "--help" => Some(HELP),
        [word] if word.as_str() == "--version" => Some(VERSION),
        _ => None,
    }
}

fn show_page<R: Eprint, O: Write + Drop>(rt: &R, mut output: O, text: &str) -> ExitCode {
    match output.write_all(text.as_bytes()) {
        Ok(()) => ExitCode::from(Status::Done.code()),
        Err(error) => {
            tell_unwritten(rt, error.kind());
            ExitCode::from(Status::WriteFault.code())
        }
    }
}

// The file that the words name, if their form has one. One that can't be opened is a reader whose reads fail.
fn open_config<R: Files + AllocGlobal>(rt: &R, words: &[String]) -> ConfigFile<R::File> {
    match config_path(words) {
        Some(path) => ConfigFile::of(rt.alloc(), fs::open(rt, path)),
        None => ConfigFile::Shut(ErrorKind::NotFound),
    }
}

fn config_path(words: &[String]) -> Option<&str> {
    match (read_form(words), words) {
        (Some(Form::Wire | Form::Shed | Form::Relay), [_, path]) => Some(path.as_str()),
        _ => None,
    }
}

// The words behind the program's name. Words that aren't UTF-8 have no form.
fn words<R: Env + AllocGlobal>(rt: &R) -> Result<Vec<String>, Status> {
    let all = env::args(rt).map_err(|error| match error.kind() {
        ErrorKind::OutOfMemory => Status::Memory,
        _ => Status::Usage,
    })?;
    let mut words = Vec::new(rt.alloc());
    for word in all.skip(1) {
        words.push(word).map_err(|_| Status::Memory)?;
    }
    Ok(words)
}
