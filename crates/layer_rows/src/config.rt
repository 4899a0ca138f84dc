// Texts of configurations: the configuration that each is, or why it is none, and then that of `sample.toml` and the defaults. A text
// begins with a line `## NAME`. A line `#? AUTHORITY PATH` in it, with `-` for no authority, asks for the row of a request.
mod overload;
mod show;

use crate::config::show::{say_config, say_list, say_text};
use crate::cut_before;
use crate::said::Said;
use anyhow::Result;
use proxy_config::Config;
use std::fs;

/// Prints the configuration of each text, that of the sample and the defaults.
pub fn show_texts(rt: &HostRuntime, texts: &[u8]) -> Result<()> {
    let mut rest = texts;
    while !rest.is_empty() {
        let (text, others) = cut_before(rest, b"## ");
        show_text(rt, text)?;
        rest = others;
    }
    let sample = fs::read(rt, "sample.toml")?;
    show_text(rt, sample.as_slice())?;
    show_defaults(rt)
}

fn show_text<R: Print + AllocGlobal>(rt: &R, text: &[u8]) -> Result<()> {
    let mut said = Said::new(rt.alloc());
    say_text(&mut said, text);
    said.print(rt)
}

fn show_defaults<R: Print + AllocGlobal>(rt: &R) -> Result<()> {
    let mut said = Said::new(rt.alloc());
    said.line("## the defaults");
    say_defaults(&mut said);
    said.print(rt)
}

// A configuration is dropped by a call, since the check follows a drop without one field by field.
fn say_defaults(said: &mut Said) {
    match Config::of_defaults(said.alloc()) {
        Ok(defaults) => {
            say_config(said, &defaults);
            drop(defaults);
            say_list(said);
        }
        Err(_) => said.line("no memory"),
    }
}
