//! The program `h2plot`: reads a tape with its summary on standard input, and writes its picture as one SVG file to standard
//! output.
#![tactic(auto)]

mod command;
mod pages;

use std::process::ExitCode;

fn main(rt: HostRuntime) -> ExitCode {
    command::plot_words(&rt, rt.stdin(), rt.stdout())
}
