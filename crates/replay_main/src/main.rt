//! The program `h2replay`: replays the session on standard input, or a drill, and writes its tape or
//! summary to standard output.
#![tactic(auto)]

use replay_cli::replay_words;
use std::process::ExitCode;

fn main(rt: HostRuntime) -> ExitCode {
    replay_words(&rt, rt.stdin(), rt.stdout())
}
