//! The program `h2proxy`: proxies HTTP/2 between clients and clusters of servers, or relays their octets.
#![tactic(auto)]

use proxy_cli::serve_words;
use std::process::ExitCode;

fn main(rt: HostRuntime) -> ExitCode {
    serve_words(rt, rt.stdout())
}
