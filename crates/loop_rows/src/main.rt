//! Runs live workers, live relays and replays over memory, one case of standard input after another, and prints how each ends: of a
//! worker the turns at which its gate was passed, its journal, how many dispatches and notes there were, what the connections gave,
//! were offered and were closed, how many permits are kept, and with which status and how many notes the journal replays. Before
//! the cases it does what `h2replay` does with this program's own words, if it has any (the gate gives it `drill 20`, and `h2replay`
//! itself `plain`). With the words `bench BENCH` it runs a bench of a live worker or of its journal instead, by hand, and with `bench`
//! alone it prints which there are, as with a case whose first line is `bench`.
//!
//! A case begins with a line `## NAME`. Lines `| TEXT` are the configuration's. A line `$ TURNS MOST PERMITS` has how many turns
//! there are, how many octets an offer takes at most, and how many permits; `% tokens N` meters the client connections with N
//! tokens. Lines `% wires K` and `% journal K` say that this call of the connections, or this write of the journal, counted from
//! 0, fails. The journal's first write is that of its header; `% room N` gives it room for N octets behind that, and with
//! `% piece N` a write takes N octets at most. The other lines are spelled as a session's: `accept C`, `join C NAME`,
//! `read C HEX`, `gone C`, `idle` and `stop` are what the connections give, in order; `tick T` is a moment of the clock, the last
//! of which it goes on to give; `post 0 0 JOB` is posted and `obey 0 P ..` published before the work begins. The follower learns
//! what was published last, since the publisher ends before the work begins, and what a follower hasn't read by then it could only
//! wait for. A line `again` runs the turns once more over what stands.
//!
//! A case with a line `meet` runs two workers in threads of their own, each of which waits at a turn for the other, and prints of
//! each whether it met the other and ran all its turns.
//!
//! A case whose first line is `relay` runs a live relay, and prints how it ends: its journal, what the connections gave, were offered
//! and were closed, and which of them are live and held. A line `$ LIMIT MOST TURNS` has the limit of the write buffers, how many
//! octets an offer takes at most, and how many turns there are. Lines `% taps K` and `% journal K` say that this call of the
//! connections, or this write of the journal, counted from 0, fails. The other lines are what the connections give: `accept C`,
//! `join C N`, `read C OCTET LENGTH`, `lost C`, `idle` and `stop`. A line `again` runs the turns once more over what stands. With a
//! line `dispatch` there are no turns: what the connections give is dispatched, one after another, and the text of each fault that a
//! dispatch answers is printed behind it. Then come the texts of the faults in lines `fault paused N`, `fault memory` and `fault failed`.
//!
//! A case whose first line is `replay` is replayed as `h2replay` does it, and prints how that ends and what it writes. The next line
//! has its words behind a dollar sign, as `$ plain`, where a dash is an empty word. Lines `| TEXT` are the configuration's. Lines
//! `% config K`, `% read K` and `% write K` say that this read of the configuration, read of the session or write, counted from 0,
//! fails. The other lines are the session, in which `aa*3` at a line's end stands for `aaaaaa`; a line `% cut` behind it takes its
//! last newline away. `% long config N` makes the configuration N octets long with newlines; `% long N` adds the session's last line
//! until it is longer than N octets, and of what such a session writes the last line alone is shown. The line `text plain`,
//! `text wire` or `text drill` alone prints the text of a short session, and the line `codes` the code of each status.
//!
//! A case whose first line is `shed` dispatches events to a core through the load shed points, and prints of each what became of it and
//! how many notes there were, and at the end the states of the points. Lines `| TEXT` are the configuration's, a line `forget C` says
//! that a connection is gone, and the others are events, spelled as a session's.
//!
//! A case with a line `sample P ..` samples these pressures from a gauge that has those of a line `gauge P ..`, and whose readings
//! `% gauge K` fail.
#![tactic(auto)]

mod bench;
mod case;
mod gates;
mod meeting;
mod parts;
mod points;
mod relay_case;
mod relay_faults;
mod relay_show;
mod replay_case;
mod replay_show;
mod run;
mod said;
mod sampling;
mod script;
mod shed_case;
mod show;
mod stage;
mod texts;

use crate::case::Case;
use crate::relay_show::say_relay;
use crate::replay_show::say_replay;
use crate::run::run_case;
use crate::said::Said;
use crate::shed_case::say_shed;
use crate::texts::{say_codes, say_texts};
use replay_cli::replay_words;
use std::env::{self, Env};
use std::io::{self, Read};
use std::sync::Wait;
use std::thread::Threads;

/// What the program's own words ask for.
#[derive(Drop)]
enum Asked {
    Cases,
    Replay,
    Bench(String),
}

fn main(rt: HostRuntime) -> anyhow::Result<()> {
    match what_is_asked(&rt)? {
        Asked::Bench(name) => bench::run(&rt, name.as_str()),
        Asked::Replay => {
            println!(rt; "## h2replay with this program's words")?;
            replay_words(&rt, io::empty(), rt.stdout());
            show_cases(&rt)
        }
        Asked::Cases => show_cases(&rt),
    }
}

fn show_cases<R: Print + Input + AllocGlobal + Threads + Wait + Sync>(
    rt: &R,
) -> anyhow::Result<()> {
    let mut text = Vec::new(rt.alloc());
    rt.reader().read_to_end(&mut text)?;
    let text = std::str::from_utf8(text.as_slice()).unwrap_or("");
    for case in text.split("## ").skip(1) {
        show_case(rt, case)?;
    }
    Ok(())
}

fn what_is_asked<R: Env + AllocGlobal>(rt: &R) -> io::Result<Asked> {
    let mut words = env::args(rt)?;
    let _program = words.next();
    let Some(first) = words.next() else {
        return Ok(Asked::Cases);
    };
    if first.as_str() != "bench" {
        return Ok(Asked::Replay);
    }
    Ok(Asked::Bench(words.next().unwrap_or(String::new(rt.alloc()))))
}

// Runs the case of this text, and prints how it ends.
fn show_case<R: Print + AllocGlobal + Threads + Wait + Sync>(rt: &R, text: &str) -> io::Result<()> {
    let (name, lines) = text.split_once('\n').unwrap_or((text, ""));
    let mut said = Said::new(rt.alloc());
    said.say("## ");
    said.line(name);
    say_case(rt, lines, &mut said);
    said.print(rt)
}

// How the case of these lines ends, by the first of them.
fn say_case<R: AllocGlobal + Threads + Wait + Sync>(rt: &R, lines: &str, said: &mut Said) {
    let (first, rest) = lines.split_once('\n').unwrap_or((lines, ""));
    match first {
        "relay" => say_relay(rt.alloc(), rest, said),
        "replay" => say_replay(rt.alloc(), rest, said),
        "shed" => say_shed(rt.alloc(), rest, said),
        "codes" => say_codes(said),
        "bench" => said.say(bench::USAGE),
        _ => match first.strip_prefix("text ") {
            Some(which) => say_texts(which, said),
            None => say_worker(rt, lines, said),
        },
    }
}

fn say_worker<R: AllocGlobal + Threads + Wait + Sync>(rt: &R, lines: &str, said: &mut Said) {
    let mut case = Case::new(rt.alloc());
    match case.read(lines) {
        Ok(()) => run_case(rt, &mut case, said),
        Err(_) => said.lack(),
    }
}
