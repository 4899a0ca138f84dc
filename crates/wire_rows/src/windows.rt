//! The flow-control windows of one connection. The first word of a case is `windows CONNECTION STREAM`: what this side grants
//! on the connection and on each stream. X is an exchange, N a number of octets.
//!
//! | Call | What is done, and what is printed |
//! |---|---|
//! | `begin X`, `ended X` | the stream that comes from the peer begins, or END_STREAM came on it |
//! | `came X N` | DATA came: `fits`, `stream over` or `connection over` |
//! | `late N` | octets of no live stream came: `fits` or `over` |
//! | `moved X N`, `padded X N`, `dropped X N` | octets left the receive buffer, were padding, or went with the doom of the exchange: `-`, or `not held` |
//! | `wasted N` | octets that no stream holds go nowhere: `-`, or `not stray` |
//! | `first`, `due`, `next X` | what the first WINDOW_UPDATE is to grant, whether one of the connection is due, the next stream after X that is due one, or `none` |
//! | `grant first`, `grant connection`, `grant X` | what a WINDOW_UPDATE grants |
//! | `conn`, `stream X` | what a window has left, holds and owes; of the connection also what is stray |
//! | `open X`, `close X` | the stream to the peer opens, or is closed |
//! | `spend X N` | DATA is framed: `-`, or `no room` |
//! | `widen X N`, `widen N` | a WINDOW_UPDATE came, of a stream or of the connection: `-`, or `overflow` |
//! | `initial N ..` | a SETTINGS frame names these initial windows: `-`, or `overflow` |
//! | `payload N` | a SETTINGS frame names the greatest payload |
//! | `room X`, `room` | the room of a stream, or `closed`, and that of the connection |
//! | `peer` | the peer's initial window and greatest payload |
ghost use Rattle.std.specs.Prelude.{◌≡◌, ◌-◌, ◌<◌, ◌≤◌, ◌^◌, true};
ghost use Rattle.wire_windows.specs.RecvWindows.{held_at};
ghost use Rattle.wire_windows.specs.SendWindows.{HasRoom};

use crate::words::{Answers, small_number};
use anyhow::Result;
use h2_windows::{MAX_WINDOW, RecvWindow};
use std::alloc::Global;
use wire_windows::{Came, ConnWindows, RecvStream, RecvWindows, SendWindows};

pub fn show(rt: &HostRuntime, line: &str) -> Result<()> {
    let (first, calls) = line.split_once(" ; ").unwrap_or((line, ""));
    let (_, sizes) = first.split_once(' ').unwrap_or((first, ""));
    let (connection, stream) = pair(sizes);
    let mut windows = ConnWindows::new(rt.alloc(), at_least_first(connection), stream);
    let answers = play(rt.alloc(), &mut windows, calls);
    drop(windows);
    answers.print(rt, line)
}

// What the calls answer, one after another.
fn play(alloc: Global, windows: &mut ConnWindows, calls: &str) -> Answers {
    let mut answers = Answers::new(alloc);
    for call in calls.split(" ; ") {
        answers.begin();
        answer(&mut answers, windows, call);
    }
    answers
}

// Each side of the windows knows its own calls.
fn answer(answers: &mut Answers, windows: &mut ConnWindows, call: &str) {
    let (word, rest) = call.split_once(' ').unwrap_or((call, ""));
    match word {
        "begin" | "came" | "late" | "ended" | "wasted" => {
            answers.say(arrival(&mut windows.recv, word, rest));
        }
        "moved" | "padded" | "dropped" => answers.say(leaving(&mut windows.recv, word, rest)),
        "first" | "due" | "next" | "conn" | "stream" => {
            say_credit(answers, &windows.recv, word, rest);
        }
        "grant" => answers.say_number(u64::from(granted(&mut windows.recv, rest))),
        "room" | "peer" => say_room(answers, &windows.send, word, rest),
        _ => answers.say(sent(&mut windows.send, word, rest)),
    }
}

// What comes, and what becomes of it.
fn arrival(windows: &mut RecvWindows, word: &str, rest: &str) -> &'static str {
    let (x, n) = pair(rest);
    let exchange = u64::from(x);
    match word {
        "begin" => begun(windows, exchange),
        "came" => came_word(windows.came(exchange, n)),
        "late" => {
            if windows.late(x).is_ok() {
                "fits"
            } else {
                "over"
            }
        }
        "ended" => {
            windows.ended(exchange);
            "-"
        }
        _ if x <= windows.stray() => {
            windows.wasted(x);
            "-"
        }
        _ => "not stray",
    }
}

fn begun(windows: &mut RecvWindows, exchange: u64) -> &'static str {
    if windows.stream(exchange).is_some() {
        return "begun before";
    }
    if windows.begin(exchange).is_ok() {
        "-"
    } else {
        "no memory"
    }
}

// Octets leave a receive buffer, were padding, or go with a doom.
fn leaving(windows: &mut RecvWindows, word: &str, rest: &str) -> &'static str {
    let (x, n) = pair(rest);
    let exchange = u64::from(x);
    if n > held(windows, exchange) {
        return "not held";
    }
    match word {
        "moved" => windows.moved(exchange, n),
        "padded" => windows.padded(exchange, n),
        _ => windows.dropped(exchange, n),
    }
    "-"
}

fn held(windows: &RecvWindows, exchange: u64) -> u32
    ensures { result ≡ held_at exchange windows.now }
{
    match windows.stream(exchange) {
        Some(stream) => stream.window.held(),
        None => 0,
    }
}

// What is to be granted.
fn say_credit(answers: &mut Answers, windows: &RecvWindows, word: &str, rest: &str) {
    let (x, _) = pair(rest);
    let exchange = u64::from(x);
    match word {
        "first" => answers.say_number(u64::from(windows.first_credit())),
        "due" => answers.say(if windows.is_conn_due() {
            "due"
        } else {
            "not due"
        }),
        "next" => answers.say_or(windows.next_due(exchange), "none"),
        "conn" => {
            say_window(answers, windows.conn());
            answers.say_with(", stray ", u64::from(windows.stray()));
        }
        _ => say_stream(answers, windows.stream(exchange)),
    }
}

fn say_stream(answers: &mut Answers, stream: Option<RecvStream>) {
    let Some(stream) = stream else {
        answers.say("none");
        return;
    };
    say_window(answers, stream.window);
    if stream.ended {
        answers.say(", ended");
    }
}

fn say_window(answers: &mut Answers, window: RecvWindow) {
    answers.say_with("left ", u64::from(window.left()));
    answers.say_with(", held ", u64::from(window.held()));
    answers.say_with(", owed ", u64::from(window.owed()));
}

fn granted(windows: &mut RecvWindows, rest: &str) -> u32 {
    match rest {
        "first" => windows.grant_first(),
        "connection" => windows.grant_conn(),
        _ => windows.grant(u64::from(small_number(rest))),
    }
}

// What this side sends, and what the peer lets it send.
fn sent(windows: &mut SendWindows, word: &str, rest: &str) -> &'static str {
    let (x, n) = pair(rest);
    let exchange = u64::from(x);
    match word {
        "open" => opened(windows, exchange),
        "close" => {
            windows.close(exchange);
            "-"
        }
        "spend" if has_room(windows, exchange, n) => {
            windows.spend(exchange, n);
            "-"
        }
        "spend" => "no room",
        "widen" => overflow_word(widened(windows, rest)),
        "initial" => overflow_word(initials(windows, rest)),
        "payload" => {
            windows.set_payload(x);
            "-"
        }
        _ => "no such call",
    }
}

fn opened(windows: &mut SendWindows, exchange: u64) -> &'static str {
    if windows.room(exchange).is_some() {
        return "open before";
    }
    if windows.open(exchange).is_ok() {
        "-"
    } else {
        "no memory"
    }
}

// `X N` of a stream, or `N` of the connection.
fn widened(windows: &mut SendWindows, rest: &str) -> bool {
    let (x, n) = pair(rest);
    if rest.contains(' ') {
        windows.widen(u64::from(x), n).is_ok()
    } else {
        windows.widen_conn(x).is_ok()
    }
}

// The room of a stream or of the connection, or what the peer named.
fn say_room(answers: &mut Answers, windows: &SendWindows, word: &str, rest: &str) {
    match word {
        "peer" => {
            answers.say_with("initial ", u64::from(windows.initial()));
            answers.say_with(", payload ", u64::from(windows.payload()));
        }
        _ if rest.is_empty() => answers.say_signed(windows.conn_room()),
        _ => match windows.room(u64::from(small_number(rest))) {
            Some(room) => answers.say_signed(room),
            None => answers.say("closed"),
        },
    }
}

// Whether so many octets may be sent, or none are.
fn has_room(windows: &SendWindows, exchange: u64, n: u32) -> bool
    ensures { result ≡ true → 0 < n → HasRoom exchange n windows.now }
{
    let n = i64::from(n);
    match windows.room(exchange) {
        _ if n == 0 => true,
        Some(room) => n <= room && n <= windows.conn_room(),
        None => false,
    }
}

/// The greatest and the last of some initial windows.
#[derive(Clone, Copy)]
struct InitialWindows {
    greatest: u32,
    last: u32,
    ghost order: { last ≤ greatest },
    ghost most: { greatest ≤ 2 ^ 31 - 1 },
}

impl InitialWindows {
    fn none() -> Self {
        InitialWindows {
            greatest: 0,
            last: 0,
        }
    }

    // With one more behind them.
    fn and(self, initial: u32) -> Self {
        let last = initial.min(MAX_WINDOW);
        InitialWindows {
            greatest: self.greatest.max(last),
            last,
        }
    }
}

// The initial windows of one SETTINGS frame: whether they could be set.
fn initials(windows: &mut SendWindows, words: &str) -> bool {
    let mut initials = InitialWindows::none();
    for word in words.split(' ') {
        initials = initials.and(small_number(word));
    }
    windows
        .set_initial(initials.greatest, initials.last)
        .is_ok()
}

fn came_word(came: Came) -> &'static str {
    match came {
        Came::Fits => "fits",
        Came::StreamOver => "stream over",
        Came::ConnOver => "connection over",
    }
}

fn overflow_word(fits: bool) -> &'static str {
    if fits { "-" } else { "overflow" }
}

fn pair(words: &str) -> (u32, u32) {
    let (first, second) = words.split_once(' ').unwrap_or((words, ""));
    (small_number(first), small_number(second))
}

// A connection's window is never smaller than what its peer begins with.
fn at_least_first(connection: u32) -> u32
    ensures { 65535 ≤ result }
{
    connection.max(65_535)
}
