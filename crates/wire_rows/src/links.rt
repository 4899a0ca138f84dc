// Connections and exchanges.
use crate::words::{Answers, next, number, small_number};
use anyhow::Result;
use std::alloc::Global;
use wire_links::{Ends, Links};

/// Prints a case of links, and what each of its calls answers.
pub fn show(rt: &HostRuntime, line: &str) -> Result<()> {
    let mut links = Links::new(rt.alloc());
    let answers = play(rt.alloc(), &mut links, line);
    drop(links);
    answers.print(rt, line)
}

// What the calls answer, one after another.
fn play(alloc: Global, links: &mut Links, line: &str) -> Answers {
    let mut answers = Answers::new(alloc);
    for call in line.split(" ; ").skip(1) {
        answers.begin();
        answer(&mut answers, links, &call_of(call));
    }
    answers
}

// The words of a call: its name, and up to four arguments.
#[derive(Clone, Copy)]
struct Call<'a> {
    name: &'a str,
    one: &'a str,
    two: &'a str,
    three: &'a str,
    four: &'a str,
}

fn call_of<'a>(text: &'a str) -> Call<'a> {
    let (name, rest) = next(text);
    let (one, rest) = next(rest);
    let (two, rest) = next(rest);
    let (three, four) = next(rest);
    Call {
        name,
        one,
        two,
        three,
        four,
    }
}

fn answer(answers: &mut Answers, links: &mut Links, call: &Call<'_>) {
    match call.name {
        "accept" | "join" | "concurrent" | "close" | "forget" => {
            let done = change(links, call);
            say_allowed(answers, done);
        }
        "drain" => {
            let drained = links.drain(small_number(call.one), small_number(call.two));
            say_yes(answers, drained);
        }
        "start" | "framed" => {
            let done = exchange(links, call);
            say_allowed(answers, done);
        }
        "doom" => {
            let ends = links.doom(number(call.one));
            say_ends(answers, ends);
        }
        "known" | "open" | "client" | "draining" => say_yes(answers, test(links, call)),
        _ => look(answers, links, call),
    }
}

fn say_allowed(answers: &mut Answers, is_done: bool) {
    answers.say(if is_done { "ok" } else { "not allowed" });
}

fn say_yes(answers: &mut Answers, holds: bool) {
    answers.say(if holds { "yes" } else { "no" });
}

// What changes a connection.
fn change(links: &mut Links, call: &Call<'_>) -> bool {
    let conn = small_number(call.one);
    let two = small_number(call.two);
    match call.name {
        "accept" => !links.is_known(conn) && links.accept(conn).is_ok(),
        "join" => !links.is_known(conn) && links.join(conn, two).is_ok(),
        "forget" => forgets(links, conn),
        "close" => {
            links.close(conn);
            true
        }
        _ => {
            links.set_concurrent(conn, two);
            true
        }
    }
}

fn forgets(links: &mut Links, conn: u32) -> bool {
    if links.exchanges_of(conn) > 0 {
        return false;
    }
    links.forget(conn);
    true
}

// What changes an exchange.
fn exchange(links: &mut Links, call: &Call<'_>) -> bool {
    let number = number(call.one);
    match call.name {
        "start" => starts(links, number, call),
        _ => frames(links, number, small_number(call.two)),
    }
}

// Whether an exchange could begin.
fn starts(links: &mut Links, exchange: u64, call: &Call<'_>) -> bool {
    let (conn, stream) = (small_number(call.two), small_number(call.three));
    if !links.is_client(conn) || links.ends_of(exchange).is_some() {
        return false;
    }
    if links.exchange_at(conn, stream).is_some() {
        return false;
    }
    let Some(to) = call.four.parse::<u32>().ok() else {
        return links.start(exchange, conn, stream, None).is_ok();
    };
    if links.cluster_of(to).is_none() {
        return false;
    }
    links.start(exchange, conn, stream, Some(to)).is_ok()
}

// Whether the exchange has a cluster's connection, and the stream is its first there and free.
fn frames(links: &mut Links, exchange: u64, stream: u32) -> bool {
    let Some(ends) = links.ends_of(exchange) else {
        return false;
    };
    let Some(to) = ends.cluster else {
        return false;
    };
    if ends.cluster_stream.is_some() || links.exchange_at(to, stream).is_some() {
        return false;
    }
    links.framed_to(exchange, stream).is_ok()
}

fn test(links: &Links, call: &Call<'_>) -> bool {
    let conn = small_number(call.one);
    match call.name {
        "known" => links.is_known(conn),
        "open" => links.is_open(conn),
        "client" => links.is_client(conn),
        _ => links.is_draining(conn),
    }
}

// What is looked up.
fn look(answers: &mut Answers, links: &Links, call: &Call<'_>) {
    let conn = small_number(call.one);
    match call.name {
        "cluster" => say_small(answers, links.cluster_of(conn)),
        "last" => say_small(answers, links.goaway_last(conn)),
        "next_client" => say_small(answers, links.next_client(conn)),
        "choose" => say_small(answers, links.choose(conn)),
        "ends" => say_ends(answers, links.ends_of(number(call.one))),
        _ => look_at_exchanges(answers, links, conn, call),
    }
}

fn look_at_exchanges(answers: &mut Answers, links: &Links, conn: u32, call: &Call<'_>) {
    match call.name {
        "at" => answers.say_or(links.exchange_at(conn, small_number(call.two)), "-"),
        "count" => answers.say_number(links.exchanges_of(conn) as u64),
        "least" => answers.say_or(links.least_of(conn), "-"),
        "next" => answers.say_or(links.next_of(conn, number(call.two)), "-"),
        _ => answers.say("no such call"),
    }
}

fn say_small(answers: &mut Answers, number: Option<u32>) {
    match number {
        Some(number) => answers.say_number(u64::from(number)),
        None => answers.say("-"),
    }
}

// `CLIENT/STREAM CLUSTER/STREAM`
fn say_ends(answers: &mut Answers, ends: Option<Ends>) {
    let Some(ends) = ends else {
        answers.say("-");
        return;
    };
    answers.say_number(u64::from(ends.client));
    answers.say_with("/", u64::from(ends.stream));
    answers.say(" ");
    say_small(answers, ends.cluster);
    answers.say("/");
    say_small(answers, ends.cluster_stream);
}
