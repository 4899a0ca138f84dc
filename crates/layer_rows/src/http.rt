// Frames, connections and windows of HTTP/2, field blocks and lists of fields. The head of the part `http` in `stdin` says how a
// case is written.
mod blocks;
mod connections;
mod field_blocks;
mod field_words;
mod frames;
mod heads;
mod streams;
mod windows;
mod words;

use crate::http::blocks::{say_block, say_preface, say_settings};
use crate::http::connections::say_connection;
use crate::http::field_blocks::{say_again, say_cuts, say_decoded, say_encoded};
use crate::http::frames::{say_data_head, say_head, say_read};
use crate::http::heads::{say_length, say_reply, say_request, say_response, say_trailers};
use crate::http::streams::say_many;
use crate::http::windows::{say_receive, say_send};
use crate::said::Said;
use anyhow::Result;

/// Prints each line, and what its case gives.
pub fn show_lines<R: Print + AllocGlobal>(rt: &R, text: &str) -> Result<()> {
    for line in text.lines() {
        show_line(rt, line)?;
    }
    Ok(())
}

// Prints a heading, or a case and what it gives.
fn show_line<R: Print + AllocGlobal>(rt: &R, line: &str) -> Result<()> {
    let heading = line.starts_with("## ");
    if line.is_empty() || (line.starts_with("#") && !heading) {
        return Ok(());
    }
    let mut said = Said::new(rt.alloc());
    said.line(line);
    if !heading {
        say_case(&mut said, line);
    }
    said.print(rt)
}

// What a case gives, by its first word.
fn say_case(said: &mut Said, line: &str) {
    let (kind, words) = line.split_once(' ').unwrap_or((line, ""));
    match kind {
        "decode" => say_decoded(said, words),
        "cuts" => say_cuts(said, words),
        "encode" => say_encoded(said, words),
        "again" => say_again(said, words),
        "request" => say_request(said, words),
        "response" => say_response(said, words),
        "trailers" => say_trailers(said, words),
        "length" => say_length(said, words),
        "reply" => say_reply(said, words),
        _ => say_line(said, kind, words),
    }
}

// What a case gives that gives one line.
fn say_line(said: &mut Said, kind: &str, words: &str) {
    said.say("  ");
    match kind {
        "read" => say_read(said, words),
        "head" => say_head(said, words),
        "data" => say_data_head(said, words),
        "block" => say_block(said, words),
        "settings" => say_settings(said, words),
        "preface" => say_preface(said, words),
        "client" => say_connection(said, false, words),
        "cluster" => say_connection(said, true, words),
        "many" => say_many(said, words),
        "receive" => say_receive(said, words),
        "send" => say_send(said, words),
        _ => said.say("no such case"),
    }
    said.say("\n");
}
