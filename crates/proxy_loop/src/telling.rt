// What is told of the runs over loopback.
use crate::client::LENGTH;
use crate::web_journal::Kept;
use crate::web_replay::replay;
use crate::web_user::{Answer, User};
use anyhow::Result;
use io_ports::Octets;
use std::alloc::Global;

/// Whether the output says that it listened on this machine.
pub fn tell_listening<R: Print>(rt: &R, out: &[u8]) -> Result<()> {
    if out.starts_with(b"listening 127.0.0.1:") {
        println!(rt; "it listened on this machine")?;
    }
    Ok(())
}

/// What of the octets was sent and came back, and whether the server saw the end.
pub fn tell_counts<R: Print>(rt: &R, counts: Option<(usize, usize)>, is_over: bool) -> Result<()> {
    match counts {
        Some((sent, back)) => {
            println!(rt; "of {LENGTH} octets {sent} were sent, and {back} came back as they were")?
        }
        None => println!(rt; "other octets came back")?,
    }
    if is_over {
        println!(rt; "the server saw the client end")?;
    }
    Ok(())
}

/// The answers that the client had.
pub fn tell_answers<R: Print>(rt: &R, user: &Option<User>) -> Result<()> {
    if let Some(user) = user {
        for answer in user.answers.as_slice() {
            tell_answer(rt, answer)?;
        }
    }
    Ok(())
}

/// How many journals replay as they should, and why exchanges ended. All are the client's, so their order is its worker's.
pub fn tell_replays<R: Print>(rt: &R, alloc: Global, text: &[u8], kept: &[Kept]) -> Result<()> {
    let mut dooms = Octets::new(alloc);
    let as_noted = replay_all(alloc, text, kept, &mut dooms)?;
    println!(rt; "{as_noted} workers' journals replay to their very notes")?;
    tell_dooms(rt, dooms.as_slice())
}

// How many replay as they should. Why exchanges ended is appended.
fn replay_all(alloc: Global, text: &[u8], kept: &[Kept], dooms: &mut Octets) -> Result<u32> {
    let mut as_noted = 0u32;
    for one in kept {
        let shown = replay(alloc, text, one)?;
        as_noted = as_noted.saturating_add(u32::from(shown.is_as_noted));
        dooms.push_all(shown.dooms.as_slice())?;
    }
    Ok(as_noted)
}

fn tell_dooms<R: Print>(rt: &R, dooms: &[u8]) -> Result<()> {
    let dooms = std::str::from_utf8(dooms).unwrap_or("?");
    for cause in dooms.lines() {
        println!(rt; "an exchange ended: {cause}")?;
    }
    Ok(())
}

fn tell_answer<R: Print>(rt: &R, answer: &Answer) -> Result<()> {
    let content = std::str::from_utf8(answer.content.as_slice()).unwrap_or("?");
    if answer.is_back {
        let octets = content.len();
        println!(rt;
            "{}: {}, and all {octets} octets came back",
            answer.what, answer.status
        )?;
    } else if content.is_empty() {
        println!(rt; "{}: {}", answer.what, answer.status)?;
    } else {
        println!(rt; "{}: {} {content}", answer.what, answer.status)?;
    }
    Ok(())
}
