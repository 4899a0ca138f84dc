//! Prints what the machines of a wire session answer in each case of standard input. The head of `stdin` says how a case is
//! written.
#![tactic(auto)]

mod flows;
mod heads;
mod inlet;
mod links;
mod load;
mod outlet;
mod timers;
mod windows;
mod words;

use std::io::Read;

fn main(rt: HostRuntime) -> anyhow::Result<()> {
    let mut octets = Vec::new(rt.alloc());
    rt.reader().read_to_end(&mut octets)?;
    let text = std::str::from_utf8(octets.as_slice()).unwrap_or("not UTF-8");
    for line in text.lines() {
        show_line(&rt, line)?;
    }
    Ok(())
}

// Prints a heading, or a case and what its calls answer, by the machine that it names. Comments say nothing.
fn show_line(rt: &HostRuntime, line: &str) -> anyhow::Result<()> {
    if line.starts_with("## ") {
        println!(rt; "{line}")?;
        return Ok(());
    }
    let (machine, _) = line.split_once(' ').unwrap_or((line, ""));
    match machine {
        "flows" => flows::show(rt, line),
        "heads" => heads::show(rt, line),
        "inlet" => inlet::show(rt, line),
        "links" => links::show(rt, line),
        "load" => load::show(rt, line),
        "outlet" => outlet::show(rt, line),
        "timers" => timers::show(rt, line),
        "windows" => windows::show(rt, line),
        _ => no_case(rt, line),
    }
}

// A comment, an empty line, or a case that names no machine.
fn no_case(rt: &HostRuntime, line: &str) -> anyhow::Result<()> {
    if !line.is_empty() && !line.starts_with('#') {
        println!(rt; "{line}: no such case")?;
    }
    Ok(())
}
