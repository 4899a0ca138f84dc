//! Draws the tapes of standard input, one after another, and prints how each ends and its picture.
//!
//! A case begins with a line `## NAME`. The next line has its words behind a dollar sign, as `$ --from 2`, where a lone dollar
//! sign is no words. Lines `% read K` and `% write K` say that this read of the tape or write of the picture, counted from 0,
//! fails. The other lines are the tape, in which `aa*3` at a line's end stands for `aaaaaa`; a line `% cut` behind it takes its last
//! newline away.
#![tactic(auto)]

mod case;
mod show;

use crate::case::Case;
use crate::show::show_case;
use std::io::{self, Read};

fn main(rt: HostRuntime) -> io::Result<()> {
    let mut text = Vec::new(rt.alloc());
    rt.reader().read_to_end(&mut text)?;
    show_cases(&rt, std::str::from_utf8(text.as_slice()).unwrap_or(""))
}

fn show_cases<R: Print + AllocGlobal>(rt: &R, text: &str) -> io::Result<()> {
    let mut case = Case::new(rt.alloc());
    let end = read_cases(rt, text, &mut case);
    drop(case);
    end
}

fn read_cases<R: Print + AllocGlobal>(rt: &R, text: &str, case: &mut Case) -> io::Result<()> {
    let mut is_open = false;
    for line in text.strip_suffix('\n').unwrap_or(text).split('\n') {
        if line.starts_with("## ") {
            if is_open {
                show_case(rt, case)?;
            }
            println!(rt; "{line}")?;
            case.clear();
            is_open = true;
        } else if case.line(line).is_err() {
            println!(rt; "no memory")?;
        }
    }
    show_case(rt, case)
}
