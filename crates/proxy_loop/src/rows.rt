// The cases of the standard input, which run over a site in memory.
mod aloud;
mod case;
mod run;
mod show;
mod still;

use crate::rows::case::Case;
use crate::rows::show::show_case;
use std::io::Read;
use std::sync::Wait;
use std::thread::Threads;
use std::{io, mem};

/// Runs the cases of the standard input, one after another, and prints how each ends.
pub fn run_cases<R: Print + Input + AllocGlobal + Threads + Wait + Sync + Copy + Drop>(
    rt: R,
) -> io::Result<()> {
    let mut text = Vec::new(rt.alloc());
    rt.reader().read_to_end(&mut text)?;
    show_cases(rt, std::str::from_utf8(text.as_slice()).unwrap_or(""))
}

// A case is dropped by a call, since the check follows a drop without one field by field.
fn show_cases<R: Print + AllocGlobal + Threads + Wait + Sync + Copy + Drop>(
    rt: R,
    text: &str,
) -> io::Result<()> {
    let mut case = Case::new(rt.alloc());
    let end = read_cases(rt, text, &mut case);
    drop(case);
    end
}

fn read_cases<R: Print + AllocGlobal + Threads + Wait + Sync + Copy + Drop>(
    rt: R,
    text: &str,
    case: &mut Case,
) -> io::Result<()> {
    let mut is_open = false;
    for line in text.strip_suffix('\n').unwrap_or(text).split('\n') {
        if line.starts_with("## ") {
            begin_case(rt, line, case, is_open)?;
            is_open = true;
        } else {
            take_line(rt, line, case)?;
        }
    }
    show_case(rt, case)
}

// Shows the case before, if there is one, and begins another.
fn begin_case<R: Print + AllocGlobal + Threads + Wait + Sync + Copy + Drop>(
    rt: R,
    line: &str,
    case: &mut Case,
    is_open: bool,
) -> io::Result<()> {
    if is_open {
        show_case(rt, case)?;
    }
    drop(mem::replace(case, Case::new(rt.alloc())));
    println!(rt; "{line}")
}

fn take_line<R: Print + AllocGlobal + Copy + Drop>(
    rt: R,
    line: &str,
    case: &mut Case,
) -> io::Result<()> {
    match case.line(rt.alloc(), line) {
        Ok(()) => Ok(()),
        Err(_) => println!(rt; "no memory"),
    }
}
