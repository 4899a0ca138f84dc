// How a case ends.
use crate::rows::aloud::Aloud;
use crate::rows::case::Case;
use crate::rows::run::{out_of, run_case, site_of};
use io_ports::MemSink;
use mem_ports::Kept;
use mem_wire_site::{MemWireSite, PlayWires};
use proxy_cli::tell_served;
use proxy_site::MemSite;
use proxy_wire::ProxyServed;
use std::io;
use std::sync::Wait;
use std::thread::Threads;

/// Runs a case, and prints how it ends.
pub fn show_case<R: Print + AllocGlobal + Threads + Wait + Sync + Copy + Drop>(
    rt: R,
    case: &mut Case,
) -> io::Result<()> {
    match site_of(rt.alloc(), case) {
        Ok(mut site) => {
            let end = show_over(rt, case, &mut site);
            drop(site);
            end
        }
        Err(_) => println!(rt; "no memory"),
    }
}

fn show_over<R: Print + AllocGlobal + Threads + Wait + Sync + Copy + Drop>(
    rt: R,
    case: &mut Case,
    site: &mut MemWireSite,
) -> io::Result<()> {
    match out_of(rt.alloc(), case) {
        Ok(mut out) => {
            let end = show_run(rt, case, site, &mut out);
            drop(out);
            end
        }
        Err(_) => println!(rt; "no memory"),
    }
}

fn show_run<R: Print + AllocGlobal + Threads + Wait + Sync + Copy + Drop>(
    rt: R,
    case: &mut Case,
    site: &mut MemWireSite,
    out: &mut MemSink,
) -> io::Result<()> {
    match run_case(rt, case, site, out) {
        Ok(served) => {
            show_served(rt, case, served, out.octets())?;
            show_site(&rt, site)
        }
        Err(_) => println!(rt; "no memory"),
    }
}

// The status, what was written to the output, and what is told on standard error.
fn show_served<R: Print + AllocGlobal + Copy + Drop>(
    rt: R,
    case: &Case,
    served: ProxyServed,
    out: &[u8],
) -> io::Result<()> {
    let shown = show_status(&rt, served.status.code(), text(out));
    tell_served(
        &Aloud::new(rt),
        served,
        case.words.as_slice(),
        case.config.as_slice(),
        None,
        None,
    );
    shown
}

fn show_status<R: Print>(rt: &R, code: u8, out: &str) -> io::Result<()> {
    println!(rt; "status {code}")?;
    print!(rt; "{out}")
}

fn show_site<R: Print>(rt: &R, site: &MemWireSite) -> io::Result<()> {
    show_relays(rt, site.relay())?;
    show_workers(rt, site)?;
    println!(rt; "faults of the site: {}", site.faults())
}

// Where it was to listen, and what came back of relays.
fn show_relays<R: Print>(rt: &R, relays: &MemSite) -> io::Result<()> {
    for at in relays.asked() {
        println!(rt; "it was to listen at {}", text(at.as_slice()))?;
    }
    for (taps, journal) in relays.back() {
        print!(rt; "came ")?;
        show_back(rt, taps.faults(), journal.faults(), text(journal.octets()))?;
    }
    Ok(())
}

// With how many faults the connections and the journal came back, and what the journal has.
fn show_back<R: Print>(rt: &R, faults: u64, journal_faults: u64, journal: &str) -> io::Result<()> {
    println!(rt; "back, with {faults} and {journal_faults} faults")?;
    print!(rt; "{journal}")
}

// What came back of workers.
fn show_workers<R: Print>(rt: &R, site: &MemWireSite) -> io::Result<()> {
    for (worker, (wires, journal)) in site.returned() {
        print!(rt; "worker {worker} came ")?;
        show_back(rt, wires.faults(), journal.faults(), text(journal.octets()))?;
        show_closed(rt, wires)?;
    }
    if site.was_shut() {
        println!(rt; "no client was to be accepted")?;
    }
    Ok(())
}

// Which connections were closed.
fn show_closed<R: Print>(rt: &R, wires: &PlayWires) -> io::Result<()> {
    let (steps, _) = wires.record();
    for step in steps {
        if let Kept::Closed(conn) = step {
            println!(rt; "closed {conn}")?;
        }
    }
    Ok(())
}

fn text(octets: &[u8]) -> &str {
    std::str::from_utf8(octets).unwrap_or("no text\n")
}
