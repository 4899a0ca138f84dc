// Running a case.
use crate::rows::case::{Case, play_of};
use crate::rows::still::Still;
use io_ports::{MemSink, MemSource, NoMemory, Octets};
use mem_ports::MemGauge;
use mem_wire_site::MemWireSite;
use proxy_site::MemSite;
use proxy_wire::{ProxyServed, serve_proxy};
use std::alloc::Global;
use std::mem;
use std::sync::Wait;
use std::thread::Threads;
use wire_steps::WireSteps;

/// Where the proxy listens.
const ADDRESS: &[u8] = b"192.0.2.1:8000";

/// The greatest pressure of a resource, in parts per million.
const MOST_PRESSURE: u32 = 1_000_000;

/// The site of a case, which takes over what relays and workers are given.
pub fn site_of(alloc: Global, case: &mut Case) -> Result<MemWireSite, NoMemory> {
    let address = Octets::from_slice(alloc, ADDRESS)?;
    let play = mem::replace(&mut case.relay, play_of(alloc));
    let calls = mem::replace(&mut case.failing.site, Vec::new(alloc));
    let relays = MemSite::new(alloc, address, play, calls);
    let plays = mem::replace(&mut case.workers, Vec::new(alloc));
    let unfit = mem::replace(&mut case.failing.fit, Vec::new(alloc));
    let rounds = mem::replace(&mut case.failing.round, Vec::new(alloc));
    MemWireSite::new(alloc, relays, plays, unfit, rounds)
}

/// Where a case writes.
pub fn out_of(alloc: Global, case: &mut Case) -> Result<MemSink, NoMemory> {
    let writes = mem::replace(&mut case.failing.out, Vec::new(alloc));
    MemSink::new(alloc, case.room, writes)
}

/// Runs a case over its site. The answer says how the proxy ended.
pub fn run_case<R: AllocGlobal + Threads + Wait + Sync + Drop>(
    rt: R,
    case: &mut Case,
    site: &mut MemWireSite,
    out: &mut MemSink,
) -> Result<ProxyServed, NoMemory> {
    let alloc = rt.alloc();
    let mut config = Vec::new(alloc);
    config.extend_from_slice(case.config.as_slice())?;
    let reads = mem::replace(&mut case.failing.config, Vec::new(alloc));
    let mut source = MemSource::new(config, reads);
    let mut gauge = gauge_of(alloc, case);
    Ok(serve_proxy(
        &Still::new(rt),
        alloc,
        &WireSteps,
        case.words.as_slice(),
        &mut source,
        site,
        &mut gauge,
        out,
    ))
}

// A gauge with the pressures of a case, or with none where one is too great.
fn gauge_of(alloc: Global, case: &mut Case) -> MemGauge {
    let pressures = mem::replace(&mut case.pressures, Vec::new(alloc));
    if pressures.iter().all(|pressure| *pressure <= MOST_PRESSURE) {
        MemGauge::new(alloc, pressures, Vec::new(alloc))
    } else {
        MemGauge::new(alloc, Vec::new(alloc), Vec::new(alloc))
    }
}
