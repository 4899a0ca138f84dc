// The whole of the proxy, in all its forms.
ghost use Rattle.std.specs.Prelude.{map, ℕ, ◌≡◌, ◌≢◌, ◌↔◌};
ghost use Rattle.std.specs.String.{string_bytes};
ghost use Rattle.io_ports.specs.Faults.{Rose};
ghost use Rattle.proxy_site.specs.Relaying.{ServesRelay, SiteOrOut};
ghost use Rattle.proxy_site.specs.Serving.{ServesUnder, TellsEnd};
ghost use Rattle.proxy_wire.specs.Forms.{HasNoProxyForm, SpellsProxy};
ghost use Rattle.proxy_wire.specs.Reasons.{proxy_status};
ghost use Rattle.proxy_wire.specs.Serving.{ServesConfig, ServesWire};
ghost use Rattle.proxy_wire.specs.Tasks.{IsTask};
ghost use Rattle.worker_threads.specs.Starting.{outside_of};

use crate::end::WireEnd;
use crate::form::{ProxyForm, read_proxy_form};
use crate::pool::Task;
use crate::serving::serve_wire;
use config_tables::{ConfigFault, read_config};
use io_ports::{Sink, Source};
use proxy_site::{ServeReason, Status, WireSite, end_at_config, serve_with_reason};
use session_config::{ConfigEnd, load_text};
use std::alloc::Global;
use std::sync::Wait;
use std::thread::Threads;
use std::time::Clock;
use wire_state::CarryOut;
use worker_ports::Gauge;

/// How the proxy ended, and why.
#[derive(Drop)]
pub struct ProxyServed {
    pub status: Status,
    pub reason: ProxyReason,
}

/// Why the proxy ended.
#[derive(Drop)]
pub enum ProxyReason {
    /// As the relay, or before its workers.
    Relay(ServeReason),
    /// As the proxy of HTTP/2.
    Wire(WireEnd),
}

/// Does what the words ask for. `relay CONFIG` and `relay CONFIG TURNS` relay octets; `CONFIG` and `CONFIG TURNS` read the
/// configuration, listen, and run its workers, each for so many turns, while clients are accepted and gauges read. Once it listens,
/// `listening ADDRESS` is written to `out`; a configuration that is refused is told there in a line. Other words read and write
/// nothing.
#[tactic(auto, using(crate::proofs::Asked::has_none))]
pub fn serve_proxy<R, S, T, G, K, D>(
    rt: &R,
    alloc: Global,
    carry: &D,
    words: &[String],
    config: &mut S,
    site: &mut T,
    gauge: &mut G,
    out: &mut K,
) -> ProxyServed
where
    R: Threads + Wait + Clock + Sync,
    D: CarryOut + Sync,
    S: Source,
    T: WireSite,
    T::W: Send,
    T::C: Send,
    T::L: Send,
    G: Gauge,
    K: Sink,
    ensures usage { (result.status ≡ Status.Usage) ↔ HasNoProxyForm (map string_bytes words.now) }
    ensures nothing { result.status ≡ Status.Usage → (config.new ≡ config.old) × (site.new ≡ site.old) × (out.new ≡ out.old) }
    ensures relay { (n : ℕ) → SpellsProxy (map string_bytes words.now) (ProxyForm.Relay n) → ServesUnder (λ c. ServesRelay T.T.seen T.J.contents c n (T.told site.old) (T.told site.new) (K.contents out.old) (K.contents out.new) result.status) (S.left config.old) (S.left config.new) (T.told site.old) (T.told site.new) (K.contents out.old) (K.contents out.new) result.status }
    ensures wire { (n : ℕ) → SpellsProxy (map string_bytes words.now) (ProxyForm.Wire n) → ServesConfig (λ c. ServesWire T.W.Wires (outside_of T.W.Wires T.C.moments T.L.contents T.L.told T.L.faults) c n (T.told site.old) (T.told site.new) (T.wired site.old) (T.wired site.new) (K.contents out.old) (K.contents out.new) result.status) (S.left config.old) (S.left config.new) (T.told site.old) (T.told site.new) (T.wired site.old) (T.wired site.new) (K.contents out.old) (K.contents out.new) result.status }
    ensures told { result.status ≡ proxy_status result.reason }
    ensures read_fault { result.status ≡ Status.ReadFault → Rose (S.faults config.old) (S.faults config.new) }
    ensures write_fault { SiteOrOut result.status (T.faults site.old) (T.faults site.new) (K.faults out.old) (K.faults out.new) }
{
    match read_proxy_form(words) {
        Some(ProxyForm::Wire { turns }) => {
            serve_workers(rt, alloc, carry, turns, config, site, gauge, out)
        }
        Some(ProxyForm::Relay { .. }) => {
            let served = serve_with_reason(alloc, words, config, site, out);
            ProxyServed {
                status: served.status,
                reason: ProxyReason::Relay(served.reason),
            }
        }
        None => ProxyServed {
            status: Status::Usage,
            reason: ProxyReason::Relay(ServeReason::Words),
        },
    }
}

// Reads the configuration, and runs its workers.
#[tactic(auto, using(crate::proofs::Whole::unread, crate::proofs::Whole::served_whole, crate::proofs::Whole::short_text, crate::proofs::Whole::is_task, crate::proofs::Whole::fault_read, crate::proofs::Whole::fault_other, crate::proofs::Whole::out_fault))]
fn serve_workers<R, S, T, G, K, D>(
    rt: &R,
    alloc: Global,
    carry: &D,
    turns: u64,
    source: &mut S,
    site: &mut T,
    gauge: &mut G,
    out: &mut K,
) -> ProxyServed
where
    R: Threads + Wait + Clock + Sync,
    D: CarryOut + Sync,
    S: Source,
    T: WireSite,
    T::W: Send,
    T::C: Send,
    T::L: Send,
    G: Gauge,
    K: Sink,
    ensures some { result.status ≡ Status.Usage → ⊥ }
    ensures wire { ServesConfig (λ c. ServesWire T.W.Wires (outside_of T.W.Wires T.C.moments T.L.contents T.L.told T.L.faults) c turns (T.told site.old) (T.told site.new) (T.wired site.old) (T.wired site.new) (K.contents out.old) (K.contents out.new) result.status) (S.left source.old) (S.left source.new) (T.told site.old) (T.told site.new) (T.wired site.old) (T.wired site.new) (K.contents out.old) (K.contents out.new) result.status }
    ensures told { result.status ≡ proxy_status result.reason }
    ensures read_fault { result.status ≡ Status.ReadFault → Rose (S.faults source.old) (S.faults source.new) }
    ensures write_fault { SiteOrOut result.status (T.faults site.old) (T.faults site.new) (K.faults out.old) (K.faults out.new) }
{
    let text = match load_text(alloc, source) {
        Ok(text) => text,
        Err(end) => return end_without(alloc, end, out),
    };
    match read_config(alloc, text.as_slice()) {
        Ok(config) => {
            let task = Task {
                config: &config,
                text: text.as_slice(),
                turns,
            };
            serve_under(rt, alloc, carry, &task, site, gauge, out)
        }
        Err(fault) => end_without(alloc, refused(fault), out),
    }
}

// Runs the workers under a configuration.
#[tactic(auto, using(crate::proofs::Whole::wire_no_usage, crate::proofs::Whole::wire_no_read, crate::proofs::Served::so_served, crate::proofs::Served::so_caused))]
fn serve_under<R, T, G, K, D>(
    rt: &R,
    alloc: Global,
    carry: &D,
    task: &Task<'_>,
    site: &mut T,
    gauge: &mut G,
    out: &mut K,
) -> ProxyServed
where
    R: Threads + Wait + Clock + Sync,
    D: CarryOut + Sync,
    T: WireSite,
    T::W: Send,
    T::C: Send,
    T::L: Send,
    G: Gauge,
    K: Sink,
    requires task { IsTask task.now }
    ensures serves { ServesWire T.W.Wires (outside_of T.W.Wires T.C.moments T.L.contents T.L.told T.L.faults) task.now.config.now task.now.turns (T.told site.old) (T.told site.new) (T.wired site.old) (T.wired site.new) (K.contents out.old) (K.contents out.new) result.status }
    ensures some { result.status ≡ Status.Usage → ⊥ }
    ensures read { result.status ≡ Status.ReadFault → ⊥ }
    ensures told { result.status ≡ proxy_status result.reason }
    ensures write_fault { SiteOrOut result.status (T.faults site.old) (T.faults site.new) (K.faults out.old) (K.faults out.new) }
{
    let end = serve_wire(rt, alloc, carry, task, site, gauge, out);
    ProxyServed {
        status: end.status(),
        reason: ProxyReason::Wire(end),
    }
}

// Ends where there is no configuration.
#[tactic(auto, using(crate::proofs::Whole::end_no_usage, crate::proofs::Whole::end_read))]
fn end_without<K: Sink>(alloc: Global, end: ConfigEnd, out: &mut K) -> ProxyServed
    ensures tells { TellsEnd end result.status (K.contents out.old) (K.contents out.new) }
    ensures some { result.status ≡ Status.Usage → ⊥ }
    ensures read { result.status ≡ Status.ReadFault → end ≡ ConfigEnd.ReadFault }
    ensures told { result.status ≡ proxy_status result.reason }
    ensures write_fault { result.status ≡ Status.WriteFault → Rose (K.faults out.old) (K.faults out.new) }
{
    let served = end_at_config(alloc, end, out);
    ProxyServed {
        status: served.status,
        reason: ProxyReason::Relay(served.reason),
    }
}

fn refused(fault: ConfigFault) -> ConfigEnd
    ensures memory { fault ≡ ConfigFault.NoMemory → result ≡ ConfigEnd.Memory }
    ensures refused { fault ≢ ConfigFault.NoMemory → result ≡ ConfigEnd.Refused fault }
{
    match fault {
        ConfigFault::NoMemory => ConfigEnd::Memory,
        fault => ConfigEnd::Refused(fault),
    }
}
