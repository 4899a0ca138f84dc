// The proxy as a relay.
ghost use Rattle.std.specs.Prelude.{◌≡◌, ◌++◌, ◌≤◌, ◌⊎◌, IfErr, OnOk, length};
ghost use Rattle.std.specs.Io.KnownBytes.{Appends};
ghost use Rattle.io_ports.specs.Faults.{Rose};
ghost use Rattle.proxy_site.specs.Relaying.{IsCutShort, Relays, RelaysOver, ServesRelay, SiteOrOut, journal_head, listening_line};
ghost use Rattle.proxy_site.specs.Reasons.{reason_status};
ghost use Rattle.proxy_site.specs.Sites.{IsUnused};
ghost use Rattle.session_config.specs.ClusterNames.{names_in};
ghost use Rattle.session_run.specs.Ends.{AppendsFront};

use crate::reason::{ServeReason, Served};
use crate::site::{Site, SiteRefusal};
use flow_notes::Names;
use io_ports::{Failed, NoMemory, Octets, Sink};
use proxy_config::Config;
use relay_ports::{Journal, Taps};
use relay_work::{RelayEnded, relay_work};
use session_config::names_of;
use session_run::{Status, write_all};
use std::alloc::Global;
use tcp_relay::Relay;

/// The first line of a relay's journal.
const HEAD: &[u8] = b"h2replay-session 1 wire\n";

/// Listens, and relays for so many turns under a configuration.
#[tactic(auto, using(crate::proofs::Telling::listened_alone, crate::proofs::Relayed::site_fault))]
pub fn serve_relay<T: Site, K: Sink>(
    alloc: Global,
    config: &Config,
    turns: u64,
    site: &mut T,
    out: &mut K,
) -> Served
    ensures serves { ServesRelay T.T.seen T.J.contents config.now turns (T.told site.old) (T.told site.new) (K.contents out.old) (K.contents out.new) result.status }
    ensures told { result.status ≡ reason_status result.reason }
    ensures write_fault { SiteOrOut result.status (T.faults site.old) (T.faults site.new) (K.faults out.old) (K.faults out.new) }
    ensures no_fall { (T.faults site.old ≤ T.faults site.new) × (K.faults out.old ≤ K.faults out.new) }
{
    let Ok(names) = names_of(alloc, config) else {
        return Served::by(ServeReason::Memory);
    };
    let address = match site.listen(&config.proxy.listen) {
        Ok(address) => address,
        Err(SiteRefusal::Failed) => return Served::by(ServeReason::Listen),
        Err(SiteRefusal::NoMemory) => return Served::by(ServeReason::Memory),
    };
    let (mut taps, mut journal) = match site.fit_taps(config) {
        Ok(fitted) => fitted,
        Err(SiteRefusal::Failed) => return Served::by(ServeReason::Fit),
        Err(SiteRefusal::NoMemory) => return Served::by(ServeReason::Memory),
    };
    let reason = relay_over(
        alloc,
        config,
        &names,
        &address,
        turns,
        &mut taps,
        &mut journal,
        out,
    );
    site.give_back_taps(taps, journal);
    Served::by(reason)
}

// Relays over connections and a journal, once the journal has its head and it is told where the proxy listens.
#[tactic(auto, using(crate::proofs::Relayed::ran, crate::proofs::Relayed::not_begun, crate::proofs::Relayed::ran_fault))]
fn relay_over<T: Taps, J: Journal, K: Sink>(
    alloc: Global,
    config: &Config,
    names: &Names,
    address: &Octets,
    turns: u64,
    taps: &mut T,
    journal: &mut J,
    out: &mut K,
) -> ServeReason
    requires unused { IsUnused (length config.now.clusters) (T.seen taps.old) }
    requires names { names.now ≡ names_in config.now }
    ensures over { RelaysOver config.now turns address.now (T.seen taps.old) (T.seen taps.new) (J.contents journal.old) (J.contents journal.new) (K.contents out.old) (K.contents out.new) (reason_status result) }
    ensures cause { reason_status result ≡ Status.WriteFault → Rose (T.faults taps.old) (T.faults taps.new) ⊎ Rose (J.faults journal.old) (J.faults journal.new) ⊎ Rose (K.faults out.old) (K.faults out.new) }
    ensures no_fall { K.faults out.old ≤ K.faults out.new }
{
    match begin(alloc, address, journal, out) {
        Ok(()) => ServeReason::Relay(run(alloc, config, names, turns, taps, journal)),
        Err(reason) => reason,
    }
}

// Writes the head of the journal, then where the proxy listens.
#[tactic(auto, using(crate::proofs::Relayed::front_none))]
fn begin<J: Journal, K: Sink>(
    alloc: Global,
    address: &Octets,
    journal: &mut J,
    out: &mut K,
) -> Result<(), ServeReason>
    ensures begun { OnOk result (Appends (J.contents journal.old) (J.contents journal.new) journal_head × Appends (K.contents out.old) (K.contents out.new) (listening_line address.now)) }
    ensures head { AppendsFront (J.contents journal.old) (J.contents journal.new) journal_head }
    ensures line { AppendsFront (K.contents out.old) (K.contents out.new) (listening_line address.now) }
    ensures cut { IfErr result (λ reason. IsCutShort (reason_status reason)) }
    ensures cause { IfErr result (λ reason. reason_status reason ≡ Status.WriteFault → Rose (J.faults journal.old) (J.faults journal.new) ⊎ Rose (K.faults out.old) (K.faults out.new)) }
    ensures no_fall { (J.faults journal.old ≤ J.faults journal.new) × (K.faults out.old ≤ K.faults out.new) }
{
    let mut line = Octets::new(alloc);
    if put_listening(address.as_slice(), &mut line).is_err() {
        return Err(ServeReason::Memory);
    }
    if let Err(Failed) = write_all(journal, HEAD) {
        return Err(ServeReason::JournalHead);
    }
    match write_all(out, line.as_slice()) {
        Ok(()) => Ok(()),
        Err(Failed) => Err(ServeReason::Write),
    }
}

/// Appends the line that tells where the proxy listens. Running out of memory may leave some of it.
pub fn put_listening(address: &[u8], line: &mut Octets) -> Result<(), NoMemory>
    ensures { OnOk result (line.new ≡ line.old ++ listening_line address.now) }
{
    line.push_all(b"listening ")?;
    line.push_all(address)?;
    line.push_all(b"\n")
}

// A new relay works over connections that nobody has used.
#[tactic(auto, using(crate::proofs::Relayed::belongs_new, crate::proofs::Relayed::relays))]
fn run<T: Taps, J: Journal>(
    alloc: Global,
    config: &Config,
    names: &Names,
    turns: u64,
    taps: &mut T,
    journal: &mut J,
) -> RelayEnded
    requires unused { IsUnused (length config.now.clusters) (T.seen taps.old) }
    requires names { names.now ≡ names_in config.now }
    ensures relays { Relays config.now turns (T.seen taps.old) (J.contents journal.old) result (T.seen taps.new) (J.contents journal.new) }
    ensures taps_fault { result ≡ RelayEnded.TapsFault → Rose (T.faults taps.old) (T.faults taps.new) }
    ensures journal_fault { result ≡ RelayEnded.JournalFault → Rose (J.faults journal.old) (J.faults journal.new) }
{
    let mut relay = Relay::new(alloc, config.limits.write_buffer);
    relay_work(alloc, &mut relay, taps, journal, names, turns)
}
