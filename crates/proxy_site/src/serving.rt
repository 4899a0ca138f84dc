// The whole of the proxy.
ghost use Rattle.std.specs.Prelude.{◌≡◌, ◌↔◌, map, ℕ};
ghost use Rattle.std.specs.String.{string_bytes};
ghost use Rattle.io_ports.specs.Faults.{Rose};
ghost use Rattle.proxy_site.specs.Forms.{HasNoServeForm, SpellsServe};
ghost use Rattle.proxy_site.specs.Reasons.{reason_status};
ghost use Rattle.proxy_site.specs.Relaying.{ServesRelay, SiteOrOut};
ghost use Rattle.proxy_site.specs.Serving.{ServesUnder};

use crate::form::{ServeForm, read_serve_form};
use crate::reason::{ServeReason, Served};
use crate::refused::end_at_config;
use crate::relaying::serve_relay;
use crate::site::Site;
use io_ports::{Sink, Source};
use session_config::load_config;
use session_run::Status;
use std::alloc::Global;

/// Does what the words ask for: `relay CONFIG` and `relay CONFIG TURNS` read the configuration, listen, and relay for so many
/// turns. Once it listens, `listening ADDRESS` is written to `out`; a configuration that is refused is told there in a line.
/// Other words read and write nothing.
pub fn serve<S: Source, T: Site, K: Sink>(
    alloc: Global,
    words: &[String],
    config: &mut S,
    site: &mut T,
    out: &mut K,
) -> Status
    ensures usage { (result ≡ Status.Usage) ↔ HasNoServeForm (map string_bytes words.now) }
    ensures nothing { result ≡ Status.Usage → (config.new ≡ config.old) × (site.new ≡ site.old) × (out.new ≡ out.old) }
    ensures relay { (n : ℕ) → SpellsServe (map string_bytes words.now) (ServeForm.Relay n) → ServesUnder (λ c. ServesRelay T.T.seen T.J.contents c n (T.told site.old) (T.told site.new) (K.contents out.old) (K.contents out.new) result) (S.left config.old) (S.left config.new) (T.told site.old) (T.told site.new) (K.contents out.old) (K.contents out.new) result }
    ensures read_fault { result ≡ Status.ReadFault → Rose (S.faults config.old) (S.faults config.new) }
    ensures write_fault { SiteOrOut result (T.faults site.old) (T.faults site.new) (K.faults out.old) (K.faults out.new) }
{
    serve_with_reason(alloc, words, config, site, out).status
}

/// The same, and why it ended so.
#[tactic(auto, using(crate::proofs::Asked::has_form, crate::proofs::Asked::has_none, crate::proofs::Asked::usage_no_read_fault, crate::proofs::Asked::usage_no_write_fault))]
pub fn serve_with_reason<S: Source, T: Site, K: Sink>(
    alloc: Global,
    words: &[String],
    config: &mut S,
    site: &mut T,
    out: &mut K,
) -> Served
    ensures usage { (result.status ≡ Status.Usage) ↔ HasNoServeForm (map string_bytes words.now) }
    ensures nothing { result.status ≡ Status.Usage → (config.new ≡ config.old) × (site.new ≡ site.old) × (out.new ≡ out.old) }
    ensures relay { (n : ℕ) → SpellsServe (map string_bytes words.now) (ServeForm.Relay n) → ServesUnder (λ c. ServesRelay T.T.seen T.J.contents c n (T.told site.old) (T.told site.new) (K.contents out.old) (K.contents out.new) result.status) (S.left config.old) (S.left config.new) (T.told site.old) (T.told site.new) (K.contents out.old) (K.contents out.new) result.status }
    ensures read_fault { result.status ≡ Status.ReadFault → Rose (S.faults config.old) (S.faults config.new) }
    ensures told { result.status ≡ reason_status result.reason }
    ensures write_fault { SiteOrOut result.status (T.faults site.old) (T.faults site.new) (K.faults out.old) (K.faults out.new) }
{
    match read_serve_form(words) {
        Some(ServeForm::Relay { turns }) => serve_form(alloc, turns, config, site, out),
        None => Served::by(ServeReason::Words),
    }
}

// Reads the configuration, and relays under it.
#[tactic(auto, using(crate::proofs::Ending::served_under, crate::proofs::Ending::none_under, crate::proofs::Ending::not_usage, crate::proofs::Ending::read_fault, crate::proofs::Relayed::serves_other))]
fn serve_form<S: Source, T: Site, K: Sink>(
    alloc: Global,
    turns: u64,
    config: &mut S,
    site: &mut T,
    out: &mut K,
) -> Served
    ensures some { result.status ≡ Status.Usage → ⊥ }
    ensures relay { ServesUnder (λ c. ServesRelay T.T.seen T.J.contents c turns (T.told site.old) (T.told site.new) (K.contents out.old) (K.contents out.new) result.status) (S.left config.old) (S.left config.new) (T.told site.old) (T.told site.new) (K.contents out.old) (K.contents out.new) result.status }
    ensures read_fault { result.status ≡ Status.ReadFault → Rose (S.faults config.old) (S.faults config.new) }
    ensures told { result.status ≡ reason_status result.reason }
    ensures write_fault { SiteOrOut result.status (T.faults site.old) (T.faults site.new) (K.faults out.old) (K.faults out.new) }
{
    match load_config(alloc, config) {
        Ok(config) => serve_relay(alloc, &config, turns, site, out),
        Err(end) => end_at_config(alloc, end, out),
    }
}
