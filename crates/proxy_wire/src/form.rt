// What the words of the proxy ask for, of all its forms.
ghost use Rattle.std.specs.Prelude.{[], map, ◌∷◌, IfNone, IfSome};
ghost use Rattle.std.specs.String.{string_bytes};
ghost use Rattle.proxy_wire.specs.Forms.{HasNoProxyForm, IsNoWire, IsWire, SpellsProxy};

use proxy_site::{ENDLESS, ServeForm, read_serve_form, read_turns};

/// What the words of the proxy ask for.
#[derive(Clone, Copy, PartialEq, Eq)]
pub enum ProxyForm {
    /// `relay CONFIG` or `relay CONFIG TURNS`: pairs of connections whose octets are relayed, for so many turns.
    Relay { turns: u64 },
    /// `CONFIG` or `CONFIG TURNS`: workers that proxy HTTP/2, each for so many turns.
    Wire { turns: u64 },
}

/// The form of the words, if they have one. The name of a configuration may be any word, but that of workers isn't `relay`; TURNS is a
/// number from 1 to 4,294,967,295 without leading zeros, and without it there are 2^63 - 1 turns.
#[tactic(auto, using(crate::proofs::Wording::no_form))]
pub fn read_proxy_form(words: &[String]) -> Option<ProxyForm>
    ensures some { IfSome result (SpellsProxy (map string_bytes words.now)) }
    ensures none { IfNone result (HasNoProxyForm (map string_bytes words.now)) }
{
    if let Some(ServeForm::Relay { turns }) = read_serve_form(words) {
        return Some(ProxyForm::Relay { turns });
    }
    let turns = wire_turns(words)?;
    Some(ProxyForm::Wire { turns })
}

// For how many turns the words ask workers to run, if they do.
#[tactic(auto, using(crate::proofs::Wording::other_lengths))]
fn wire_turns(words: &[String]) -> Option<u64>
    ensures some { IfSome result (IsWire (map string_bytes words.now)) }
    ensures none { IfNone result (IsNoWire (map string_bytes words.now)) }
{
    match words {
        [name] => named_turns(name.as_str()),
        [name, turns] => counted_turns(name.as_str(), turns.as_str()),
        _ => None,
    }
}

#[tactic(auto, using(crate::proofs::Wording::is_named, crate::proofs::Wording::is_relay))]
fn named_turns(name: &str) -> Option<u64>
    ensures some { IfSome result (IsWire (name.now ∷ [])) }
    ensures none { IfNone result (IsNoWire (name.now ∷ [])) }
{
    if name == "relay" { None } else { Some(ENDLESS) }
}

#[tactic(auto, using(crate::proofs::Wording::is_counted, crate::proofs::Wording::is_relay, crate::proofs::Wording::other_turns))]
fn counted_turns(name: &str, turns: &str) -> Option<u64>
    ensures some { IfSome result (IsWire (name.now ∷ turns.now ∷ [])) }
    ensures none { IfNone result (IsNoWire (name.now ∷ turns.now ∷ [])) }
{
    if name == "relay" {
        None
    } else {
        read_turns(turns)
    }
}
