// What the words of the proxy ask for.
ghost use Rattle.std.specs.Prelude.{◌≡◌, ◌∷◌, [], map, IfNone, IfSome};
ghost use Rattle.std.specs.String.{string_bytes};
ghost use Rattle.proxy_site.specs.Forms.{HasNoServeForm, IsNoTurns, IsTurnsWord, SpellsServe};

use itoa::Buffer;

/// How many turns there are where the words don't say it: 2^63 - 1.
pub const ENDLESS: u64 = 9_223_372_036_854_775_807;

/// What the words of the proxy ask for.
#[derive(Clone, Copy, PartialEq, Eq)]
pub enum ServeForm {
    /// `relay CONFIG` or `relay CONFIG TURNS`: pairs of connections whose octets are relayed, for so many turns.
    Relay { turns: u64 },
}

/// The form of the words, if they have one. The name of a configuration may be any word; TURNS is a number from 1 to
/// 4,294,967,295 without leading zeros, and without it there are 2^63 - 1 turns.
pub fn read_serve_form(words: &[String]) -> Option<ServeForm>
    ensures some { IfSome result (SpellsServe (map string_bytes words.now)) }
    ensures none { IfNone result (HasNoServeForm (map string_bytes words.now)) }
{
    match words {
        [word, name] => relay_form(word.as_str(), name.as_str()),
        [word, name, turns] => counted_form(word.as_str(), name.as_str(), turns.as_str()),
        _ => None,
    }
}

#[tactic(auto, using(crate::proofs::Wording::is_relay, crate::proofs::Wording::other_word))]
fn relay_form(word: &str, _name: &str) -> Option<ServeForm>
    ensures some { IfSome result (SpellsServe (word.now ∷ _name.now ∷ [])) }
    ensures none { IfNone result (HasNoServeForm (word.now ∷ _name.now ∷ [])) }
{
    if word == "relay" {
        Some(ServeForm::Relay { turns: ENDLESS })
    } else {
        None
    }
}

#[tactic(auto, using(crate::proofs::Wording::is_counted, crate::proofs::Wording::other_word, crate::proofs::Wording::other_turns))]
fn counted_form(word: &str, _name: &str, turns: &str) -> Option<ServeForm>
    ensures some { IfSome result (SpellsServe (word.now ∷ _name.now ∷ turns.now ∷ [])) }
    ensures none { IfNone result (HasNoServeForm (word.now ∷ _name.now ∷ turns.now ∷ [])) }
{
    if word != "relay" {
        return None;
    }
    let turns = read_turns(turns)?;
    Some(ServeForm::Relay { turns })
}

/// The number of turns that a word spells, 1 to 4,294,967,295, without leading zeros.
pub fn read_turns(word: &str) -> Option<u64>
    ensures some { IfSome result (IsTurnsWord word.now) }
    ensures none { IfNone result (IsNoTurns word.now) }
{
    let Ok(n) = word.parse::<u32>() else {
        return None;
    };
    let mut digits = Buffer::new();
    if digits.format(n) == word && 1 <= n {
        Some(u64::from(n))
    } else {
        None
    }
}
