// What the words of a replay ask for.
ghost use Rattle.std.specs.Prelude.{◌∷◌, [], map, IfNone, IfSome};
ghost use Rattle.std.specs.String.{string_bytes};
ghost use Rattle.replay_run.specs.Forms.{HasNoForm, IsDrillWord, IsNoDrill, SpellsForm};

use itoa::Buffer;

/// The most streams that a drill has.
const MOST_STREAMS: u32 = 1_000;

/// What the words of a replay ask for.
#[derive(Clone, Copy, PartialEq, Eq)]
pub enum Form {
    /// `plain`: a plain session that is read.
    Plain,
    /// `wire CONFIG`: a wire session that is read, under a configuration that is read first.
    Wire,
    /// `shed CONFIG`: the same, where the arrivals pass the load shed points.
    Shed,
    /// `relay CONFIG`: a relay's session that is read, under a configuration that is read first.
    Relay,
    /// `drill N`: the drill of N streams, 1 to 1,000.
    Drill { streams: u32 },
}

/// The form of the words, if they have one.
pub fn read_form(words: &[String]) -> Option<Form>
    ensures some { IfSome result (SpellsForm (map string_bytes words.now)) }
    ensures none { IfNone result (HasNoForm (map string_bytes words.now)) }
{
    match words {
        [word] => plain_form(word.as_str()),
        [word, name] => two_word_form(word.as_str(), name.as_str()),
        _ => None,
    }
}

fn plain_form(word: &str) -> Option<Form>
    ensures some { IfSome result (SpellsForm (word.now ∷ [])) }
    ensures none { IfNone result (HasNoForm (word.now ∷ [])) }
{
    if word == "plain" {
        Some(Form::Plain)
    } else {
        None
    }
}

// The name of a configuration may be any word.
fn two_word_form(word: &str, name: &str) -> Option<Form>
    ensures some { IfSome result (SpellsForm (word.now ∷ name.now ∷ [])) }
    ensures none { IfNone result (HasNoForm (word.now ∷ name.now ∷ [])) }
{
    if word == "wire" {
        return Some(Form::Wire);
    }
    if word == "shed" {
        return Some(Form::Shed);
    }
    if word == "relay" {
        return Some(Form::Relay);
    }
    if word != "drill" {
        return None;
    }
    let streams = drill_streams(name)?;
    Some(Form::Drill { streams })
}

// The number of streams that the word spells, 1 to 1,000, without leading zeros.
fn drill_streams(word: &str) -> Option<u32>
    ensures some { IfSome result (IsDrillWord word.now) }
    ensures none { IfNone result (IsNoDrill word.now) }
{
    let Ok(n) = word.parse::<u32>() else {
        return None;
    };
    let mut digits = Buffer::new();
    if digits.format(n) == word && 1 <= n && n <= MOST_STREAMS {
        Some(n)
    } else {
        None
    }
}
