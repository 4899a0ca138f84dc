// How a value at a key is judged.
ghost use Rattle.std.specs.Prelude.{◌≡◌, true, nat_le, length, map, if◌then◌else◌};
ghost use Rattle.std.specs.Option.{option_map_or};
ghost use Rattle.toml.specs.View.{view};
ghost use Rattle.config_tables.specs.Keys.{verdict};
ghost use Rattle.config_tables.specs.Kinds.{kind_of};
ghost use Rattle.config_tables.specs.Values.{is_between};
ghost use Rattle.config_tables.specs.declared.judge.Verdict.TheVariants.{Fits, OtherKind, Beyond};

use crate::keys::Kind;
use crate::strings::{as_items, judge_names, judge_words};
use crate::words::{is_cluster, is_listed, is_name, is_word};
use toml::Value;

/// What is said of a value at a key.
#[derive(Clone, Copy, PartialEq, Eq)]
pub enum Verdict {
    Fits,
    /// It is of another kind.
    OtherKind,
    /// It is beyond the key's range, or not of the form that is asked.
    Beyond,
}

impl Verdict {
    pub fn of(fits: bool) -> Verdict
        ensures { result ≡ (if fits then Fits else Beyond) }
    {
        if fits { Verdict::Fits } else { Verdict::Beyond }
    }
}

fn is_between(least: u32, most: u32, n: i64) -> bool
    ensures { result ≡ is_between least most n }
{
    u32::try_from(n).is_ok_and(|n| least <= n && n <= most)
}

impl Kind<'_> {
    /// Whether a value of this kind may stand at the key.
    pub fn judge(&self, value: &Value) -> Verdict
        ensures { result ≡ verdict (kind_of self.now) (view value.now) }
    {
        match *self {
            Kind::Number { least, most, .. } => value.as_integer().map_or(
                Verdict::OtherKind,
                |n| Verdict::of(is_between(least, most, n)),
            ),
            Kind::Text => value.as_str().map_or(Verdict::OtherKind, |_| Verdict::Fits),
            Kind::Name => value
                .as_str()
                .map_or(Verdict::OtherKind, |text| Verdict::of(is_name(text))),
            Kind::NewName(clusters) => value.as_str().map_or(Verdict::OtherKind, |text| {
                Verdict::of(is_name(text) && !is_cluster(clusters, text.as_bytes()))
            }),
            Kind::OneOf(words) => value.as_str().map_or(
                Verdict::OtherKind,
                |text| Verdict::of(is_word(words, text)),
            ),
            Kind::Listed(names) => value.as_str().map_or(
                Verdict::OtherKind,
                |text| Verdict::of(is_listed(names, text)),
            ),
            Kind::Names { most } => as_items(value).map_or(
                Verdict::OtherKind,
                |items| judge_names(items, most),
            ),
            Kind::Words { most, words } => as_items(value).map_or(
                Verdict::OtherKind,
                |items| judge_words(items, most, words),
            ),
            Kind::Tables { most } => as_items(value).map_or(
                Verdict::OtherKind,
                |rows| judge_tables(rows, most),
            ),
            Kind::Section => value
                .as_table()
                .map_or(Verdict::OtherKind, |_| Verdict::Fits),
        }
    }
}

// Whether there are at most so many rows, where that is said.
fn judge_tables(rows: &[Value], most: Option<usize>) -> Verdict
    ensures { result ≡ (if option_map_or (nat_le (length (map view rows.now))) most true then Fits else Beyond) }
{
    Verdict::of(most.is_none_or(|most| rows.len() <= most))
}
