// The words of a line that is no event.
use crate::fault::Mistake;
use crate::fields::{EXCHANGE, Field, Kind, PRESSURE};
use flow_notes::Names;

/// The most body octets of a line.
const MOST_OCTETS: usize = 16_384;

/// A mistake in a line, and the octets that are wrong, from one place to another.
#[derive(Clone, Copy)]
pub struct Place {
    pub start: usize,
    pub end: usize,
    pub mistake: Mistake,
}

/// The first mistake in the words behind the first one of a line, which has these fields.
pub fn field_mistake(line: &[u8], fields: &[Field], names: &Names) -> Option<Place> {
    let mut start = 0_usize;
    let mut at = 0_usize;
    let mut last = Kind::Octets;
    for word in line.split(|octet| *octet == b' ') {
        let end = start.saturating_add(word.len());
        if at > 0 {
            let field = field_at(fields, at - 1, last);
            if let Some(mistake) = word_mistake(word, field, names) {
                return Some(Place {
                    start,
                    end,
                    mistake,
                });
            }
            last = kind_after(word, field);
        }
        start = end.saturating_add(1);
        at = at.saturating_add(1);
    }
    let field = field_at(fields, at.saturating_sub(1), last)?;
    if field.kind == Kind::Pressures || field == PRESSURE {
        return None;
    }
    Some(Place {
        start: line.len(),
        end: line.len(),
        mistake: Mistake::Missing(field),
    })
}

// The field at a place, by what stands before it: behind `cancel` there is an exchange, and a pressure behind a pressure.
fn field_at(fields: &[Field], at: usize, last: Kind) -> Option<Field> {
    match fields.get(at) {
        Some(field) => Some(*field),
        None if last == Kind::Job => Some(EXCHANGE),
        None if last == Kind::Pressures => Some(PRESSURE),
        None => None,
    }
}

// What the next word goes by.
fn kind_after(word: &[u8], field: Option<Field>) -> Kind {
    match field {
        Some(field) if field.kind == Kind::Job && word == b"cancel".as_slice() => Kind::Job,
        Some(field) if field.kind == Kind::Pressures || field == PRESSURE => Kind::Pressures,
        _ => Kind::Octets,
    }
}

fn word_mistake(word: &[u8], field: Option<Field>, names: &Names) -> Option<Mistake> {
    if word.is_empty() {
        return Some(Mistake::Space);
    }
    let Some(field) = field else {
        return Some(Mistake::Behind);
    };
    match field.kind {
        Kind::Number { least, most } => number_mistake(word, field, least, most),
        Kind::Octets => octets_mistake(word),
        Kind::Cluster => match names.find(word) {
            Some(_) => None,
            None => Some(Mistake::NoCluster),
        },
        Kind::Job => job_mistake(word),
        Kind::Pressures => number_mistake(word, PRESSURE, 0, 4_294_967_295),
    }
}

fn job_mistake(word: &[u8]) -> Option<Mistake> {
    if word == b"drain".as_slice() || word == b"cancel".as_slice() || word == b"look".as_slice() {
        None
    } else {
        Some(Mistake::NoJob)
    }
}

fn octets_mistake(word: &[u8]) -> Option<Mistake> {
    if word.iter().any(|octet| matches!(*octet, b'A'..=b'F')) {
        return Some(Mistake::CapitalDigit);
    }
    if !word
        .iter()
        .all(|octet| matches!(*octet, b'0'..=b'9' | b'a'..=b'f'))
    {
        return Some(Mistake::NoHexDigit);
    }
    if word.len() % 2 == 1 {
        return Some(Mistake::OddDigits);
    }
    if word.len() / 2 > MOST_OCTETS {
        return Some(Mistake::TooMany(word.len() / 2));
    }
    None
}

// What is wrong with a word where a number in this range should stand.
fn number_mistake(word: &[u8], field: Field, least: u64, most: u64) -> Option<Mistake> {
    if !word.iter().all(|octet| octet.is_ascii_digit()) {
        return Some(Mistake::NoNumber(field));
    }
    if word.len() > 1 && word[0] == b'0' {
        return Some(Mistake::LeadingZero(field));
    }
    match value_of(word) {
        Some(n) if least <= n && n <= most => None,
        _ => Some(Mistake::OutOfRange(field)),
    }
}

// The number that digits spell, below 2^64.
fn value_of(word: &[u8]) -> Option<u64> {
    let Ok(text) = std::str::from_utf8(word) else {
        return None;
    };
    match text.parse::<u64>() {
        Ok(n) => Some(n),
        Err(_) => None,
    }
}
