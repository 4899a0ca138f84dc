// Words of an outlet.
use crate::words::{Answers, small_number};
use h2_frames::{ReadFrame, read_frame};
use hpack_codec::{Field, FieldList};
use io_ports::{NoMemory, Octets};
use std::alloc::Global;
use wm_buffer::Crossed;

pub fn crossed_word(crossed: Crossed) -> &'static str {
    match crossed {
        Crossed::Nothing => "-",
        Crossed::High => "high",
        Crossed::Low => "low",
    }
}

/// Octets in hexadecimal; of more than 64 how many there are, and the frames that they are, as far as
/// they are whole. No octets are a dash.
pub fn say_octets(answers: &mut Answers, octets: &[u8]) {
    if octets.is_empty() {
        answers.say("-");
    } else if octets.len() <= 64 {
        answers.say_hex(octets);
    } else {
        answers.say_number(octets.len() as u64);
        say_heads(answers, octets);
    }
}

// The heads of the frames that the octets are, as far as they are whole.
fn say_heads(answers: &mut Answers, octets: &[u8]) {
    let mut rest = octets;
    for _ in 0..octets.len() {
        let ReadFrame::Whole(_, used) = read_frame(rest, 1_048_576) else {
            break;
        };
        let (head, _) = rest.split_at(rest.len().min(9));
        answers.say("/");
        answers.say_hex(head);
        (_, rest) = rest.split_at(used as usize);
    }
}

/// The fields of words `NAME=VALUE`. One that begins with `!` is never indexed, and a value `OCTET*N`
/// is so many of them.
pub fn fields_of(alloc: Global, words: &str) -> Result<FieldList, NoMemory> {
    let mut list = FieldList::new(alloc);
    for word in words.split(' ') {
        if !word.is_empty() {
            list.push(field_of(alloc, word)?)?;
        }
    }
    Ok(list)
}

fn field_of(alloc: Global, word: &str) -> Result<Field, NoMemory> {
    let never = word.starts_with('!');
    let word = word.strip_prefix('!').unwrap_or(word);
    let (name, value) = word.split_once('=').unwrap_or((word, ""));
    Ok(Field {
        name: octets_of(alloc, name)?,
        value: octets_of(alloc, value)?,
        never,
    })
}

fn octets_of(alloc: Global, word: &str) -> Result<Octets, NoMemory> {
    let (text, times) = word.split_once('*').unwrap_or((word, "1"));
    let mut octets = Octets::new(alloc);
    for _ in 0..small_number(times) {
        octets.push_all(text.as_bytes())?;
    }
    Ok(octets)
}
