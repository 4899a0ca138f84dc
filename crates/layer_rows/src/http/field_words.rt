// Octets and lists of fields in words.
use crate::said::Said;
use hpack_codec::{Field, FieldList};
use io_ports::{NoMemory, Octets};
use std::alloc::Global;

/// The octets that a word spells in hexadecimal. A dash spells none.
pub fn block_of(alloc: Global, word: &str) -> Vec<u8> {
    hex::decode(alloc, word).unwrap_or(Vec::new(alloc))
}

// A text, or octets in hexadecimal behind `0x`.
fn text_of(alloc: Global, word: &str) -> Result<Octets, NoMemory> {
    match word.strip_prefix("0x") {
        Some(digits) => Ok(Octets::from_vec(block_of(alloc, digits))),
        None => Octets::from_slice(alloc, word.as_bytes()),
    }
}

fn field_of(alloc: Global, word: &str) -> Result<Field, NoMemory> {
    let never = word.starts_with('!');
    let word = word.strip_prefix('!').unwrap_or(word);
    let (name, value) = word.split_once(' ').unwrap_or((word, ""));
    let name = text_of(alloc, name)?;
    let value = text_of(alloc, value)?;
    Ok(Field { name, value, never })
}

fn push_field(list: &mut FieldList, alloc: Global, word: &str) -> Result<(), NoMemory> {
    list.push(field_of(alloc, word)?)
}

/// The list whose fields stand between bars.
pub fn list_of(said: &mut Said, words: &str) -> FieldList {
    let mut list = FieldList::new(said.alloc());
    if words.is_empty() {
        return list;
    }
    for word in words.split(" | ") {
        if push_field(&mut list, said.alloc(), word).is_err() {
            said.lack();
        }
    }
    list
}

fn is_printed(octet: u8) -> bool {
    (0x20..=0x7e).contains(&octet)
}

// Octets as a text, or else in hexadecimal.
fn say_text(said: &mut Said, octets: &[u8]) {
    if let Ok(text) = std::str::from_utf8(octets) {
        if octets.iter().all(|octet| is_printed(*octet)) {
            said.say(text);
            return;
        }
    }
    said.say("0x");
    said.say_hex(octets);
}

/// A name and a value, or the name alone where the value is empty.
pub fn say_field(said: &mut Said, name: &Octets, value: &Octets) {
    say_text(said, name.as_slice());
    if !value.is_empty() {
        said.say(" ");
        say_text(said, value.as_slice());
    }
}

/// The fields of a list, each behind a bar.
pub fn say_fields(said: &mut Said, list: &FieldList) {
    for field in list.as_slice() {
        said.say(if field.never { " | !" } else { " | " });
        say_field(said, &field.name, &field.value);
    }
}
