// Lists of strings, and how they are judged.
ghost use Rattle.std.specs.Prelude.{◌≡◌, IsTrue, length, map, nat_le, option_map, IfOk};
ghost use Rattle.std.specs.List.{list_all, list_any};
ghost use Rattle.std.specs.Option.{is_some};
ghost use Rattle.std.specs.Str.{bytes_eq};
ghost use Rattle.toml.specs.Data.{as_str};
ghost use Rattle.toml.specs.View.{view};
ghost use Rattle.config_tables.specs.Keys.{judged, are_names_up_to};
ghost use Rattle.config_tables.specs.Kinds.{are_words_up_to};
ghost use Rattle.config_tables.specs.Texts.{is_name, is_among, are_distinct};
ghost use Rattle.config_tables.specs.Values.{as_list, as_strings, strings_in};

use crate::judge::Verdict;
use crate::words::{is_name, is_word};
use io_ports::{NoMemory, Octets};
use proxy_config::{NameList, Rows};
use std::alloc::Global;
use toml::Value;

/// The items of a value that is a list.
pub fn as_items(value: &Value) -> Option<&[Value]>
    ensures { option_map (λ items. map view items.now) result ≡ as_list (view value.now) }
{
    match value.as_array() {
        Some(items) => Some(items.as_slice()),
        None => None,
    }
}

/// Copies of the strings among the items.
pub fn copies(alloc: Global, items: &[Value]) -> Result<NameList, NoMemory>
    ensures { IfOk result (λ names. names ≡ strings_in (map view items.now)) }
{
    let mut names = Rows::new(alloc);
    for item in items {
        if let Some(text) = item.as_str() {
            names.push(Octets::from_slice(alloc, text.as_bytes())?)?;
        }
    }
    Ok(names)
}

/// A list of at most so many names, none twice.
pub fn judge_names(items: &[Value], most: usize) -> Verdict
    ensures { result ≡ judged (as_strings (map view items.now)) (are_names_up_to most) }
{
    if !are_strings(items) {
        return Verdict::OtherKind;
    }
    Verdict::of(are_few(items, most) && are_names(items) && are_distinct(items))
}

/// A list of at most so many of these words.
pub fn judge_words(items: &[Value], most: usize, words: &[&str]) -> Verdict
    ensures { result ≡ judged (as_strings (map view items.now)) (are_words_up_to most words.now) }
{
    if !are_strings(items) {
        return Verdict::OtherKind;
    }
    Verdict::of(are_few(items, most) && are_words(items, words))
}

fn are_strings(items: &[Value]) -> bool
    ensures { result ≡ list_all (λ d. is_some (as_str d)) (map view items.now) }
{
    for item in items {
        if !item.is_str() {
            return false;
        }
    }
    true
}

// Whether there are at most so many strings.
fn are_few(items: &[Value], most: usize) -> bool
    requires { IsTrue (list_all (λ d. is_some (as_str d)) (map view items.now)) }
    ensures { result ≡ nat_le (length (strings_in (map view items.now))) most }
{
    items.len() <= most
}

// Whether each string of the items is a name.
fn are_names(items: &[Value]) -> bool
    ensures { result ≡ list_all is_name (strings_in (map view items.now)) }
{
    for item in items {
        if item.as_str().is_some_and(|text| !is_name(text)) {
            return false;
        }
    }
    true
}

// Whether each string of the items is one of these words.
fn are_words(items: &[Value], words: &[&str]) -> bool
    ensures { result ≡ list_all (λ t. list_any (λ w. bytes_eq t w.now) words.now) (strings_in (map view items.now)) }
{
    for item in items {
        if item.as_str().is_some_and(|text| !is_word(words, text)) {
            return false;
        }
    }
    true
}

// Whether one of the items is this string.
fn has_string(items: &[Value], text: &str) -> bool
    ensures { result ≡ is_among (strings_in (map view items.now)) text.now }
{
    for item in items {
        if item.as_str().is_some_and(|other| text == other) {
            return true;
        }
    }
    false
}

// Whether no string stands twice among the items.
fn are_distinct(items: &[Value]) -> bool
    ensures { result ≡ are_distinct (strings_in (map view items.now)) }
{
    let mut rest = items;
    while let [first, others @ ..] = rest {
        if first.as_str().is_some_and(|text| has_string(others, text)) {
            return false;
        }
        rest = others;
    }
    true
}
