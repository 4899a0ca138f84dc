// How an unknown key is spelled.
ghost use Rattle.std.specs.Prelude.{◌≡◌, ◌≤◌, ◌<◌, ◌++◌, IfSome, length, not, position, OnErr, OnOk};
ghost use Rattle.std.specs.Char.{is_ascii_digit};
ghost use Rattle.std.specs.List.{list_all};
ghost use Rattle.flow_notes.specs.Extends.{Extends};
ghost use Rattle.session_config.specs.Refusals as spec;

use io_ports::{NoMemory, Octets};

/// Appends a key with its place. A key that is no bare key of TOML (letters, digits, `-` and `_`) is spelled as TOML's basic
/// string, so that the line that tells it stays one line. Running out of memory may leave some of it.
pub fn put_unknown(into: &mut Octets, key: &[u8]) -> Result<(), NoMemory>
    ensures ok { OnOk result (into.new ≡ into.old ++ spec.unknown_text key.now) }
    ensures err { OnErr result (Extends into.old into.new) }
{
    let (place, name) = key.split_at(place_len(key));
    into.push_all(place)?;
    if is_bare(name) {
        into.push_all(name)
    } else {
        put_string(into, name)
    }
}

/// How many octets the key's table, or its list and row, have with the dot behind them.
pub fn place_len(key: &[u8]) -> usize
    ensures is { result ≡ spec.place_len key.now }
    ensures within { result ≤ length key.now }
{
    let list = list_len(key);
    if list == 0 {
        table_len(key)
    } else {
        list + row_len(&key[list..])
    }
}

// How many octets the name of the list of tables has with the dot behind it, if the key stands in one. Rows are counted from 0.
#[tactic(auto, unfolding(crate::specs::Refusals::front_len))]
fn list_len(key: &[u8]) -> usize
    ensures is { result ≡ spec.list_len key.now }
    ensures within { result ≤ length key.now }
{
    if key.starts_with(b"clusters.") {
        9
    } else if key.starts_with(b"routes.") {
        7
    } else if key.starts_with(b"overload.triggers.") {
        18
    } else if key.starts_with(b"overload.shed.") {
        14
    } else {
        0
    }
}

// The same of the table whose keys are known.
#[tactic(auto, unfolding(crate::specs::Refusals::front_len))]
fn table_len(key: &[u8]) -> usize
    ensures is { result ≡ spec.table_len key.now }
    ensures within { result ≤ length key.now }
{
    if key.starts_with(b"limits.") {
        7
    } else if key.starts_with(b"timeouts.") {
        9
    } else if key.starts_with(b"overload.") {
        9
    } else if key.starts_with(b"proxy.") {
        6
    } else {
        0
    }
}

// How many octets a row's number has, with the dot behind it.
fn row_len(text: &[u8]) -> usize
    ensures is { result ≡ spec.row_len text.now }
    ensures within { result ≤ length text.now }
{
    match first_other(text) {
        Some(n) => n + 1,
        None => 0,
    }
}

// The place of the first octet that is no digit.
fn first_other(text: &[u8]) -> Option<usize>
    ensures place { result ≡ position (λ c. not (is_ascii_digit c)) text.now }
    ensures bound { IfSome result (λ place. place < length text.now) }
{
    text.iter().position(|octet| !octet.is_ascii_digit())
}

fn is_bare(name: &[u8]) -> bool
    ensures { result ≡ spec.is_bare name.now }
{
    !name.is_empty() && are_bare_octets(name)
}

fn are_bare_octets(name: &[u8]) -> bool
    ensures { result ≡ list_all spec.is_bare_octet name.now }
{
    name.iter().all(|octet| is_bare_octet(*octet))
}

fn is_bare_octet(octet: u8) -> bool
    ensures { result ≡ spec.is_bare_octet octet }
{
    octet.is_ascii_alphanumeric() || octet == b'-' || octet == b'_'
}

// Appends a basic string.
fn put_string(into: &mut Octets, name: &[u8]) -> Result<(), NoMemory>
    ensures ok { OnOk result (into.new ≡ into.old ++ spec.string_text name.now) }
    ensures err { OnErr result (Extends into.old into.new) }
{
    into.push_all(b"\"")?;
    let mut rest = name;
    while let Some((octet, after)) = rest.split_first() {
        put_octet(into, *octet)?;
        rest = after;
    }
    into.push_all(b"\"")
}

// Appends an octet of a basic string. What has no escape of its own is spelled by its number.
fn put_octet(into: &mut Octets, octet: u8) -> Result<(), NoMemory>
    ensures ok { OnOk result (into.new ≡ into.old ++ spec.string_octet octet) }
    ensures err { OnErr result (Extends into.old into.new) }
{
    match octet {
        0x08 => into.push_all(b"\\b"),
        b'\t' => into.push_all(b"\\t"),
        b'\n' => into.push_all(b"\\n"),
        0x0c => into.push_all(b"\\f"),
        b'\r' => into.push_all(b"\\r"),
        b'"' => into.push_all(b"\\\""),
        b'\\' => into.push_all(b"\\\\"),
        0..0x20 | 0x7f => put_control(into, octet),
        _ => into.push_all(&[octet]),
    }
}

fn put_control(into: &mut Octets, octet: u8) -> Result<(), NoMemory>
    ensures ok { OnOk result (into.new ≡ into.old ++ spec.control_text octet) }
    ensures err { OnErr result (Extends into.old into.new) }
{
    into.push_all(b"\\u00")?;
    into.push_all(&[digit(octet / 16), digit(octet % 16)])
}

// A hexadecimal digit.
fn digit(n: u8) -> u8
    requires { n < 16 }
    ensures { result ≡ spec.digit n }
{
    if n < 10 { b'0' + n } else { b'A' + (n - 10) }
}
