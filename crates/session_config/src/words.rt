// What is wrong with a configuration, in words.
ghost use Rattle.std.specs.Prelude.{OnErr, OnOk};
ghost use Rattle.flow_notes.specs.Extends.{Extends};

use crate::choice::{needed_at, said_beside};
use crate::refusal::put_key;
use config_tables::ConfigFault;
use io_ports::{NoMemory, Octets};

/// What may stand at a key, by the last part of its name.
const ASKED: [(&[u8], &[u8]); 51] = [
    (b"write_buffer", b"a number from 0 to 16,777,216"),
    (b"send_buffer", b"a number from 0 to 16,777,216"),
    (b"stream_window", b"a number from 65,535 to 16,777,216"),
    (b"connection_window", b"a number from 65,535 to 16,777,216"),
    (b"max_streams", b"a number from 1 to 1,000"),
    (b"field_list", b"a number from 1,024 to 61,440"),
    (b"control_frames", b"a number from 1 to 10,000"),
    (b"empty_frames", b"a number from 1 to 10,000"),
    (b"peer_resets", b"a number from 1 to 1,000,000"),
    (b"quantum", b"a number from 16,384 to 1,048,576"),
    (b"frame_size", b"a number from 16,384 to 1,048,576"),
    (b"overflow_multiple", b"a number from 0 to 1,000"),
    (b"route", b"a number of milliseconds from 0 to 86,400,000"),
    (
        b"stream_idle",
        b"a number of milliseconds from 0 to 86,400,000",
    ),
    (
        b"connection_idle",
        b"a number of milliseconds from 0 to 86,400,000",
    ),
    (
        b"stream_idle_min",
        b"a number of milliseconds from 0 to stream_idle",
    ),
    (
        b"connection_idle_min",
        b"a number of milliseconds from 0 to connection_idle",
    ),
    (
        b"name",
        b"a name that no earlier cluster has: 1 to 64 of a to z, 0 to 9, - and _",
    ),
    (b"address", b"a text"),
    (b"authority", b"a text"),
    (b"path", b"a text"),
    (b"prefix", b"a text"),
    (b"cluster", b"a name: 1 to 64 of a to z, 0 to 9, - and _"),
    (
        b"request",
        b"a list of at most 8 of \"pass\", \"hold\" and \"meter\"",
    ),
    (
        b"response",
        b"a list of at most 8 of \"pass\", \"hold\" and \"meter\"",
    ),
    (b"hold_limit", b"a number from 1 to 16,777,216"),
    (b"meter_limit", b"a number from 1 to 16,777,216"),
    (b"meter_rate", b"a number from 1 to 16,777,216"),
    (
        b"resources",
        b"a list of at most 16 names, none twice: 1 to 64 of a to z, 0 to 9, - and _ each",
    ),
    (b"class_start", b"a number from 10 to 40"),
    (b"triggers", b"a list of at most 64 tables"),
    (b"shed", b"a list of at most 16 tables"),
    (
        b"action",
        b"\"stop_requests\", \"stop_accepting\", \"reject_incoming\", \"no_keepalive\", \"reduce_timeouts\" or \"reset_streams\"",
    ),
    (b"point", b"\"accept\", \"read\" or \"drain\""),
    (b"resource", b"one of the names in overload.resources"),
    (b"value", b"a number from 0 to 1,000,000"),
    (b"scaling", b"a number from 0 to 1,000,000"),
    (b"saturation", b"a number above scaling, at most 1,000,000"),
    (b"listen", b"a text"),
    (b"journal", b"a text"),
    (b"workers", b"a number from 1 to 16"),
    (b"connections", b"a number from 1 to 16"),
    (b"max_connections", b"a number from 1 to 1,000,000"),
    (b"accept_rate", b"a number from 0 to 1,000,000"),
    (b"accept_burst", b"a number from 1 to 1,000,000"),
    (b"clusters", b"a list of tables, [[clusters]]"),
    (b"routes", b"a list of tables, [[routes]]"),
    (b"limits", b"a table, [limits]"),
    (b"timeouts", b"a table, [timeouts]"),
    (b"overload", b"a table, [overload]"),
    (b"proxy", b"a table, [proxy]"),
];

/// Appends what is wrong with a configuration, in one line without its newline, as `configuration: limits.max_streams is out of its
/// range: a number from 1 to 1,000`. Running out of memory may leave some of it. Proved is that what stood there stays in front.
pub fn put_config_fault(fault: &ConfigFault, into: &mut Octets) -> Result<(), NoMemory>
    ensures ok { OnOk result (Extends into.old into.new) }
    ensures err { OnErr result (Extends into.old into.new) }
{
    into.push_all(b"configuration: ")?;
    match fault {
        ConfigFault::NotToml => into.push_all(b"the text is no TOML document in UTF-8"),
        ConfigFault::NoMemory => into.push_all(b"out of memory"),
        ConfigFault::Missing(key) => put_missing(fault, key.as_slice(), into),
        ConfigFault::WrongKind(key) => {
            put_asked(fault, b" has a value of another kind", key.as_slice(), into)
        }
        ConfigFault::OutOfRange(key) => {
            put_asked(fault, b" is out of its range", key.as_slice(), into)
        }
        ConfigFault::Unknown(key) => put_strange(fault, key.as_slice(), into),
        ConfigFault::UnknownCluster(_) => put_key_fault(fault, b" names no cluster of it", into),
    }
}

fn put_key_fault(fault: &ConfigFault, what: &[u8], into: &mut Octets) -> Result<(), NoMemory>
    ensures ok { OnOk result (Extends into.old into.new) }
    ensures err { OnErr result (Extends into.old into.new) }
{
    put_key(fault, into)?;
    into.push_all(what)
}

// That a key is missing, and what its row has to have, or what is to stand there.
fn put_missing(fault: &ConfigFault, key: &[u8], into: &mut Octets) -> Result<(), NoMemory>
    ensures ok { OnOk result (Extends into.old into.new) }
    ensures err { OnErr result (Extends into.old into.new) }
{
    match needed_at(key) {
        Some(needed) => {
            put_key_fault(fault, b" is missing: ", into)?;
            into.push_all(needed)
        }
        None => put_asked(fault, b" is missing", key, into),
    }
}

// That a key isn't known where it stands.
fn put_strange(fault: &ConfigFault, key: &[u8], into: &mut Octets) -> Result<(), NoMemory>
    ensures ok { OnOk result (Extends into.old into.new) }
    ensures err { OnErr result (Extends into.old into.new) }
{
    match said_beside(key) {
        Some(beside) => put_key_fault(fault, beside, into),
        None => put_key_fault(fault, b" is no key of it", into),
    }
}

// What is wrong with a key, and what may stand there.
fn put_asked(
    fault: &ConfigFault,
    what: &[u8],
    key: &[u8],
    into: &mut Octets,
) -> Result<(), NoMemory>
    ensures ok { OnOk result (Extends into.old into.new) }
    ensures err { OnErr result (Extends into.old into.new) }
{
    put_key_fault(fault, what, into)?;
    match asked_at(last_part(key)) {
        Some(asked) => put_behind(b": ", asked, into),
        None => Ok(()),
    }
}

fn put_behind(between: &[u8], text: &[u8], into: &mut Octets) -> Result<(), NoMemory>
    ensures ok { OnOk result (Extends into.old into.new) }
    ensures err { OnErr result (Extends into.old into.new) }
{
    into.push_all(between)?;
    into.push_all(text)
}

// What may stand at a key. The rows of lists, which have a number in place of a name, are tables.
fn asked_at(name: &[u8]) -> Option<&'static [u8]> {
    if name.first().is_some_and(u8::is_ascii_digit) {
        return Some(b"a table");
    }
    for (key, asked) in &ASKED {
        if *key == name {
            return Some(*asked);
        }
    }
    None
}

// What stands behind the last dot of a key.
fn last_part(key: &[u8]) -> &[u8] {
    match key.iter().rposition(|octet| *octet == b'.') {
        Some(dot) => key.get(dot.saturating_add(1)..).unwrap_or_default(),
        None => key,
    }
}
