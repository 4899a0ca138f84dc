// How fields are spelled.
ghost use Rattle.std.specs.Prelude.{◌≡◌, ◌+◌, ◌*◌, ◌^◌, ◌≤◌, ◌<◌, ◌++◌, OnOk, Some, length};
ghost use Rattle.hpack_codec.specs.Encoding.{varint, integer, plain_string, spelled_name, literal, encode_field, name_index};
ghost use Rattle.hpack_codec.specs.Told.{IsToldBy};

use crate::fields::Field;
use crate::static_table::find;
use std::alloc::AllocError;

/// Writes what a full prefix leaves of an integer: seven bits an octet, the lowest first.
fn push_more(out: &mut Vec<u8>, n: u32) -> Result<(), AllocError>
    ensures { OnOk result (out.new.items ≡ out.old.items ++ varint 5 n) }
{
    let mut rest = n;
    'octets: while rest >= 128 {
        out.push((128 + rest % 128) as u8)?;
        rest /= 128;
    }
    out.push(rest as u8)?;
    Ok(())
}

/// Writes an integer behind a pattern, in a prefix of so many bits and what follows it.
#[inline(always)]
pub(crate) fn push_integer(
    out: &mut Vec<u8>,
    prefix: u32,
    pattern: u8,
    n: u32,
) -> Result<(), AllocError>
    requires prefix { prefix ≤ 8 }
    requires pattern { pattern * 2 ^ prefix + 2 ^ prefix ≤ 256 }
    ensures { OnOk result (out.new.items ≡ out.old.items ++ integer prefix pattern n) }
{
    let full = (1u32 << prefix) - 1;
    let high = pattern as u32 * (1u32 << prefix);
    if n < full {
        out.push((high + n) as u8)?;
        return Ok(());
    }
    out.push((high + full) as u8)?;
    push_more(out, n - full)
}

/// Writes a plain string.
#[inline(always)]
fn push_string(out: &mut Vec<u8>, text: &[u8]) -> Result<(), AllocError>
    requires { length text.now < 2 ^ 32 }
    ensures { OnOk result (out.new.items ≡ out.old.items ++ plain_string text.now) }
{
    push_integer(out, 7, 0, text.len() as u32)?;
    out.extend_from_slice(text)
}

/// Writes the name of a literal: the lowest index of an entry with this name, or a string.
fn push_name(
    out: &mut Vec<u8>,
    pattern: u8,
    name: &[u8],
    index: Option<u32>,
) -> Result<(), AllocError>
    requires pattern { pattern < 16 }
    requires name { length name.now < 2 ^ 32 }
    requires index { index ≡ name_index name.now }
    ensures { OnOk result (out.new.items ≡ out.old.items ++ spelled_name pattern name.now) }
{
    match index {
        Some(index) => push_integer(out, 4, pattern, index),
        None => {
            push_integer(out, 4, pattern, 0)?;
            push_string(out, name)
        }
    }
}

/// Writes a field as a literal that changes no table, by the lowest index of an entry with its name.
fn push_literal(out: &mut Vec<u8>, field: &Field, index: Option<u32>) -> Result<(), AllocError>
    requires name { length field.now.name < 2 ^ 32 }
    requires value { length field.now.value < 2 ^ 32 }
    requires index { index ≡ name_index field.now.name }
    ensures { OnOk result (out.new.items ≡ out.old.items ++ literal field.now) }
{
    push_name(out, u8::from(field.never), field.name.as_slice(), index)?;
    push_string(out, field.value.as_slice())
}

/// Writes a field of which so much is told, without a search where that is enough.
#[inline(always)]
pub(crate) fn push_told(out: &mut Vec<u8>, field: &Field, told: u8) -> Result<(), AllocError>
    requires name { length field.now.name < 2 ^ 32 }
    requires value { length field.now.value < 2 ^ 32 }
    requires told { IsToldBy told field.now }
    ensures { OnOk result (out.new.items ≡ out.old.items ++ encode_field field.now) }
{
    if told > 128 {
        out.push(told)?;
        return Ok(());
    }
    if told > 0 {
        return push_named(out, field, told);
    }
    push_field(out, field)
}

/// Writes a literal by the index of its name: what stands before the value at once, where the value is short.
#[inline(always)]
fn push_named(out: &mut Vec<u8>, field: &Field, index: u8) -> Result<(), AllocError>
    requires name { length field.now.name < 2 ^ 32 }
    requires value { length field.now.value < 2 ^ 32 }
    requires index { Some index ≡ name_index field.now.name }
    requires few { index < 127 }
    ensures { OnOk result (out.new.items ≡ out.old.items ++ literal field.now) }
{
    let value = field.value.as_slice();
    let len = value.len();
    if len >= 127 {
        return push_literal(out, field, Some(u32::from(index)));
    }
    let pattern = 16 * u8::from(field.never);
    if index < 15 {
        out.extend_from_slice(&[pattern + index, len as u8])?;
    } else {
        out.extend_from_slice(&[pattern + 15, index - 15, len as u8])?;
    }
    out.extend_from_slice(value)?;
    Ok(())
}

/// Writes a field: the index of an entry of the static table, or a literal.
pub(crate) fn push_field(out: &mut Vec<u8>, field: &Field) -> Result<(), AllocError>
    requires name { length field.now.name < 2 ^ 32 }
    requires value { length field.now.value < 2 ^ 32 }
    ensures { OnOk result (out.new.items ≡ out.old.items ++ encode_field field.now) }
{
    let found = find(field.name.as_slice(), field.value.as_slice());
    match found.whole {
        Some(index) if !field.never => push_integer(out, 7, 1, index),
        _ => push_literal(out, field, found.name),
    }
}
