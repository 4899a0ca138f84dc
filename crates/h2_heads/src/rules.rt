// The rules for regular fields whose names have rules of their own.
ghost use Rattle.std.specs.Prelude.{◌≡◌, codes};
ghost use Rattle.std.specs.Option.{option_copied};
ghost use Rattle.h2_heads.specs.Named.{is_named};
ghost use Rattle.h2_heads.specs.Passes.{is_special, lowest_of_special};
ghost use Rattle.h2_heads.specs.Rules.{connection_fields, differs, is_bad_length, is_forbidden, is_one_of};

use crate::malformed::Kind;
use crate::names::is_named;
use crate::octets::is_text;
use crate::values::length_in;
use hpack_codec::Field;

/// The lowest rule that a regular field breaks whose name and value are sound, where `length` is the
/// value of the first content-length before it. Most names have no rule of their own.
pub fn lowest_of_regular(length: Option<&[u8]>, name: &[u8], field: &Field) -> Option<Kind>
    requires { name.now ≡ field.now.name }
    ensures { result ≡ lowest_of_special (option_copied length.entry) field.now }
{
    if is_special(name) {
        return lowest_of_special(length, field);
    }
    None
}

fn lowest_of_special(length: Option<&[u8]>, field: &Field) -> Option<Kind>
    ensures { result ≡ lowest_of_special (option_copied length.entry) field.now }
{
    if is_forbidden(field) {
        return Some(Kind::Forbidden);
    }
    if is_bad_length(length, field) {
        return Some(Kind::BadLength);
    }
    None
}

// Whether the name has such a rule, told by its length first.
fn is_special(name: &[u8]) -> bool
    ensures { result ≡ is_special name.now }
{
    match name.len() {
        2 => is_text(name, b"te"),
        7 => is_text(name, b"upgrade"),
        10 => is_text(name, b"connection") || is_text(name, b"keep-alive"),
        14 => is_text(name, b"content-length"),
        16 => is_text(name, b"proxy-connection"),
        17 => is_text(name, b"transfer-encoding"),
        _ => false,
    }
}

fn is_forbidden(field: &Field) -> bool
    ensures { result ≡ is_forbidden field.now }
{
    is_of_connection(field)
        || is_named(field, b"te") && !is_text(field.value.as_slice(), b"trailers")
}

fn is_of_connection(field: &Field) -> bool
    ensures { result ≡ is_one_of connection_fields field.now }
{
    is_named(field, b"connection")
        || is_named(field, b"keep-alive")
        || is_named(field, b"proxy-connection")
        || is_named(field, b"transfer-encoding")
        || is_named(field, b"upgrade")
}

/// Whether the field is a content-length that is no length, or differs from the first one.
pub fn is_bad_length(length: Option<&[u8]>, field: &Field) -> bool
    ensures { result ≡ is_bad_length (option_copied length.entry) field.now }
{
    is_named(field, b"content-length")
        && (length_in(field.value.as_slice()).is_none() || differs(length, field.value.as_slice()))
}

fn differs(first: Option<&[u8]>, value: &[u8]) -> bool
    ensures { result ≡ differs (option_copied first.entry) value.now }
{
    first.is_some_and(|first| first != value)
}
