// Names of fields, and fields by their names.
ghost use Rattle.std.specs.Prelude.{◌≡◌, ◌≤◌, ◌+◌, ◌==◌, ◌||◌, codes, false, if◌then◌else◌, length, nat_eq, not};
ghost use Rattle.h2_heads.specs.Named.{is_named, value_of};
ghost use Rattle.h2_heads.specs.Passes.{is_plain, is_usual};
ghost use Rattle.h2_heads.specs.Rules.{has_inner_colon, is_bad_in_name, is_bad_name};
ghost use Rattle.h2_heads.specs.declared.malformed.Kind.TheVariants.{BadName, InnerColon};
ghost use Rattle.std.specs.List.{list_all, list_any, starts_with};
ghost use Rattle.std.specs.Option.{option_copied};

use crate::malformed::Kind;
use crate::octets::{ends, is_text};
use hpack_codec::Field;

/// Whether the name is empty or has an octet that no name has.
pub fn is_bad_name(name: &[u8]) -> bool
    ensures { result ≡ is_bad_name name.now }
{
    name.is_empty() || has_bad_octet(name)
}

/// Whether the name has an octet, none that no name has, and no colon past the first.
pub fn is_sound_name(name: &[u8]) -> bool
    ensures { result ≡ not (is_bad_name name.now || has_inner_colon name.now) }
{
    match name {
        [first, rest @ ..] => may_begin(*first) & all_plain(rest),
        [] => false,
    }
}

/// The same of a name that doesn't begin with a colon.
pub fn is_sound_regular(name: &[u8]) -> bool
    requires { starts_with nat_eq name.now (codes ":") ≡ false }
    ensures { result ≡ not (is_bad_name name.now || has_inner_colon name.now) }
{
    if name.is_empty() {
        return false;
    }
    all_plain(name)
}

/// The lower of the two rules for names that a name breaks.
pub fn fault_of_name(name: &[u8]) -> Kind
    ensures { result ≡ (if is_bad_name name.now then BadName else InnerColon) }
{
    if is_bad_name(name) {
        Kind::BadName
    } else {
        Kind::InnerColon
    }
}

// Whether a name may begin with the octet.
fn may_begin(octet: u8) -> bool
    ensures { result ≡ (is_plain octet || octet == 58) }
{
    is_plain(octet) || octet == b':'
}

// Whether each octet is plain. Most names have none but usual ones.
#[inline(always)]
fn all_plain(octets: &[u8]) -> bool
    ensures { result ≡ list_all is_plain octets.now }
{
    if all_usual(octets) {
        return true;
    }
    octets.iter().all(|octet| is_plain(*octet))
}

// Names are short, and most are looked at by their two ends.
#[inline(always)]
fn all_usual(octets: &[u8]) -> bool
    ensures { result ≡ list_all is_usual octets.now }
{
    match octets.len() {
        4..=8 => usual_ends(octets, 4),
        9..=16 => usual_ends(octets, 8),
        17..=32 => usual_ends(octets, 16),
        _ => each_usual(octets),
    }
}

#[inline(always)]
fn usual_ends(octets: &[u8], n: usize) -> bool
    requires within { n ≤ length octets.now }
    requires covered { length octets.now ≤ n + n }
    ensures { result ≡ list_all is_usual octets.now }
{
    let (front, back) = ends(octets, n);
    each_usual(front) & each_usual(back)
}

// One pass without a branch for each octet.
#[inline(always)]
fn each_usual(octets: &[u8]) -> bool
    ensures { result ≡ list_all is_usual octets.now }
{
    let mut usual = true;
    for octet in octets {
        usual &= is_usual(*octet);
    }
    usual
}

fn is_usual(octet: u8) -> bool
    ensures { result ≡ is_usual octet }
{
    (0x21..=0x39).contains(&octet) | (0x5b..=0x7e).contains(&octet)
}

// Whether names may have the octet past their first.
fn is_plain(octet: u8) -> bool
    ensures { result ≡ is_plain octet }
{
    !is_bad_in_name(octet) && octet != b':'
}

fn has_bad_octet(name: &[u8]) -> bool
    ensures { result ≡ list_any is_bad_in_name name.now }
{
    name.iter().any(|octet| is_bad_in_name(*octet))
}

fn is_bad_in_name(octet: u8) -> bool
    ensures { result ≡ is_bad_in_name octet }
{
    octet.is_ascii_uppercase() || octet < 0x21 || octet > 0x7e
}

/// Whether the name begins as those of pseudo-fields do.
pub fn is_pseudo(name: &[u8]) -> bool
    ensures { result ≡ starts_with nat_eq name.now (codes ":") }
{
    name.starts_with(b":")
}

pub fn is_named(field: &Field, name: &[u8]) -> bool
    ensures { result ≡ is_named name.now field.now }
{
    field.name.as_slice() == name
}

/// The value of the first field with the name.
pub fn value_of<'a>(fields: &'a [Field], name: &[u8]) -> Option<&'a [u8]>
    ensures { option_copied result ≡ value_of name.now fields.now }
{
    fields
        .iter()
        .find(|field| is_named(field, name))
        .map(|field| field.value.as_slice())
}

/// The value of the first `:method`.
pub fn first_method(fields: &[Field]) -> Option<&[u8]>
    ensures { option_copied result ≡ value_of (codes ":method") fields.now }
{
    fields
        .iter()
        .find(|field| is_method(field))
        .map(|field| field.value.as_slice())
}

fn is_method(field: &Field) -> bool
    ensures { result ≡ is_named (codes ":method") field.now }
{
    is_text(field.name.as_slice(), b":method")
}
