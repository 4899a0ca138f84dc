// Values of fields, and the numbers in them.
ghost use Rattle.std.specs.Prelude.{◌≡◌, ◌≤◌, ◌<◌, ◌+◌, ◌-◌, ◌^◌, ◌==◌, [], ◌∷◌, ◌&&◌, ◌||◌, false, length, true, nat_lt, IfSome, IsTrue};
ghost use Rattle.std.specs.List.{list_any};
ghost use Rattle.std.specs.Option.{ForSome, SomeIff, option_copied, option_map, option_map_or};
ghost use Rattle.h2_heads.specs.Numbers.{begins_zero, decimal, is_decimal, is_digit, is_length, is_status, with_digit};
ghost use Rattle.h2_heads.specs.Passes.{is_low};
ghost use Rattle.h2_heads.specs.Rules.{is_bad_in_value, is_bad_value, is_blank, is_blank_at};

use crate::octets::ends;

/// Whether the value has an octet that no value has, or a space or tab at its start or end.
pub fn is_bad_value(value: &[u8]) -> bool
    ensures { result ≡ is_bad_value value.now }
{
    if has_low(value) {
        return has_bad_octet(value) || has_blank_end(value);
    }
    has_space_end(value)
}

fn has_blank_end(value: &[u8]) -> bool
    ensures { result ≡ (is_blank_at value.now 0 || is_blank_at value.now (length value.now - 1)) }
{
    is_some_blank(value.first()) || is_some_blank(value.last())
}

// Where no octet is low, a blank is a space.
fn has_space_end(value: &[u8]) -> bool
    requires { list_any is_low value.now ≡ false }
    ensures { result ≡ is_bad_value value.now }
{
    is_some_space(value.first()) | is_some_space(value.last())
}

fn has_bad_octet(value: &[u8]) -> bool
    ensures { result ≡ list_any is_bad_in_value value.now }
{
    value.iter().any(|octet| is_bad_in_value(*octet))
}

// Whether some octet is at most CR, as a tab and all bad ones are. Most values are looked at by their two
// ends.
fn has_low(value: &[u8]) -> bool
    ensures { result ≡ list_any is_low value.now }
{
    match value.len() {
        2..=3 => low_ends(value, 2),
        4..=7 => low_ends(value, 4),
        8..=16 => low_ends(value, 8),
        17..=32 => low_ends(value, 16),
        33..=64 => low_ends(value, 32),
        _ => any_low(value),
    }
}

#[inline(always)]
fn low_ends(value: &[u8], n: usize) -> bool
    requires within { n ≤ length value.now }
    requires covered { length value.now ≤ n + n }
    ensures { result ≡ list_any is_low value.now }
{
    let (front, back) = ends(value, n);
    any_low(front) | any_low(back)
}

// One pass without a branch for each octet.
#[inline(always)]
fn any_low(octets: &[u8]) -> bool
    ensures { result ≡ list_any is_low octets.now }
{
    let mut low = false;
    for octet in octets {
        low |= is_low(*octet);
    }
    low
}

fn is_low(octet: u8) -> bool
    ensures { result ≡ is_low octet }
{
    octet <= b'\r'
}

fn is_some_space(octet: Option<&u8>) -> bool
    ensures { result ≡ option_map_or (λ octet. octet == 32) (option_copied octet.entry) false }
{
    octet.is_some_and(|octet| *octet == b' ')
}

fn is_some_blank(octet: Option<&u8>) -> bool
    ensures { result ≡ option_map_or is_blank (option_copied octet.entry) false }
{
    octet.is_some_and(|octet| is_blank(*octet))
}

fn is_bad_in_value(octet: u8) -> bool
    ensures { result ≡ is_bad_in_value octet }
{
    octet == 0 || octet == b'\n' || octet == b'\r'
}

fn is_blank(octet: u8) -> bool
    ensures { result ≡ is_blank octet }
{
    octet == b' ' || octet == b'\t'
}

const MAX_LENGTH: u64 = (1 << 63) - 1;

/// The number that decimal digits say, without sign or leading zeros and below 2^63.
pub fn length_in(value: &[u8]) -> Option<u64>
    ensures { SomeIff result (IsTrue (is_length value.now)) (decimal value.now) }
{
    if value.is_empty() || begins_zero(value) {
        return None;
    }
    decimal_in(value)
}

/// The number of a first content-length, where there is one.
pub fn length_named(first: Option<&[u8]>) -> Option<u64>
    requires { ForSome (option_copied first) (λ value. is_length value ≡ true) }
    ensures named { result ≡ option_map decimal (option_copied first.entry) }
    ensures short { IfSome result (λ length. length < 2 ^ 63) }
{
    match first {
        Some(value) => length_in(value),
        None => None,
    }
}

fn begins_zero(value: &[u8]) -> bool
    ensures { result ≡ begins_zero value.now }
{
    value.len() > 1 && value[0] == b'0'
}

fn decimal_in(value: &[u8]) -> Option<u64>
    ensures { SomeIff result (IsTrue (is_decimal value.now)) (decimal value.now) }
{
    let mut n = 0;
    for octet in value {
        n = with_digit(n, *octet)?;
    }
    Some(n)
}

// The number with one more digit, where that is a digit and the number below 2^63.
fn with_digit(n: u64, octet: u8) -> Option<u64>
    ensures { SomeIff result
        (IsTrue (is_digit octet && nat_lt (with_digit n octet) (2 ^ 63))) (with_digit n octet) }
{
    if !is_digit(octet) {
        return None;
    }
    let digit = u64::from(octet - b'0');
    if n > (MAX_LENGTH - digit) / 10 {
        return None;
    }
    Some(10 * n + digit)
}

/// The status that three digits from 100 to 999 say.
pub fn status_in(value: &[u8]) -> Option<u16>
    ensures { SomeIff result (IsTrue (is_status value.now)) (decimal value.now) }
{
    let [hundreds, tens, units] = value else {
        return None;
    };
    three_digits(*hundreds, *tens, *units)
}

fn three_digits(hundreds: u8, tens: u8, units: u8) -> Option<u16>
    ensures { let digits = hundreds ∷ tens ∷ units ∷ [] in
        SomeIff result (IsTrue (is_status digits)) (decimal digits) }
{
    if hundreds == b'0' || !is_digit(hundreds) || !is_digit(tens) || !is_digit(units) {
        return None;
    }
    Some(100 * u16::from(hundreds - b'0') + 10 * u16::from(tens - b'0') + u16::from(units - b'0'))
}

fn is_digit(octet: u8) -> bool
    ensures { result ≡ is_digit octet }
{
    (b'0'..=b'9').contains(&octet)
}
