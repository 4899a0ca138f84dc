// Octets by their two ends, and beside those of a text that is written out.
ghost use Rattle.std.specs.Prelude.{◌≡◌, ◌≤◌, ◌-◌, drop, false, length, slice_get, take, true};
ghost use Rattle.std.specs.Option.{option_map_or};
ghost use Rattle.std.specs.Str.{bytes_eq};

use hpack_codec::is_same;

/// The first `n` octets and the last `n`. Of at most twice as many octets each is in one of them, so
/// that a pass over both looks at all. Where `n` is written out, the compiler makes each of the two
/// passes of a few instructions for vectors, whatever the length of the whole is.
#[inline(always)]
pub fn ends(octets: &[u8], n: usize) -> (&[u8], &[u8])
    requires { n ≤ length octets.now }
    ensures front { result.0.now ≡ take n octets.now }
    ensures back { result.1.now ≡ drop (length octets.now - n) octets.now }
{
    let (front, _) = octets.split_at(n);
    let (_, back) = octets.split_at(octets.len() - n);
    (front, back)
}

/// Whether the octets are these. As their number is written out, the compiler makes of it a compare
/// of one or two words, and no call. Where it is one of several texts, ask for the length first, with a
/// `match`: then each of these asks for no length again. The last octet tells most texts of one length
/// apart, so it is looked at first.
#[inline(always)]
pub fn is_text<const N: usize>(octets: &[u8], known: &[u8; N]) -> bool
    ensures { result ≡ bytes_eq octets.now known.now }
{
    let Some(array) = octets.as_array::<N>() else {
        return false;
    };
    if ends_otherwise(array, known) {
        return false;
    }
    is_same(array, known)
}

// Whether their last octets differ.
#[inline(always)]
fn ends_otherwise(octets: &[u8], others: &[u8]) -> bool
    ensures { result ≡ true → bytes_eq octets.now others.now ≡ false }
{
    last_of(octets) != last_of(others)
}

// The last octet, 0 of none.
#[inline(always)]
fn last_of(octets: &[u8]) -> u8
    ensures { result ≡ option_map_or (λ octet. octet) (slice_get octets.now (length octets.now - 1)) 0 }
{
    match octets.last() {
        Some(octet) => *octet,
        None => 0,
    }
}
