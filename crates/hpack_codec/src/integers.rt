// Integers with a prefix.
ghost use Rattle.std.specs.Prelude.{◌≡◌, ◌%◌, ◌^◌, ◌<◌, ◌≤◌, ◌∷◌, ℕ, length, IfOk, IfErr};
ghost use Rattle.hpack_codec.specs.Integers.{full, IsInteger, BreaksInteger};

use crate::fault::HpackFault;

/// Reads what is behind a full prefix, whose number is `most`.
#[inline(never)]
fn read_more(octets: &[u8], most: u64, prefix: u32) -> Result<(u32, &[u8]), HpackFault>
    requires prefix { prefix ≤ 8 }
    requires most { most ≡ full prefix }
    ensures ok { IfOk result (λ x. (first : ℕ) → first % 2 ^ prefix ≡ full prefix →
        IsInteger prefix (first ∷ octets.now) x.0 x.1.now) }
    ensures err { IfErr result (λ e. (first : ℕ) → first % 2 ^ prefix ≡ full prefix →
        BreaksInteger prefix (first ∷ octets.now) e) }
    ensures shorter { IfOk result (λ x. length x.1.now < length octets.now) }
{
    let mut value = most;
    'octets: for n in 0..5usize {
        if n == octets.len() {
            return Err(HpackFault::Truncated);
        }
        let octet = octets[n];
        value += (octet & 127) as u64 * (1u64 << (7 * n));
        if value > u32::MAX as u64 {
            return Err(HpackFault::BadInteger);
        }
        if octet < 128 {
            let (_, rest) = octets.split_at(n + 1);
            return Ok((value as u32, rest));
        }
    }
    Err(HpackFault::BadInteger)
}

/// Reads the integer in the low bits of the first octet and what follows it, and gives the rest.
#[inline(always)]
pub(crate) fn read_integer(octets: &[u8], prefix: u32) -> Result<(u32, &[u8]), HpackFault>
    requires { prefix ≤ 8 }
    ensures ok { IfOk result (λ x. IsInteger prefix octets.now x.0 x.1.now) }
    ensures err { IfErr result (λ e. BreaksInteger prefix octets.now e) }
    ensures shorter { IfOk result (λ x. length x.1.now < length octets.now) }
{
    let Some((first, rest)) = octets.split_first() else {
        return Err(HpackFault::Truncated);
    };
    let most = (1u64 << prefix) - 1;
    let low = *first as u64 & most;
    if low < most {
        return Ok((low as u32, rest));
    }
    read_more(rest, most, prefix)
}
