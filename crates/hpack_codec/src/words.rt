// Strings of octets beside one another, by words.
ghost use Rattle.std.specs.Int.{w16, w32, w64};
ghost use Rattle.std.specs.Prelude.{◌≡◌, ◌-◌, ◌≤◌, drop, length, take};
ghost use Rattle.std.specs.Str.{bytes_eq};
ghost use Rattle.hpack_codec.specs.Words.{IsWordOf};

/// Whether two strings of octets are the same. Those of 2 to 16 octets are, where the words at their two ends are: the two words meet or
/// overlap, so that no octet is left. Nearly all names and values of the static table are as short.
#[inline(always)]
pub fn is_same(octets: &[u8], others: &[u8]) -> bool
    ensures { result ≡ bytes_eq octets.now others.now }
{
    let len = octets.len();
    if len != others.len() {
        return false;
    }
    if len > 16 {
        octets == others
    } else if len >= 8 {
        ends_of_8(octets) == ends_of_8(others)
    } else if len >= 4 {
        ends_of_4(octets) == ends_of_4(others)
    } else if len >= 2 {
        ends_of_2(octets) == ends_of_2(others)
    } else {
        octets.first() == others.first()
    }
}

// The first 8 octets and the last 8, each as a word.
#[inline(always)]
fn ends_of_8(octets: &[u8]) -> (u64, u64)
    requires { 8 ≤ length octets.now }
    ensures first { IsWordOf w64 (take 8 octets.now) result.0 }
    ensures last { IsWordOf w64 (drop (length octets.now - 8) octets.now) result.1 }
{
    let first = octets.first_chunk::<8>().unwrap();
    let last = octets.last_chunk::<8>().unwrap();
    (u64::from_le_bytes(*first), u64::from_le_bytes(*last))
}

// The first 4 octets and the last 4, each as a word.
#[inline(always)]
fn ends_of_4(octets: &[u8]) -> (u32, u32)
    requires { 4 ≤ length octets.now }
    ensures first { IsWordOf w32 (take 4 octets.now) result.0 }
    ensures last { IsWordOf w32 (drop (length octets.now - 4) octets.now) result.1 }
{
    let first = octets.first_chunk::<4>().unwrap();
    let last = octets.last_chunk::<4>().unwrap();
    (u32::from_le_bytes(*first), u32::from_le_bytes(*last))
}

// The first 2 octets and the last 2, each as a word.
#[inline(always)]
fn ends_of_2(octets: &[u8]) -> (u16, u16)
    requires { 2 ≤ length octets.now }
    ensures first { IsWordOf w16 (take 2 octets.now) result.0 }
    ensures last { IsWordOf w16 (drop (length octets.now - 2) octets.now) result.1 }
{
    let first = octets.first_chunk::<2>().unwrap();
    let last = octets.last_chunk::<2>().unwrap();
    (u16::from_le_bytes(*first), u16::from_le_bytes(*last))
}
