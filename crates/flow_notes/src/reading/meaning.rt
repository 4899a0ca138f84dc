// What one word says.
ghost use Rattle.std.specs.Prelude.{◌≡◌, ◌<◌, ◌≤◌, ◌^◌, ℕ, None, IfSome, IfNone, decimal};
ghost use Rattle.flow_notes.specs.Flow.{flow_word};
ghost use Rattle.flow_notes.specs.Meaning.{number_of, u16_of, u32_of, u64_of, positive_of, counted_of, moment_of, count_of, side_of, flow_of};
ghost use Rattle.flow_notes.specs.Number.{IsMoment, IsCount};

use flow_gate::FlowId;

// A number below 2^64.
fn digits(word: &[u8]) -> Option<u64>
    ensures some { IfSome result (λ n. word.now ≡ decimal n) }
    ensures none { IfNone result ((n : ℕ) → n < 2 ^ 64 → word.now ≡ decimal n → ⊥) }
{
    if word.is_empty() {
        return None;
    }
    if word[0] == b'+' {
        return None;
    }
    if word[0] == b'0' && word.len() > 1 {
        return None;
    }
    let Ok(text) = std::str::from_utf8(word) else {
        return None;
    };
    text.parse::<u64>().ok()
}

/// A number from `low` to `high`.
pub fn number_word(word: &[u8], low: u64, high: u64) -> Option<u64>
    ensures value { result ≡ number_of low high word.now }
    ensures spelled { IfSome result (λ n. (word.now ≡ decimal n) × (low ≤ n) × (n ≤ high)) }
{
    let n = digits(word)?;
    if n < low {
        return None;
    }
    if n > high {
        return None;
    }
    Some(n)
}

/// A number of 16 bits.
pub fn u16_word(word: &[u8]) -> Option<u16>
    ensures value { result ≡ u16_of word.now }
    ensures spelled { IfSome result (λ n. word.now ≡ decimal n) }
{
    let n = number_word(word, 0, u64::from(u16::MAX))?;
    Some(n as u16)
}

/// A number of 32 bits.
pub fn u32_word(word: &[u8]) -> Option<u32>
    ensures value { result ≡ u32_of word.now }
    ensures spelled { IfSome result (λ n. word.now ≡ decimal n) }
{
    let n = number_word(word, 0, u64::from(u32::MAX))?;
    Some(n as u32)
}

/// A number of 64 bits.
pub fn u64_word(word: &[u8]) -> Option<u64>
    ensures value { result ≡ u64_of word.now }
    ensures spelled { IfSome result (λ n. word.now ≡ decimal n) }
{
    number_word(word, 0, u64::MAX)
}

/// A positive number of 32 bits.
pub fn counted_word(word: &[u8]) -> Option<u32>
    ensures value { result ≡ counted_of word.now }
    ensures spelled { IfSome result (λ n. (word.now ≡ decimal n) × (1 ≤ n)) }
{
    let n = number_word(word, 1, u64::from(u32::MAX))?;
    Some(n as u32)
}

/// A positive number of 31 bits.
pub fn positive_word(word: &[u8]) -> Option<u32>
    ensures value { result ≡ positive_of word.now }
    ensures spelled { IfSome result (λ n. (word.now ≡ decimal n) × (1 ≤ n) × (n ≤ 2147483647)) }
{
    let n = number_word(word, 1, 2_147_483_647)?;
    Some(n as u32)
}

/// A number below 2^60, in milliseconds.
pub fn moment_word(word: &[u8]) -> Option<u64>
    ensures value { result ≡ moment_of word.now }
    ensures spelled { IfSome result (λ n. (word.now ≡ decimal n) × IsMoment n) }
{
    number_word(word, 0, (1 << 60) - 1)
}

/// A number below 2^63.
pub fn count_word(word: &[u8]) -> Option<u64>
    ensures value { result ≡ count_of word.now }
    ensures spelled { IfSome result (λ n. (word.now ≡ decimal n) × IsCount n) }
{
    number_word(word, 0, (1 << 63) - 1)
}

fn side(octet: u8) -> Option<bool>
    ensures { result ≡ side_of octet }
{
    match octet {
        b'q' => Some(false),
        b'r' => Some(true),
        _ => None,
    }
}

/// A flow.
#[tactic(auto, unfolding(crate::specs::Meaning::flow_of))]
pub fn read_flow(word: &[u8]) -> Option<FlowId>
    ensures value { result ≡ flow_of word.now }
    ensures spelled { IfSome result (λ flow. word.now ≡ flow_word flow) }
{
    if word.is_empty() {
        return None;
    }
    let (number, last) = word.split_at(word.len() - 1);
    let exchange = u64_word(number)?;
    let back = side(last[0])?;
    Some(FlowId { exchange, back })
}
