// Bits that wait to be decoded, and octets that are put behind them.
ghost use Rattle.std.specs.Prelude.{◌≡◌, ◌+◌, ◌*◌, ◌<◌, ◌≤◌, ◌++◌, ◌↔◌, length, IfSome, IfNone, IsTrue};
ghost use Rattle.huffman.specs.Huffman.{bits, octet_bits, IsPadding};

/// The last `have` bits of `held`, and then those of `rest`. Bits of `held` above these are stale.
#[derive(Clone, Copy)]
pub(crate) struct Waiting<'a> {
    pub held: u64,
    pub have: u32,
    pub rest: &'a [u8],
}

/// The bits with those of an octet behind them.
fn with_octet(held: u64, have: u32, octet: u8) -> u64
    requires { have ≤ 56 }
    ensures { bits (have + 8) result ≡ bits have held ++ bits 8 octet }
{
    (held << 8) | (octet as u64)
}

/// The bits with those of four octets behind them.
fn with_word(held: u64, have: u32, octets: &[u8]) -> u64
    requires room { have ≤ 32 }
    requires four { length octets.now ≡ 4 }
    ensures { bits (have + 32) result ≡ bits have held ++ octet_bits octets.now }
{
    let word = u32::from_be_bytes([octets[0], octets[1], octets[2], octets[3]]);
    (held << 32) | (word as u64)
}

/// Whether the bits are padding: fewer than eight, all of them ones.
pub(crate) fn is_padding(held: u64, have: u32) -> bool
    ensures { IsTrue result ↔ IsPadding (bits have held) }
{
    if have >= 8 {
        return false;
    }
    let mask = (1u64 << have) - 1;
    held & mask == mask
}

/// The bits with at least 30 of them held, or None where there are too few.
pub(crate) fn refilled(waiting: Waiting) -> Option<Waiting>
    ensures few { IfNone result ((waiting.entry.have < 30) × (length waiting.entry.rest.now < 4)) }
    ensures full { IfSome result (λ w. (30 ≤ w.have) × (waiting.entry.have < 62 → w.have < 62)) }
    ensures same { IfSome result (λ w. bits w.have w.held ++ octet_bits w.rest.now
        ≡ bits waiting.entry.have waiting.entry.held ++ octet_bits waiting.entry.rest.now) }
    ensures count { IfSome result (λ w. w.have + 8 * length w.rest.now
        ≡ waiting.entry.have + 8 * length waiting.entry.rest.now) }
{
    if waiting.have >= 30 {
        return Some(waiting);
    }
    if waiting.rest.len() < 4 {
        return None;
    }
    let (four, rest) = waiting.rest.split_at(4);
    Some(Waiting {
        held: with_word(waiting.held, waiting.have, four),
        have: waiting.have + 32,
        rest,
    })
}

/// All the bits held, where up to three octets are left.
pub(crate) fn with_rest(waiting: Waiting) -> Waiting
    requires few { waiting.have < 30 }
    requires short { length waiting.rest.now < 4 }
    ensures few { result.have < 54 }
    ensures same { bits result.have result.held
        ≡ bits waiting.entry.have waiting.entry.held ++ octet_bits waiting.entry.rest.now }
{
    let Waiting {
        mut held,
        mut have,
        rest,
    } = waiting;
    for octet in rest {
        held = with_octet(held, have, *octet);
        have += 8;
    }
    Waiting { held, have, rest }
}
