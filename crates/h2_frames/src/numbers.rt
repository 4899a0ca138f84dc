// Numbers at the front of a payload.
ghost use Rattle.std.specs.Prelude.{◌≡◌, ◌++◌, ◌≤◌, ◌<◌, ◌^◌, length};
ghost use Rattle.std.specs.Int.{to_be_bytes, w32};
ghost use Rattle.h2_frames.specs.Head.{word};
ghost use Rattle.h2_frames.specs.Payload.{weighting_octets};

use crate::types::Weighting;

/// A number of four octets, and what stands behind it.
pub fn number_at(octets: &[u8]) -> (u32, &[u8])
    requires { 4 ≤ length octets.now }
    ensures { octets.now ≡ to_be_bytes w32 result.0 ++ result.1.now }
{
    let (four, rest) = octets.split_at(4);
    (
        u32::from_be_bytes([four[0], four[1], four[2], four[3]]),
        rest,
    )
}

/// A bit and a number of 31 bits in four octets, and what stands behind them.
pub fn word_at(octets: &[u8]) -> (bool, u32, &[u8])
    requires { 4 ≤ length octets.now }
    ensures octets { octets.now ≡ word result.0 result.1 ++ result.2.now }
    ensures number { result.1 < 2 ^ 31 }
{
    let (n, rest) = number_at(octets);
    (n >= 0x8000_0000, n & 0x7fff_ffff, rest)
}

/// A priority of five octets, and what stands behind it.
pub fn weighting_at(octets: &[u8]) -> (Weighting, &[u8])
    requires { 5 ≤ length octets.now }
    ensures octets { octets.now ≡ weighting_octets result.0 ++ result.1.now }
    ensures dependency { result.0.dependency < 2 ^ 31 }
{
    let (exclusive, dependency, rest) = word_at(octets);
    let (one, rest) = rest.split_at(1);
    let weighting = Weighting {
        exclusive,
        dependency,
        weight: one[0],
    };
    (weighting, rest)
}
