// The grammar of a plain session's lines.
ghost use Rattle.std.specs.Prelude.{◌≡◌, IfSome, IfNone, IfOk};
ghost use Rattle.tape_laws.specs.declared.PlainLimits.{PlainLimits};
ghost use Rattle.session_lines.specs.Grammar.{HasNoHeader, HasNoLimits, IsLimitsLine};
ghost use Rattle.session_lines.specs.Seen.{header_line, limit_numbers, are_limits as limits_test, is_quantum as quantum_test};

use crate::order::Format;
use flow_notes::read_numbers;
use io_ports::NoMemory;
use std::alloc::Global;
use tape_laws::PlainLimits;

/// What a move carries at most in format 1.
const QUANTUM: u32 = 16_384;

/// The greatest limit of a buffer.
const MOST: u32 = 16_777_216;

/// The format of a header line.
pub fn read_header(line: &[u8]) -> Option<Format>
    ensures some { IfSome result (λ format. header_line format ≡ line.now) }
    ensures none { IfNone result (HasNoHeader line.now) }
{
    if line == b"h2replay-session 1 plain".as_slice() {
        Some(Format::One)
    } else if line == b"h2replay-session 2 plain".as_slice() {
        Some(Format::Two)
    } else {
        None
    }
}

fn limits_of(format: Format, numbers: &[u32]) -> Option<PlainLimits>
    ensures some { IfSome result (λ limits. limit_numbers format limits ≡ numbers.now) }
    ensures quantum { IfSome result (λ limits. format ≡ Format.One → limits.quantum ≡ 16384) }
    ensures none { IfNone result ((limits : PlainLimits) → limit_numbers format limits ≡ numbers.now → ⊥) }
{
    match (format, numbers) {
        (Format::One, &[recv, send, write]) => Some(PlainLimits {
            recv,
            send,
            write,
            quantum: QUANTUM,
        }),
        (Format::Two, &[recv, send, write, quantum]) => Some(PlainLimits {
            recv,
            send,
            write,
            quantum,
        }),
        _ => None,
    }
}

fn is_quantum(format: Format, quantum: u32) -> bool
    ensures { result ≡ quantum_test format quantum }
{
    match format {
        Format::One => quantum == QUANTUM,
        Format::Two => 16_384 <= quantum && quantum <= 1_048_576,
    }
}

fn are_limits(format: Format, limits: PlainLimits) -> bool
    ensures { result ≡ limits_test format limits }
{
    1 <= limits.recv
        && limits.recv <= MOST
        && limits.send <= MOST
        && limits.write <= MOST
        && is_quantum(format, limits.quantum)
}

/// The limits of a limits line.
pub fn read_limits(
    alloc: Global,
    format: Format,
    line: &[u8],
) -> Result<Option<PlainLimits>, NoMemory>
    ensures some { IfOk result (λ read. IfSome read (IsLimitsLine format line.now)) }
    ensures none { IfOk result (λ read. IfNone read (HasNoLimits format line.now)) }
{
    let Some(numbers) = read_numbers(alloc, b"limits", line)? else {
        return Ok(None);
    };
    let Some(limits) = limits_of(format, numbers.as_slice()) else {
        return Ok(None);
    };
    if are_limits(format, limits) {
        Ok(Some(limits))
    } else {
        Ok(None)
    }
}
