// Literals: names and values.
ghost use Rattle.std.specs.Prelude.{◌≤◌, ◌<◌, length, IfOk, IfErr};
ghost use Rattle.hpack_codec.specs.Faults.{OrNoMemory};
ghost use Rattle.hpack_codec.specs.Sections.{BreaksLiteral, BreaksName, IsLiteral, IsName};
ghost use Rattle.hpack_codec.specs.Told.{IsNameAt};

use crate::fault::HpackFault;
use crate::integers::read_integer;
use crate::line::Line;
use crate::strings::read_string;
use crate::table::DynamicTable;
use io_ports::Octets;
use std::alloc::Global;

/// Reads a name, whose index has a prefix of so many bits, and gives the rest and the index.
#[inline(always)]
fn read_name<'a>(
    alloc: Global,
    table: &DynamicTable,
    octets: &'a [u8],
    prefix: u32,
) -> Result<(Octets, &'a [u8], u32), HpackFault>
    requires { prefix ≤ 8 }
    ensures ok { IfOk result (λ x. IsName prefix table.now octets.now x.0 x.1.now) }
    ensures index { IfOk result (λ x. IsNameAt table.now x.2 x.0) }
    ensures err { IfErr result (λ e. OrNoMemory e (BreaksName prefix table.now octets.now e)) }
    ensures shorter { IfOk result (λ x. length x.1.now < length octets.now) }
{
    let (index, rest) = match read_integer(octets, prefix) {
        Ok(found) => found,
        Err(fault) => return Err(fault),
    };
    if index == 0 {
        return match read_string(alloc, rest) {
            Ok((name, behind)) => Ok((name, behind, 0)),
            Err(fault) => Err(fault),
        };
    }
    let Some(entry) = table.entry(index) else {
        return Err(HpackFault::BadIndex);
    };
    match entry.name(alloc) {
        Ok(name) => Ok((name, rest, index)),
        Err(_) => Err(HpackFault::NoMemory),
    }
}

/// Reads a literal, whose index has a prefix of so many bits, and gives the rest and the index.
#[inline(always)]
pub(crate) fn read_literal<'a>(
    alloc: Global,
    table: &DynamicTable,
    octets: &'a [u8],
    prefix: u32,
) -> Result<(Line, &'a [u8], u32), HpackFault>
    requires { prefix ≤ 8 }
    ensures ok { IfOk result (λ x. IsLiteral prefix table.now octets.now x.0 x.1.now) }
    ensures index { IfOk result (λ x. IsNameAt table.now x.2 x.0.name) }
    ensures err { IfErr result (λ e. OrNoMemory e (BreaksLiteral prefix table.now octets.now e)) }
    ensures shorter { IfOk result (λ x. length x.1.now < length octets.now) }
{
    let (name, behind, index) = match read_name(alloc, table, octets, prefix) {
        Ok(found) => found,
        Err(fault) => return Err(fault),
    };
    match read_string(alloc, behind) {
        Ok((value, rest)) => Ok((Line { name, value }, rest, index)),
        Err(fault) => Err(fault),
    }
}
