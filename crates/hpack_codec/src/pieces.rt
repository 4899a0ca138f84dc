// Representations of a block, form by form.
ghost use Rattle.std.specs.Prelude.{◌<◌, ℕ, length, IfOk, IfErr, slice_index};
ghost use Rattle.hpack_codec.specs.Collecting.{Advances, Stops};
ghost use Rattle.hpack_codec.specs.Faults.{OrNoMemory};
ghost use Rattle.hpack_codec.specs.Sections.{form_of, literal_form};

use crate::collected::Collected;
use crate::fault::HpackFault;
use crate::fields::Field;
use crate::form::Form;
use crate::integers::read_integer;
use crate::line::Entry;
use crate::literals::read_literal;
use crate::table::DynamicTable;
use crate::told::{told_name, told_whole};

/// Reads a field that is an entry of the tables.
#[inline(always)]
fn read_indexed<'a>(
    table: &DynamicTable,
    octets: &'a [u8],
    list: &mut Collected,
) -> Result<&'a [u8], HpackFault>
    ensures ok { IfOk result (λ rest. (greatest : ℕ) →
        Advances Form.Indexed greatest table.now list.old octets.now table.now list.new rest.now) }
    ensures err { IfErr result (λ e. OrNoMemory e ((greatest : ℕ) → Stops Form.Indexed greatest table.now list.old octets.now e)) }
    ensures shorter { IfOk result (λ rest. length rest.now < length octets.now) }
{
    let (index, rest) = match read_integer(octets, 7) {
        Ok(found) => found,
        Err(fault) => return Err(fault),
    };
    let Some(entry) = table.entry(index) else {
        return Err(HpackFault::BadIndex);
    };
    match list.push_entry(entry, told_whole(index)) {
        Ok(()) => Ok(rest),
        Err(_) => Err(HpackFault::NoMemory),
    }
}

/// Reads a literal, whose field becomes the newest entry of the dynamic table.
fn read_inserted<'a>(
    table: &mut DynamicTable,
    octets: &'a [u8],
    list: &mut Collected,
) -> Result<&'a [u8], HpackFault>
    ensures ok { IfOk result (λ rest. (greatest : ℕ) →
        Advances Form.WithIndexing greatest table.old list.old octets.now table.new list.new rest.now) }
    ensures err { IfErr result (λ e. OrNoMemory e ((greatest : ℕ) → Stops Form.WithIndexing greatest table.old list.old octets.now e)) }
    ensures shorter { IfOk result (λ rest. length rest.now < length octets.now) }
{
    let (line, rest, _) = match read_literal(list.alloc, table, octets, 6) {
        Ok(found) => found,
        Err(fault) => return Err(fault),
    };
    let Ok(line) = line.shared() else {
        return Err(HpackFault::NoMemory);
    };
    let Ok(()) = list.push_entry(Entry::Added(&line), 0) else {
        return Err(HpackFault::NoMemory);
    };
    match table.insert(line) {
        Ok(()) => Ok(rest),
        Err(_) => Err(HpackFault::NoMemory),
    }
}

/// Reads a literal that changes no table.
#[inline(always)]
fn read_unindexed<'a>(
    table: &DynamicTable,
    octets: &'a [u8],
    never: bool,
    list: &mut Collected,
) -> Result<&'a [u8], HpackFault>
    ensures ok { IfOk result (λ rest. (greatest : ℕ) →
        Advances (literal_form never) greatest table.now list.old octets.now table.now list.new rest.now) }
    ensures err { IfErr result (λ e. OrNoMemory e ((greatest : ℕ) →
        Stops (literal_form never) greatest table.now list.old octets.now e)) }
    ensures shorter { IfOk result (λ rest. length rest.now < length octets.now) }
{
    let (line, rest, index) = match read_literal(list.alloc, table, octets, 4) {
        Ok(found) => found,
        Err(fault) => return Err(fault),
    };
    let told = told_name(index, line.value.as_slice());
    let field = Field {
        name: line.name,
        value: line.value,
        never,
    };
    match list.push(field, told) {
        Ok(()) => Ok(rest),
        Err(_) => Err(HpackFault::NoMemory),
    }
}

/// Reads a size update.
fn read_update<'a>(
    table: &mut DynamicTable,
    greatest: u32,
    octets: &'a [u8],
    list: &Collected,
) -> Result<&'a [u8], HpackFault>
    ensures ok { IfOk result (λ rest.
        Advances Form.SizeUpdate greatest table.old list.now octets.now table.new list.now rest.now) }
    ensures err { IfErr result (λ e. Stops Form.SizeUpdate greatest table.old list.now octets.now e) }
    ensures shorter { IfOk result (λ rest. length rest.now < length octets.now) }
{
    let (size, rest) = match read_integer(octets, 5) {
        Ok(found) => found,
        Err(fault) => return Err(fault),
    };
    if size > greatest || !list.is_empty() {
        return Err(HpackFault::BadUpdate);
    }
    table.resize(size);
    Ok(rest)
}

/// Reads the representation at the front of the octets, and gives the rest.
#[inline(always)]
pub(crate) fn read_piece<'a>(
    table: &mut DynamicTable,
    greatest: u32,
    octets: &'a [u8],
    list: &mut Collected,
) -> Result<&'a [u8], HpackFault>
    requires { 0 < length octets.now }
    ensures ok { IfOk result (λ rest. Advances (form_of (slice_index octets.now 0)) greatest
        table.old list.old octets.now table.new list.new rest.now) }
    ensures err { IfErr result (λ e. OrNoMemory e (Stops (form_of (slice_index octets.now 0)) greatest
        table.old list.old octets.now e)) }
    ensures shorter { IfOk result (λ rest. length rest.now < length octets.now) }
{
    match Form::begun_by(octets[0]) {
        Form::Indexed => read_indexed(table, octets, list),
        Form::WithIndexing => read_inserted(table, octets, list),
        Form::SizeUpdate => read_update(table, greatest, octets, list),
        Form::NeverIndexed => read_unindexed(table, octets, true, list),
        Form::WithoutIndexing => read_unindexed(table, octets, false, list),
    }
}
