// What an index of a block tells of a field.
ghost use Rattle.std.specs.Prelude.{◌≡◌, Some, false, true};
ghost use Rattle.hpack_codec.specs.Sections.{field_of};
ghost use Rattle.hpack_codec.specs.Table.{Table, entry_at};
ghost use Rattle.hpack_codec.specs.Told.{IsBareAt, IsNameAt, IsToldBy};
ghost use Rattle.hpack_codec.specs.declared.fields.Field.{Field};
ghost use Rattle.hpack_codec.specs.declared.line.Line.{Line};

use crate::static_table::STATIC_LEN;

/// What the index of a whole field tells of it.
#[inline(always)]
pub(crate) fn told_whole(index: u32) -> u8
    ensures { (t : Table) (l : Line) → entry_at t index ≡ Some l → IsToldBy result (field_of l false) }
{
    if index as usize <= STATIC_LEN {
        128 + index as u8
    } else {
        0
    }
}

/// What the index of its name tells of a field with this value, where the index is 0 for none.
#[inline(always)]
pub(crate) fn told_name(index: u32, value: &[u8]) -> u8
    ensures { (t : Table) (f : Field) → f.value ≡ value.now → IsNameAt t index f.name → IsToldBy result f }
{
    if is_bare(index) && !value.is_empty() {
        index as u8
    } else {
        0
    }
}

/// Whether the static table has a name without a value at the index. Of the few indexes that lie among others one is left out.
#[inline(always)]
fn is_bare(index: u32) -> bool
    ensures { result ≡ true → IsBareAt index }
{
    index == 1 || (17..=61).contains(&index)
}
