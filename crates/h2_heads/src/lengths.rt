// The content-length of a list.
ghost use Rattle.std.specs.Prelude.{◌≡◌, ◌^◌, ◌<◌, None, Some, codes, if◌then◌else◌, is_some, length, IfErr, IfOk, OnOk};
ghost use Rattle.std.specs.Option.{option_copied, option_or};
ghost use Rattle.h2_heads.specs.Heads.{length_of};
ghost use Rattle.h2_heads.specs.Malformed.{length_fault_at, IsFirst, IsSound};
ghost use Rattle.h2_heads.specs.Named.{has_field, is_named};

use crate::malformed::{Kind, Malformed};
use crate::octets::is_text;
use crate::rules::is_bad_length;
use crate::values::length_in;
use hpack_codec::{Field, FieldList};

/// The content-length that a list names, below 2^63 (RFC 9110 section 8.6), and None where it names none. Looks at no other
/// rule. The list has fewer than 2^32 fields. Refused at the first content-length that is no such number, or differs from the
/// first one. Takes no memory.
pub fn content_length(fields: &FieldList) -> Result<Option<u64>, Malformed>
    requires { length fields.now < 2 ^ 32 }
    ensures sound { OnOk result (IsSound (length_fault_at fields.now)) }
    ensures length { IfOk result (λ named. named ≡ length_of fields.now) }
    ensures none { IfOk result (λ named. is_some named ≡ has_field (codes "content-length") fields.now) }
    ensures fault { IfErr result (IsFirst (length_fault_at fields.now)) }
{
    let list = fields.as_slice();
    let mut length = None;
    for (place, field) in list.iter().enumerate() {
        if is_bad_length(length, field) {
            return Err(Malformed::at(place, Kind::BadLength));
        }
        length = first_length(length, field.name.as_slice(), field);
    }
    Ok(length.and_then(length_in))
}

/// The value of the first content-length, where one more field follows.
pub fn first_length<'a>(length: Option<&'a [u8]>, name: &[u8], field: &'a Field) -> Option<&'a [u8]>
    requires { name.now ≡ field.now.name }
    ensures { option_copied result
        ≡ option_or (option_copied length.entry)
        (if is_named (codes "content-length") field.now then Some field.now.value else None) }
{
    if is_text(name, b"content-length") && length.is_none() {
        return Some(field.value.as_slice());
    }
    length
}
