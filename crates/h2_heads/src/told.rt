// What is known of fields by what their lists tell of them.
ghost use Rattle.std.specs.Prelude.{◌≡◌};
ghost use Rattle.h2_heads.specs.Rules.{is_bad_value};
ghost use Rattle.h2_heads.specs.Told.{IsNamed};
ghost use Rattle.hpack_codec.specs.Told.{IsToldBy};
ghost use Rattle.hpack_codec.specs.declared.fields.Field.{Field};

use crate::pseudo::Pseudo;
use crate::values::is_bad_value;

/// What the index of a name in the static table of field compression says of the name (RFC 7541 Appendix A).
#[derive(Clone, Copy, PartialEq, Eq)]
pub enum Named {
    /// It is that of a pseudo-field.
    Pseudo(Pseudo),
    /// It is that of a regular field, sound and without a rule of its own.
    Plain,
    /// The index is 0, or the name has a rule of its own.
    Unknown,
}

/// The indexes of the regular names that have rules of their own.
const CONTENT_LENGTH: u8 = 28;

const TRANSFER_ENCODING: u8 = 57;

/// What is told of the name of a field.
#[inline(always)]
pub fn name_told(told: u8) -> Named
    ensures { (field : Field) → IsToldBy told field → IsNamed result field }
{
    let index = told % 128;
    if index == CONTENT_LENGTH || index == TRANSFER_ENCODING {
        return Named::Unknown;
    }
    match index {
        1 => Named::Pseudo(Pseudo::Authority),
        2 | 3 => Named::Pseudo(Pseudo::Method),
        4 | 5 => Named::Pseudo(Pseudo::Path),
        6 | 7 => Named::Pseudo(Pseudo::Scheme),
        8..=14 => Named::Pseudo(Pseudo::Status),
        15..=61 => Named::Plain,
        _ => Named::Unknown,
    }
}

/// Whether the value of a field is bad: no value of the static table is.
#[inline(always)]
pub fn is_bad_told(told: u8, value: &[u8]) -> bool
    ensures { (field : Field) → IsToldBy told field → value.now ≡ field.value → result ≡ is_bad_value field.value }
{
    told <= 128 && is_bad_value(value)
}
