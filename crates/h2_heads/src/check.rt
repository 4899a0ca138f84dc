// The check of a whole list.
ghost use Rattle.std.specs.Prelude.{◌≡◌, ◌^◌, ◌<◌, codes, is_err, length, IfErr, IfOk, IfSome, OnOk};
ghost use Rattle.h2_heads.specs.Heads.{length_of};
ghost use Rattle.h2_heads.specs.Named.{place_of};
ghost use Rattle.h2_heads.specs.Malformed.{fault_at, is_malformed, IsFirst, IsSound};

use crate::front::Front;
use crate::lengths::first_length;
use crate::malformed::{Kind, Malformed, Message};
use crate::pseudo::Pseudo;
use crate::values::length_named;
use hpack_codec::{Field, FieldList};

/// What a sound list says: at which places its `:authority` and its `:path` stand, and the
/// content-length that it names.
#[derive(Clone, Copy)]
pub struct Said {
    pub authority: Option<usize>,
    pub path: Option<usize>,
    pub content_length: Option<u64>,
}

/// Goes once through the fields of a list, and stops at the first that breaks a rule.
pub fn check(message: Message, list: &FieldList, fields: &[Field]) -> Result<Said, Malformed>
    requires few { length fields.now < 2 ^ 32 }
    requires same { fields.now ≡ list.now }
    ensures sound { OnOk result (IsSound (fault_at message fields.now)) }
    ensures authority { IfOk result (λ said. said.authority ≡ place_of (codes ":authority") fields.now) }
    ensures path { IfOk result (λ said. said.path ≡ place_of (codes ":path") fields.now) }
    ensures length { IfOk result (λ said. said.content_length ≡ length_of fields.now) }
    ensures short { IfOk result (λ said. IfSome said.content_length (λ length. length < 2 ^ 63)) }
    ensures fault { IfErr result (IsFirst (fault_at message fields.now)) }
    ensures malformed { is_err result ≡ is_malformed message fields.now }
{
    let mut front = Front::new();
    let mut length = None;
    for (place, field) in fields.iter().enumerate() {
        let name = field.name.as_slice();
        let told = list.told(place);
        if let Some(kind) = front.take(message, length, place, told, name, field) {
            return Err(Malformed::at(place, kind));
        }
        length = first_length(length, name, field);
    }
    if front.lacks(message) {
        return Err(Malformed::at(fields.len(), Kind::Missing));
    }
    Ok(Said {
        authority: front.place_of(Pseudo::Authority),
        path: front.place_of(Pseudo::Path),
        content_length: length_named(length),
    })
}
