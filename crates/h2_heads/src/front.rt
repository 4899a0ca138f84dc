// What the fields of a list that stand in front of another say of it.
ghost use Rattle.std.specs.Prelude.{◌≡◌, List, Option, ℕ, [], false, not, None, Some, true};
ghost use Rattle.std.specs.List.{list_any};
ghost use Rattle.std.specs.Option.{option_copied};
ghost use Rattle.h2_heads.specs.Fronts.{has, placed, IsFront, Judges, Tells, TellsPseudo};
ghost use Rattle.h2_heads.specs.Pseudos.{field_of, needed_by, pseudo_of};
ghost use Rattle.h2_heads.specs.Rules.{is_bad_value, is_pseudo};
ghost use Rattle.h2_heads.specs.Told.{IsPlain};
ghost use Rattle.hpack_codec.specs.Told.{IsToldBy};
ghost use Rattle.hpack_codec.specs.declared.fields.Field.{Field};
ghost use Rattle.h2_heads.specs.declared.front.Front.{Front};
ghost use Rattle.h2_heads.specs.declared.malformed.Message.{Message};

use crate::malformed::{Kind, Message};
use crate::names::{fault_of_name, is_pseudo, is_sound_name, is_sound_regular};
use crate::pseudo::{Pseudo, is_bad_of, knows, pseudo_of};
use crate::rules::lowest_of_regular;
use crate::told::{Named, is_bad_told, name_told};
use hpack_codec::Field;

/// What a list's first fields, which break no rule, say of the next one: at which places
/// pseudo-fields stand among them, and whether a regular field does.
#[derive(Clone, Copy)]
pub struct Front {
    places: [Option<usize>; 5],
    regular: bool,
}

impl Front {
    /// That of no fields.
    pub fn new() -> Self
        ensures { IsFront result [] }
    {
        Front {
            places: [None; 5],
            regular: false,
        }
    }

    /// Takes the field at a place, the next one, of which so much is told, or answers the lowest rule that it breaks, where
    /// `length` is the value of the first content-length before it.
    pub fn take(
        &mut self,
        message: Message,
        length: Option<&[u8]>,
        place: usize,
        told: u8,
        name: &[u8],
        field: &Field,
    ) -> Option<Kind>
        requires name { name.now ≡ field.now.name }
        requires told { IsToldBy told field.now }
        ensures { Judges message self.old place (option_copied length.entry) field.now self.new result }
    {
        let value = field.value.as_slice();
        let bad_value = is_bad_told(told, value);
        match name_told(told) {
            Named::Pseudo(pseudo) => {
                self.take_pseudo(message, pseudo, place, value, bad_value, field)
            }
            Named::Plain => self.take_plain(bad_value),
            Named::Unknown => self.take_by_name(message, length, place, name, bad_value, field),
        }
    }

    // The same of a regular field whose name is sound and has no rule of its own.
    fn take_plain(&mut self, bad_value: bool) -> Option<Kind>
        ensures { (message : Message) (place : ℕ) (first : Option (List ℕ)) (field : Field) → IsPlain field → bad_value ≡ is_bad_value field.value
            → Judges message self.old place first field self.new result }
    {
        if bad_value {
            return Some(Kind::BadValue);
        }
        self.regular = true;
        None
    }

    // The same of a field that is told by its name.
    fn take_by_name(
        &mut self,
        message: Message,
        length: Option<&[u8]>,
        place: usize,
        name: &[u8],
        bad_value: bool,
        field: &Field,
    ) -> Option<Kind>
        requires name { name.now ≡ field.now.name }
        requires value { bad_value ≡ is_bad_value field.now.value }
        ensures { Judges message self.old place (option_copied length.entry) field.now self.new result }
    {
        if !is_pseudo(name) {
            return self.take_regular(length, place, name, bad_value, field);
        }
        if let Some(pseudo) = pseudo_of(name) {
            let value = field.value.as_slice();
            return self.take_pseudo(message, pseudo, place, value, bad_value, field);
        }
        Some(self.fault_of_unknown(name, bad_value, field))
    }

    // The same of a regular field.
    fn take_regular(
        &mut self,
        length: Option<&[u8]>,
        place: usize,
        name: &[u8],
        bad_value: bool,
        field: &Field,
    ) -> Option<Kind>
        requires name { name.now ≡ field.now.name }
        requires value { bad_value ≡ is_bad_value field.now.value }
        requires regular { is_pseudo field.now ≡ false }
        ensures { (message : Message) → Judges message self.old place (option_copied length.entry) field.now self.new result }
    {
        if let Some(kind) = fault_of_regular(length, name, bad_value, field) {
            return Some(kind);
        }
        self.regular = true;
        None
    }

    // The same of a pseudo-field that some message knows.
    fn take_pseudo(
        &mut self,
        message: Message,
        pseudo: Pseudo,
        place: usize,
        value: &[u8],
        bad_value: bool,
        field: &Field,
    ) -> Option<Kind>
        requires name { pseudo_of field.now.name ≡ Some pseudo }
        requires text { value.now ≡ field.now.value }
        requires value { bad_value ≡ is_bad_value field.now.value }
        ensures { (first : Option (List ℕ)) → Judges message self.old place first field.now self.new result }
    {
        if bad_value {
            return Some(Kind::BadValue);
        }
        if let Some(kind) = self.fault_of_pseudo(message, pseudo, value) {
            return Some(kind);
        }
        self.places[pseudo.index()] = Some(place);
        None
    }

    // The lowest rule for pseudo-fields that this one breaks.
    fn fault_of_pseudo(&self, message: Message, pseudo: Pseudo, value: &[u8]) -> Option<Kind>
        ensures tells { TellsPseudo message self.now (field_of pseudo value.now) result }
        ensures fresh { result ≡ None → has self.now pseudo ≡ false }
    {
        if self.regular {
            return Some(Kind::LatePseudo);
        }
        if !knows(message, pseudo) {
            return Some(Kind::UnknownPseudo);
        }
        if self.has(pseudo) {
            return Some(Kind::Repeated);
        }
        if is_bad_of(pseudo, value) {
            return Some(Kind::BadPseudo);
        }
        None
    }

    // The lowest rule that a pseudo-field breaks that no message knows.
    fn fault_of_unknown(&self, name: &[u8], bad_value: bool, field: &Field) -> Kind
        requires name { name.now ≡ field.now.name }
        requires value { bad_value ≡ is_bad_value field.now.value }
        requires pseudo { is_pseudo field.now ≡ true }
        requires unknown { pseudo_of field.now.name ≡ None }
        ensures { (message : Message) (first : Option (List ℕ)) → Tells message self.now first field.now (Some result) }
    {
        if !is_sound_name(name) {
            return fault_of_name(name);
        }
        if bad_value {
            return Kind::BadValue;
        }
        if self.regular {
            return Kind::LatePseudo;
        }
        Kind::UnknownPseudo
    }

    fn has(&self, pseudo: Pseudo) -> bool
        ensures { result ≡ has self.now pseudo }
    {
        self.place_of(pseudo).is_some()
    }

    /// Where the pseudo-field stands.
    pub fn place_of(&self, pseudo: Pseudo) -> Option<usize>
        ensures { result ≡ placed self.now pseudo }
    {
        self.places[pseudo.index()]
    }

    /// Whether a pseudo-field is missing that the message must have.
    pub fn lacks(&self, message: Message) -> bool
        ensures { result ≡ list_any (λ pseudo. not (has self.now pseudo)) (needed_by message) }
    {
        match message {
            Message::Request => {
                !self.has(Pseudo::Method) || !self.has(Pseudo::Scheme) || !self.has(Pseudo::Path)
            }
            Message::Connect => !self.has(Pseudo::Method) || !self.has(Pseudo::Authority),
            Message::Response => !self.has(Pseudo::Status),
            Message::Trailers => false,
        }
    }
}

// The lowest rule that a regular field breaks.
fn fault_of_regular(
    length: Option<&[u8]>,
    name: &[u8],
    bad_value: bool,
    field: &Field,
) -> Option<Kind>
    requires name { name.now ≡ field.now.name }
    requires value { bad_value ≡ is_bad_value field.now.value }
    requires regular { is_pseudo field.now ≡ false }
    ensures { (message : Message) (front : Front) → Tells message front (option_copied length.entry) field.now result }
{
    if !is_sound_regular(name) {
        return Some(fault_of_name(name));
    }
    if bad_value {
        return Some(Kind::BadValue);
    }
    lowest_of_regular(length, name, field)
}
