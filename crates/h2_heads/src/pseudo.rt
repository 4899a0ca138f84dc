// Pseudo-fields by their names.
ghost use Rattle.std.specs.Prelude.{◌≡◌, ◌<◌};
ghost use Rattle.std.specs.List.{list_any};
ghost use Rattle.std.specs.Str.{bytes_eq};
ghost use Rattle.h2_heads.specs.Pseudos.{field_of, index_of, name_of, pseudo_of};
ghost use Rattle.h2_heads.specs.Rules.{is_bad_pseudo, known};

use crate::malformed::Message;
use crate::octets::is_text;
use crate::values::status_in;

/// A pseudo-field that some message knows (RFC 9113 sections 8.3.1 and 8.3.2).
#[derive(Clone, Copy, Debug, PartialEq, Eq)]
pub enum Pseudo {
    Method,
    Scheme,
    Authority,
    Path,
    Status,
}

impl Pseudo {
    /// Its place in a row of all.
    pub fn index(self) -> usize
        ensures place { result ≡ index_of self }
        ensures within { result < 5 }
    {
        self as usize
    }
}

/// The pseudo-field of this name, told from the others by its length first.
pub fn pseudo_of(name: &[u8]) -> Option<Pseudo>
    ensures { result ≡ pseudo_of name.now }
{
    match name.len() {
        5 if is_text(name, b":path") => Some(Pseudo::Path),
        7 if is_text(name, b":method") => Some(Pseudo::Method),
        7 if is_text(name, b":scheme") => Some(Pseudo::Scheme),
        7 if is_text(name, b":status") => Some(Pseudo::Status),
        10 if is_text(name, b":authority") => Some(Pseudo::Authority),
        _ => None,
    }
}

/// Whether the message knows the pseudo-field.
pub fn knows(message: Message, pseudo: Pseudo) -> bool
    ensures { result ≡ list_any (bytes_eq (name_of pseudo)) (known message) }
{
    match message {
        Message::Request => !matches!(pseudo, Pseudo::Status),
        Message::Connect => matches!(pseudo, Pseudo::Method | Pseudo::Authority),
        Message::Response => matches!(pseudo, Pseudo::Status),
        Message::Trailers => false,
    }
}

/// Whether the value is none that the pseudo-field may have.
pub fn is_bad_of(pseudo: Pseudo, value: &[u8]) -> bool
    ensures { result ≡ is_bad_pseudo (field_of pseudo value.now) }
{
    match pseudo {
        Pseudo::Path => value.is_empty(),
        Pseudo::Status => status_in(value).is_none(),
        Pseudo::Method | Pseudo::Scheme | Pseudo::Authority => false,
    }
}
