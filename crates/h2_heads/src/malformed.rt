// What is wrong with a list of fields.
ghost use Rattle.std.specs.Prelude.{◌≡◌, ◌<◌, ◌^◌};
ghost use Rattle.h2_heads.specs.Kinds.{number_of};

use std::error::Error;
use std::fmt;

/// Which rule is broken, with its number (RFC 9113 sections 8.2 and 8.3).
#[derive(Clone, Copy, Debug, PartialEq, Eq)]
pub enum Kind {
    /// A name that is empty or has an octet in upper case, below 0x21 or above 0x7e.
    BadName = 1,
    /// A colon in a name, past its first octet.
    InnerColon = 2,
    /// A value with a NUL, CR or LF, or with a space or tab at its start or end.
    BadValue = 3,
    /// A pseudo-field after a regular field.
    LatePseudo = 4,
    /// A pseudo-field that the message doesn't know.
    UnknownPseudo = 5,
    /// A pseudo-field for the second time.
    Repeated = 6,
    /// A field of HTTP/1.1's connections, or `te` with another value than `trailers`.
    Forbidden = 7,
    /// A pseudo-field that the message must have isn't there.
    Missing = 8,
    /// An empty `:path`, or a `:status` that isn't three digits from 100 to 999.
    BadPseudo = 9,
    /// A `content-length` that isn't a number below 2^63, or that differs from the first one.
    BadLength = 10,
}

impl Kind {
    /// The number of the rule.
    pub fn number(self) -> u8
        ensures { result ≡ number_of self }
    {
        self as u8
    }
}

/// The first field of a list that breaks a rule, and the number of the lowest rule that it breaks.
/// A pseudo-field that is missing has the list's length as its place.
#[derive(Clone, Copy, Debug, PartialEq, Eq)]
pub struct Malformed {
    pub place: u32,
    pub kind: u8,
}

impl fmt::Display for Malformed {
    fn fmt<W: fmt::Write>(&self, f: &mut fmt::Formatter<W>) -> fmt::Result {
        write!(f, "field {} breaks rule {}", self.place, self.kind)
    }
}

impl Error for Malformed {}

impl Malformed {
    /// The fault of this kind at this place.
    pub fn at(place: usize, kind: Kind) -> Self
        requires { place < 2 ^ 32 }
        ensures place { result.place ≡ place }
        ensures kind { result.kind ≡ number_of kind }
    {
        Malformed {
            place: place as u32,
            kind: kind.number(),
        }
    }
}

/// What a list of fields is of.
#[derive(Clone, Copy, Debug, PartialEq, Eq)]
pub enum Message {
    Request,
    Connect,
    Response,
    Trailers,
}
