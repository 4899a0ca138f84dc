// The client connection preface (RFC 9113 section 3.4).
ghost use Rattle.h2_session.specs.Preface.{Begins};

/// How some octets compare with the 24 of the preface.
#[derive(Clone, Copy, Debug, PartialEq, Eq)]
pub enum Prefaced {
    /// They are a proper front of it.
    Need,
    /// They begin with it.
    Done,
    /// Some octet differs.
    Bad,
}

const PREFACE: &[u8; 24] = b"PRI * HTTP/2.0\r\n\r\nSM\r\n\r\n";

/// How the octets that came first on a connection compare with the preface.
pub fn preface_of(input: &[u8]) -> Prefaced
    ensures { Begins input.now result }
{
    for (place, octet) in PREFACE.iter().enumerate() {
        if place >= input.len() {
            return Prefaced::Need;
        }
        if input[place] != *octet {
            return Prefaced::Bad;
        }
    }
    Prefaced::Done
}
