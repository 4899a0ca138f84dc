// The heads of requests and responses, and trailers.
ghost use Rattle.std.specs.Prelude.{◌≡◌, ◌^◌, ◌<◌, ◌≤◌, codes, false, if◌then◌else◌, is_err, length, IfErr, IfOk, IfSome, IsSome, IsTrue, OnOk};
ghost use Rattle.std.specs.Bool.{OnFalse};
ghost use Rattle.std.specs.Option.{SomeIff, option_copied, option_map_or};
ghost use Rattle.std.specs.Str.{bytes_eq};
ghost use Rattle.h2_heads.specs.Heads.{is_malformed_request, is_malformed_response, is_malformed_trailers, length_of, request_head, status_of};
ghost use Rattle.h2_heads.specs.Malformed.{fault_at, message_of_request, IsFirst, IsSound};
ghost use Rattle.h2_heads.specs.Named.{StandsAt, value_of};
ghost use Rattle.h2_heads.specs.Numbers.{decimal, is_status};
ghost use Rattle.h2_heads.specs.declared.malformed.Message.TheVariants.{Connect, Request, Response, Trailers};

use crate::check::check;
use crate::malformed::{Malformed, Message};
use crate::names::{first_method, value_of};
use crate::octets::is_text;
use crate::values::status_in;
use hpack_codec::{Field, FieldList};

/// What the head of a request says: whether its method is CONNECT or HEAD, at which places of the
/// list its `:authority` and `:path` stand, and the content-length that it names, below 2^63.
#[derive(Clone, Copy, Debug, PartialEq, Eq)]
pub struct RequestHead {
    pub connect: bool,
    pub head: bool,
    pub authority: Option<u32>,
    pub path: Option<u32>,
    pub content_length: Option<u64>,
}

/// What the head of a response says: its status, from 100 to 999, and the content-length that it
/// names, below 2^63.
#[derive(Clone, Copy, Debug, PartialEq, Eq)]
pub struct ResponseHead {
    pub status: u16,
    pub content_length: Option<u64>,
}

/// Checks the fields of a request's head (RFC 9113 section 8.3.1). The list has fewer than 2^32 fields. Refused exactly where a
/// field breaks a rule or a pseudo-field is missing: at the first such place, the list's end for a missing one, with the lowest
/// rule that is broken there. Takes no memory.
pub fn check_request(fields: &FieldList) -> Result<RequestHead, Malformed>
    requires { length fields.now < 2 ^ 32 }
    ensures sound { OnOk result (IsSound (fault_at (message_of_request fields.now) fields.now)) }
    ensures head { IfOk result (λ head. head ≡ request_head fields.now) }
    ensures authority { IfOk result (λ head. StandsAt (codes ":authority") fields.now head.authority) }
    ensures path { IfOk result (λ head. StandsAt (codes ":path") fields.now head.path) }
    ensures path_needed { IfOk result (λ head. OnFalse head.connect (IsSome head.path)) }
    ensures length { IfOk result (λ head. head.content_length ≡ length_of fields.now) }
    ensures short { IfOk result (λ head. IfSome head.content_length (λ length. length < 2 ^ 63)) }
    ensures fault { IfErr result (IsFirst (fault_at (message_of_request fields.now) fields.now)) }
    ensures malformed { is_err result ≡ is_malformed_request fields.now }
{
    let list = fields;
    let fields = list.as_slice();
    let method = first_method(fields);
    let connect = is_some(method, b"CONNECT");
    let said = check(message_of_request(connect), list, fields)?;
    Ok(RequestHead {
        connect,
        head: is_some(method, b"HEAD"),
        authority: short(said.authority),
        path: short(said.path),
        content_length: said.content_length,
    })
}

/// Checks the fields of a response's head (RFC 9113 section 8.3.2). A head with status 101 or another interim one is checked as
/// any other. Refused as by `check_request`. Takes no memory.
pub fn check_response(fields: &FieldList) -> Result<ResponseHead, Malformed>
    requires { length fields.now < 2 ^ 32 }
    ensures sound { OnOk result (IsSound (fault_at Response fields.now)) }
    ensures status { IfOk result (λ head. head.status ≡ status_of fields.now) }
    ensures range { IfOk result (λ head. (100 ≤ head.status) × (head.status ≤ 999)) }
    ensures length { IfOk result (λ head. head.content_length ≡ length_of fields.now) }
    ensures short { IfOk result (λ head. IfSome head.content_length (λ length. length < 2 ^ 63)) }
    ensures fault { IfErr result (IsFirst (fault_at Response fields.now)) }
    ensures malformed { is_err result ≡ is_malformed_response fields.now }
{
    let list = fields;
    let fields = list.as_slice();
    let said = check(Message::Response, list, fields)?;
    Ok(ResponseHead {
        status: named_status(fields).unwrap_or(0),
        content_length: said.content_length,
    })
}

/// Checks the fields of trailers (RFC 9113 section 8.1). Refused as by `check_request`. Takes no memory.
pub fn check_trailers(fields: &FieldList) -> Result<(), Malformed>
    requires { length fields.now < 2 ^ 32 }
    ensures sound { OnOk result (IsSound (fault_at Trailers fields.now)) }
    ensures fault { IfErr result (IsFirst (fault_at Trailers fields.now)) }
    ensures malformed { is_err result ≡ is_malformed_trailers fields.now }
{
    match check(Message::Trailers, fields, fields.as_slice()) {
        Ok(_) => Ok(()),
        Err(malformed) => Err(malformed),
    }
}

fn message_of_request(connect: bool) -> Message
    ensures { result ≡ (if connect then Connect else Request) }
{
    if connect {
        Message::Connect
    } else {
        Message::Request
    }
}

fn short(place: Option<usize>) -> Option<u32>
    requires { IfSome place (λ at. at < 2 ^ 32) }
    ensures { result ≡ place }
{
    place.map(|at| at as u32)
}

// Whether there is a value, and it is this one.
fn is_some<const N: usize>(value: Option<&[u8]>, known: &[u8; N]) -> bool
    ensures { result ≡ option_map_or (λ value. bytes_eq value known.now) (option_copied value.entry) false }
{
    match value {
        Some(value) => is_text(value, known),
        None => false,
    }
}

// The status that the list names in its form.
fn named_status(fields: &[Field]) -> Option<u16>
    ensures { IfSome (value_of (codes ":status") fields.now)
        (λ value. SomeIff result (IsTrue (is_status value)) (decimal value)) }
{
    match value_of(fields, b":status") {
        Some(value) => status_in(value),
        None => None,
    }
}
