// What the head of a response comes to, and trailers.
ghost use Rattle.std.specs.Prelude.{◌≡◌, ◌<◌, ◌^◌, length};
ghost use Rattle.std.specs.Option.{ForSome, option_copied};
ghost use Rattle.wire_heads.specs.Responses.{are_trailers, awaited, is_bodiless, judged, response, IsShort};

use crate::lengths::Expected;
use h2_heads::{ResponseHead, check_response, check_trailers};
use hpack_codec::FieldList;

/// What the head of a response comes to.
#[derive(Clone, Copy, PartialEq, Eq)]
pub enum Response {
    /// An interim head, with status 100 or 102 to 199: another head follows.
    Interim,
    /// Its stream ends with PROTOCOL_ERROR.
    Malformed,
    /// The head of the response, with what its body has to be.
    Final { expected: Expected },
}

/// Judges the head of a response, which ends the stream where `last` says so. `fields` are none
/// where the list was longer than its limit; `expected` is what was said of the body before this
/// head. Malformed are a list that is too long, fields that break a rule, status 101, another
/// interim head that ends the stream, and a length that the stream's end doesn't meet. Takes no
/// memory.
pub fn judge_response(fields: Option<&FieldList>, last: bool, expected: &Expected) -> Response
    requires { ForSome (option_copied fields) (λ list. length list < 2 ^ 32) }
    ensures response { result ≡ response (option_copied fields.entry) last expected.now }
    ensures short { IsShort result }
{
    let Some(fields) = fields else {
        return Response::Malformed;
    };
    match check_response(fields) {
        Ok(head) => judge_checked(&head, last, expected),
        Err(_) => Response::Malformed,
    }
}

fn judge_checked(head: &ResponseHead, last: bool, expected: &Expected) -> Response
    ensures { result ≡ judged head.now.status head.now.content_length last expected.now }
{
    let expected = awaited(head, expected);
    match head.status {
        101 => Response::Malformed,
        100..=199 if last => Response::Malformed,
        100..=199 => Response::Interim,
        _ if last && !expected.fits(true) => Response::Malformed,
        _ => Response::Final { expected },
    }
}

// What the body of a response has to be, once its head came.
fn awaited(head: &ResponseHead, expected: &Expected) -> Expected
    ensures { result ≡ awaited head.now.status head.now.content_length expected.now }
{
    Expected {
        declared: head.content_length,
        body: expected.body,
        bodiless: expected.bodiless || is_bodiless(head.status),
    }
}

fn is_bodiless(status: u16) -> bool
    ensures { result ≡ is_bodiless status }
{
    status == 204 || status == 304
}

/// Whether trailers may end a body: their list is within its limit, its fields break no rule, and
/// the body is as long as its head said. Takes no memory.
pub fn judge_trailers(fields: Option<&FieldList>, expected: &Expected) -> bool
    requires { ForSome (option_copied fields) (λ list. length list < 2 ^ 32) }
    ensures { result ≡ are_trailers (option_copied fields.entry) expected.now }
{
    match fields {
        Some(fields) => check_trailers(fields).is_ok() && expected.fits(true),
        None => false,
    }
}
