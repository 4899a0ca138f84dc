// Where a request goes.
ghost use Rattle.std.specs.Prelude.{◌≡◌, ◌<◌, ◌^◌, ℕ, Option, codes, false, length, IfSome};
ghost use Rattle.std.specs.Option.{ForSome, option_copied};
ghost use Rattle.h2_heads.specs.Heads.{is_malformed_request, request_head};
ghost use Rattle.h2_heads.specs.Named.{StandsAt};
ghost use Rattle.proxy_config.specs.Ranges.{IsInRange};
ghost use Rattle.wire_heads.specs.Requests.{decided, decision, declares_body, placed, routed_at, row_of, value_at, IsRouted};
ghost use Rattle.wire_heads.specs.declared.requests.Decision.TheVariants.{Refused};
ghost use Rattle.wire_heads.specs.declared.requests.Judged.TheVariants.{Decided};

use crate::lengths::Expected;
use h2_heads::{RequestHead, check_request};
use hpack_codec::{Field, FieldList};
use proxy_config::{Config, cluster_of, route};

/// A request that has a row of the route table.
#[derive(Clone, Copy, PartialEq, Eq)]
pub struct Routed {
    /// The row of the route table, from 0.
    pub row: u32,
    /// The number of the row's cluster, from 0 in the order of the list of clusters.
    pub cluster: u32,
    /// What the body of the request has to be.
    pub request: Expected,
    /// What the body of the response has to be, before its head came.
    pub response: Expected,
}

/// What the head of a request leads to.
#[derive(Clone, Copy, PartialEq, Eq)]
pub enum Decision {
    /// The request goes by its row on a connection of the row's cluster.
    Going { routed: Routed, conn: u32 },
    /// It is refused with a reply of this status. The row is there where one was found.
    Refused { status: u16, row: Option<u32> },
    /// Its stream ends with PROTOCOL_ERROR.
    Malformed,
    /// It ends as an overload: no requests are taken now.
    Overload,
}

/// What the head of a request leads to, as far as it can be said before a connection is chosen.
#[derive(Clone, Copy, PartialEq, Eq)]
pub enum Judged {
    /// No connection is needed.
    Decided(Decision),
    /// A connection of the row's cluster is to be chosen.
    Choose(Routed),
}

/// Judges the head of a request, which ends the stream where `last` says so. `fields` are none
/// where the list was longer than its limit; `stops` says that requests are refused for overload.
/// Together with [`place`] it goes in this order: a list that is too long is refused with 431;
/// then what is malformed; CONNECT is refused with 501; then overload; a request without a route
/// is refused with 404, one without a connection with 503. Takes no memory.
pub fn judge_request(config: &Config, fields: Option<&FieldList>, last: bool, stops: bool) -> Judged
    requires range { IsInRange config.now }
    requires few { ForSome (option_copied fields) (λ list. length list < 2 ^ 32) }
    ensures decision { (choose : ℕ → Option ℕ) →
        decided result choose ≡ decision config.now (option_copied fields.entry) last stops choose }
    ensures routed { IsRouted config.now result }
{
    match fields {
        Some(fields) => judge_fields(config, fields, last, stops),
        None => refused(431),
    }
}

fn judge_fields(config: &Config, fields: &FieldList, last: bool, stops: bool) -> Judged
    requires range { IsInRange config.now }
    requires few { length fields.now < 2 ^ 32 }
    ensures decision { (choose : ℕ → Option ℕ) →
        decided result choose ≡ decision config.now (Some fields.now) last stops choose }
    ensures routed { IsRouted config.now result }
{
    match check_request(fields) {
        Ok(head) => judge_head(config, fields.as_slice(), &head, last, stops),
        Err(_) => Judged::Decided(Decision::Malformed),
    }
}

fn judge_head(
    config: &Config,
    fields: &[Field],
    head: &RequestHead,
    last: bool,
    stops: bool,
) -> Judged
    requires range { IsInRange config.now }
    requires sound { is_malformed_request fields.now ≡ false }
    requires head { head.now ≡ request_head fields.now }
    requires authority { StandsAt (codes ":authority") fields.now head.now.authority }
    requires path { StandsAt (codes ":path") fields.now head.now.path }
    requires short { IfSome head.now.content_length (λ length. length < 2 ^ 63) }
    ensures decision { (choose : ℕ → Option ℕ) →
        decided result choose ≡ decision config.now (Some fields.now) last stops choose }
    ensures routed { IsRouted config.now result }
{
    if last && declares_body(head) {
        return Judged::Decided(Decision::Malformed);
    }
    if head.connect {
        return refused(501);
    }
    if stops {
        return Judged::Decided(Decision::Overload);
    }
    match find_row(config, fields, head) {
        Some(row) => Judged::Choose(routed_at(config, row, head)),
        None => refused(404),
    }
}

fn declares_body(head: &RequestHead) -> bool
    ensures { result ≡ declares_body head.now.content_length }
{
    head.content_length.is_some_and(|length| length > 0)
}

// A refusal for which no row was looked for, or none was found.
fn refused(status: u16) -> Judged
    ensures { result ≡ Decided (Refused status None) }
{
    Judged::Decided(Decision::Refused { status, row: None })
}

fn find_row(config: &Config, fields: &[Field], head: &RequestHead) -> Option<u32>
    requires authority { StandsAt (codes ":authority") fields.now head.now.authority }
    requires path { StandsAt (codes ":path") fields.now head.now.path }
    ensures row { result ≡ row_of config.now fields.now }
    ensures bound { IfSome result (λ row. row < length config.now.routes) }
{
    let path = value_at(fields, head.path)?;
    route(config, value_at(fields, head.authority), path)
}

// The value of the field at a place, where one is named.
fn value_at(fields: &[Field], place: Option<u32>) -> Option<&[u8]>
    requires { ForSome place (λ place. place < length fields.now) }
    ensures { option_copied result ≡ value_at fields.now place }
{
    match place {
        Some(place) => Some(fields[place as usize].value.as_slice()),
        None => None,
    }
}

fn routed_at(config: &Config, row: u32, head: &RequestHead) -> Routed
    requires range { IsInRange config.now }
    requires row { row < length config.now.routes }
    ensures routed { result ≡ routed_at config.now row head.now.content_length head.now.head }
    ensures cluster { result.cluster < length config.now.clusters }
{
    Routed {
        row,
        cluster: cluster_of(config, row),
        request: Expected::begun(head.content_length, false),
        response: Expected::begun(None, head.head),
    }
}

/// Decides where a request goes that has a row, by the connection that was chosen for it.
pub fn place(routed: Routed, chosen: Option<u32>) -> Decision
    ensures { result ≡ placed routed chosen }
{
    match chosen {
        Some(conn) => Decision::Going { routed, conn },
        None => Decision::Refused {
            status: 503,
            row: Some(routed.row),
        },
    }
}
