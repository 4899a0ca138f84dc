// The static table.
ghost use Rattle.std.specs.Prelude.{◌≡◌, ◌<◌, ◌&&◌, [], Some, length, map, slice_get, slice_index_or};
ghost use Rattle.std.specs.Str.{bytes_eq};
ghost use Rattle.hpack_codec.specs.Table.{line, places_of, row_of, static_table};
ghost use Rattle.hpack_codec.specs.Encoding.{index_from, name_index};

use crate::line::Row;
use crate::words::is_same;

/// The names of the static table, in the order of their indexes, which begin with 1
/// (RFC 7541 Appendix A).
static NAMES: [&str; 61] = [
    ":authority",
    ":method",
    ":method",
    ":path",
    ":path",
    ":scheme",
    ":scheme",
    ":status",
    ":status",
    ":status",
    ":status",
    ":status",
    ":status",
    ":status",
    "accept-charset",
    "accept-encoding",
    "accept-language",
    "accept-ranges",
    "accept",
    "access-control-allow-origin",
    "age",
    "allow",
    "authorization",
    "cache-control",
    "content-disposition",
    "content-encoding",
    "content-language",
    "content-length",
    "content-location",
    "content-range",
    "content-type",
    "cookie",
    "date",
    "etag",
    "expect",
    "expires",
    "from",
    "host",
    "if-match",
    "if-modified-since",
    "if-none-match",
    "if-range",
    "if-unmodified-since",
    "last-modified",
    "link",
    "location",
    "max-forwards",
    "proxy-authenticate",
    "proxy-authorization",
    "range",
    "referer",
    "refresh",
    "retry-after",
    "server",
    "set-cookie",
    "strict-transport-security",
    "transfer-encoding",
    "user-agent",
    "vary",
    "via",
    "www-authenticate",
];

/// The values of the static table, in the same order.
static VALUES: [&str; 61] = [
    "",
    "GET",
    "POST",
    "/",
    "/index.html",
    "http",
    "https",
    "200",
    "204",
    "206",
    "304",
    "400",
    "404",
    "500",
    "",
    "gzip, deflate",
    "",
    "",
    "",
    "",
    "",
    "",
    "",
    "",
    "",
    "",
    "",
    "",
    "",
    "",
    "",
    "",
    "",
    "",
    "",
    "",
    "",
    "",
    "",
    "",
    "",
    "",
    "",
    "",
    "",
    "",
    "",
    "",
    "",
    "",
    "",
    "",
    "",
    "",
    "",
    "",
    "",
    "",
    "",
    "",
    "",
];

/// The places of the names of each row, in their order: a name is looked for among these alone.
static ROWS: [&[u8]; 64] = [
    &[49, 55],
    &[22, 51],
    &[20],
    &[3, 4],
    &[],
    &[],
    &[17],
    &[52],
    &[],
    &[],
    &[],
    &[50],
    &[7, 8, 9, 10, 11, 12, 13, 35],
    &[],
    &[],
    &[],
    &[],
    &[],
    &[21],
    &[47],
    &[],
    &[26, 60],
    &[],
    &[25],
    &[],
    &[30],
    &[27],
    &[54],
    &[],
    &[41],
    &[28],
    &[31],
    &[38],
    &[32],
    &[],
    &[33],
    &[],
    &[],
    &[14, 45],
    &[44, 46],
    &[],
    &[36],
    &[57],
    &[],
    &[53],
    &[],
    &[18, 34],
    &[0],
    &[37],
    &[],
    &[42],
    &[19],
    &[39],
    &[58],
    &[16, 56],
    &[43],
    &[15, 29],
    &[],
    &[],
    &[24, 40, 48],
    &[],
    &[1, 2],
    &[5, 6, 59],
    &[23],
];

/// How many entries the static table has.
pub(crate) const STATIC_LEN: usize = 61;

/// The text at a place.
fn text_at<'a>(texts: &[&'a str], place: usize) -> &'a str
    requires { place < length texts.now }
    ensures { result.now ≡ slice_index_or (map (λ t. t.now) texts.now) place [] }
{
    texts[place]
}

/// The entry at a place, counted from 0.
pub(crate) fn static_entry(place: usize) -> Row
    requires { place < 61 }
    ensures { slice_get static_table place ≡ Some (line result.name.now result.value.now) }
{
    let name = text_at(&NAMES, place);
    let value = text_at(&VALUES, place);
    Row {
        name: name.as_bytes(),
        value: value.as_bytes(),
    }
}

/// The row of a name, by its length and its last octet: few names of the table share one.
#[inline(always)]
fn row_of(name: &[u8]) -> usize
    ensures row { result ≡ row_of name.now }
    ensures few { result < 64 }
{
    let last = name.last().copied().unwrap_or(0);
    (name.len() % 64 * 31 + usize::from(last)) % 64
}

/// The places in a row.
fn row_at<'a>(rows: &[&'a [u8]], row: usize) -> &'a [u8]
    requires { row < length rows.now }
    ensures { result.now ≡ slice_index_or (map (λ row. row.now) rows.now) row [] }
{
    rows[row]
}

/// The places of the entries whose names are in the row of this one, in their order.
fn places_of(name: &[u8]) -> &'static [u8]
    ensures { result.now ≡ places_of (row_of name.now) }
{
    row_at(&ROWS, row_of(name))
}

/// What the static table has of a field.
#[derive(Clone, Copy)]
pub(crate) struct Found {
    /// The lowest index of an entry with its name.
    pub name: Option<u32>,
    /// The lowest index of an entry with its name and its value.
    pub whole: Option<u32>,
}

/// Looks for a field by its name and its value.
pub(crate) fn find(name: &[u8], value: &[u8]) -> Found
    ensures name { result.name ≡ name_index name.now }
    ensures whole { result.whole ≡ index_from 1 (λ l. bytes_eq l.name name.now && bytes_eq l.value value.now) static_table }
{
    let mut first = None;
    for place in places_of(name) {
        let entry = static_entry(usize::from(*place));
        if is_same(entry.name, name) {
            let index = u32::from(*place) + 1;
            first = first.or(Some(index));
            if is_same(entry.value, value) {
                return Found {
                    name: first,
                    whole: Some(index),
                };
            }
        }
    }
    Found {
        name: first,
        whole: None,
    }
}
