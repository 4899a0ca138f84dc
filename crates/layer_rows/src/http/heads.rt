// Lists of fields, checked.
ghost use Rattle.std.specs.Prelude.{◌<◌, ◌^◌, length, IfSome};

use crate::http::field_words::{list_of, say_fields};
use crate::http::words::number;
use crate::said::Said;
use h2_heads::{
    Malformed, RequestHead, check_request, check_response, check_trailers, content_length,
    status_fields,
};
use hpack_codec::FieldList;

// A list that is short enough for the checks.
fn checked_of(said: &mut Said, words: &str) -> Option<FieldList>
    ensures { IfSome result (λ list. length list < 2 ^ 32) }
{
    let list = list_of(said, words);
    if list.len() > u32::MAX as usize {
        drop(list);
        said.lack();
        return None;
    }
    Some(list)
}

fn say_malformed(said: &mut Said, bad: Malformed) {
    said.say_small("  malformed at ", bad.place);
    said.say_small(", rule ", u32::from(bad.kind));
    said.say("\n");
}

// The content-length that a list names, or its fault.
fn say_named(said: &mut Said, answer: Result<Option<u64>, Malformed>) {
    match answer {
        Ok(named) => {
            said.say_maybe("  content-length ", named);
            said.say("\n");
        }
        Err(bad) => say_malformed(said, bad),
    }
}

/// Checks a list as the head of a request.
pub fn say_request(said: &mut Said, words: &str) {
    let Some(list) = checked_of(said, words) else {
        return;
    };
    match check_request(&list) {
        Ok(head) => say_head(said, &head),
        Err(bad) => say_malformed(said, bad),
    }
    drop(list);
}

fn say_head(said: &mut Said, head: &RequestHead) {
    said.say_truth("  connect ", head.connect);
    said.say_truth(", head ", head.head);
    said.say_maybe(", authority ", head.authority.map(u64::from));
    said.say_maybe(", path ", head.path.map(u64::from));
    said.say_maybe(", content-length ", head.content_length);
    said.say("\n");
}

fn say_checked(said: &mut Said, list: &FieldList)
    requires { length list.now < 2 ^ 32 }
{
    match check_response(list) {
        Ok(head) => {
            said.say_small("  status ", u32::from(head.status));
            said.say_maybe(", content-length ", head.content_length);
            said.say("\n");
        }
        Err(bad) => say_malformed(said, bad),
    }
}

/// Checks a list as the head of a response.
pub fn say_response(said: &mut Said, words: &str) {
    let Some(list) = checked_of(said, words) else {
        return;
    };
    say_checked(said, &list);
    drop(list);
}

/// Checks a list as trailers, and says the content-length of sound ones.
pub fn say_trailers(said: &mut Said, words: &str) {
    let Some(list) = checked_of(said, words) else {
        return;
    };
    match check_trailers(&list) {
        Ok(()) => say_named(said, content_length(&list)),
        Err(bad) => say_malformed(said, bad),
    }
    drop(list);
}

/// Checks the content-length of a list alone.
pub fn say_length(said: &mut Said, words: &str) {
    let Some(list) = checked_of(said, words) else {
        return;
    };
    say_named(said, content_length(&list));
    drop(list);
}

/// Makes the list of a local reply, and checks it as the head of a response.
pub fn say_reply(said: &mut Said, words: &str) {
    let status = (number(words) % 65_536) as u16;
    let Ok(list) = status_fields(said.alloc(), status) else {
        said.lack();
        return;
    };
    said.say(" ");
    say_fields(said, &list);
    said.say("\n");
    if list.len() > u32::MAX as usize {
        said.lack();
    } else {
        say_checked(said, &list);
    }
    drop(list);
}
