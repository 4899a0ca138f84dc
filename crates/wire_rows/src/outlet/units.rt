// Units that wait to be framed, in words.
ghost use Rattle.std.specs.Prelude.{IfSome};
ghost use Rattle.wire_outlet.specs.Waiting.{IsFrameable};

use crate::words::{next, small_number};
use std::alloc::{AllocError, Global};
use wire_outlet::{Control, Waiting};

/// `reply STREAM STATUS`, or a control unit. None where there is no such unit, or no memory for it.
pub fn waiting_unit(alloc: Global, words: &str) -> Option<Waiting>
    ensures { IfSome result IsFrameable }
{
    let (kind, words) = next(words);
    if kind != "reply" {
        return Some(Waiting::Answer(control_unit(alloc, kind, words)?));
    }
    let (stream, status) = next(words);
    let stream = small_number(stream);
    if stream == 0 || stream >= 0x8000_0000 {
        return None;
    }
    let status = (small_number(status) % 65_536) as u16;
    Some(Waiting::Reply { stream, status })
}

// `settings N=V ..`, `preface N=V ..`, `ack`, `ping HEX`, `reset STREAM CODE` or `goaway LAST CODE`.
fn control_unit(alloc: Global, kind: &str, words: &str) -> Option<Control> {
    let (first, second) = next(words);
    let (first, second) = (small_number(first), small_number(second));
    match kind {
        "settings" => settings_unit(alloc, words),
        "preface" => preface_unit(alloc, words),
        "ping" => ping_unit(alloc, words),
        "reset" => reset_unit(alloc, first, second),
        "goaway" => goaway_unit(alloc, first, second),
        _ => Control::settings_ack(alloc).ok(),
    }
}

// The settings of words `N=V`.
fn settings_of(alloc: Global, words: &str) -> Result<Vec<(u16, u32)>, AllocError> {
    let mut settings = Vec::new(alloc);
    for word in words.split(' ') {
        let (id, value) = word.split_once('=').unwrap_or((word, "0"));
        settings.push(((small_number(id) % 65_536) as u16, small_number(value)))?;
    }
    Ok(settings)
}

fn settings_unit(alloc: Global, words: &str) -> Option<Control> {
    let settings = settings_of(alloc, words).ok()?;
    if settings.len() > 2_730 {
        return None;
    }
    Control::settings(alloc, settings.as_slice()).ok()
}

fn preface_unit(alloc: Global, words: &str) -> Option<Control> {
    let settings = settings_of(alloc, words).ok()?;
    if settings.len() > 2_730 {
        return None;
    }
    Control::preface_settings(alloc, settings.as_slice()).ok()
}

fn ping_unit(alloc: Global, words: &str) -> Option<Control> {
    let octets = hex::decode(alloc, words).ok()?;
    if octets.len() != 8 {
        return None;
    }
    Control::ping_ack(alloc, octets.as_slice()).ok()
}

fn reset_unit(alloc: Global, stream: u32, code: u32) -> Option<Control> {
    if stream == 0 || stream >= 0x8000_0000 {
        return None;
    }
    Control::rst_stream(alloc, stream, code).ok()
}

fn goaway_unit(alloc: Global, last: u32, code: u32) -> Option<Control> {
    if last >= 0x8000_0000 {
        return None;
    }
    Control::goaway(alloc, last, code).ok()
}
