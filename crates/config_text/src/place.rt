// Where a text is no TOML.
ghost use Rattle.std.specs.Prelude.{◌≡◌, true, IfSome, None};
ghost use Rattle.std.specs.Str.{is_utf8};
ghost use Rattle.toml.specs.Parse.{parse_document};

use std::alloc::Global;
use std::io::Eprint;

/// A place of a text: its line and its column, both from 1. A column counts characters.
#[derive(Clone, Copy, PartialEq, Eq)]
pub struct Place {
    pub line: usize,
    pub column: usize,
}

/// Where a text isn't UTF-8, or is no document that `toml` reads. None where it is both, and where memory ran out. That the
/// place is the right one is tested.
pub fn fault_place(alloc: Global, text: &[u8]) -> Option<Place>
    ensures { IfSome result (λ _. is_utf8 text.now ≡ true → parse_document text.now ≡ None) }
{
    match std::str::from_utf8(text) {
        Ok(words) => toml_place(alloc, words),
        Err(error) => Some(place_behind(front(text, error.valid_up_to()))),
    }
}

/// Tells in one line on standard error, behind the program's name, that a configuration is no TOML, and where, as far as that is
/// found. Where standard error is closed there is nobody to tell.
pub fn tell_no_toml<R: Eprint + AllocGlobal>(rt: &R, program: &str, text: &[u8]) {
    let _ = match fault_place(rt.alloc(), text) {
        Some(place) => eprintln!(rt;
            "{program}: configuration: line {}, column {}: no TOML document in UTF-8",
            place.line, place.column
        ),
        None => eprintln!(rt; "{program}: configuration: the text is no TOML document in UTF-8"),
    };
}

fn toml_place(alloc: Global, text: &str) -> Option<Place>
    ensures { IfSome result (λ _. parse_document text.now ≡ None) }
{
    match toml::table_from_str(alloc, text) {
        Ok(_) => None,
        Err(error) => {
            let span = error.span()?;
            Some(place_behind(front(text.as_bytes(), span.start)))
        }
    }
}

fn front(text: &[u8], n: usize) -> &[u8] {
    &text[..n.min(text.len())]
}

// The place behind a front of a text.
fn place_behind(front: &[u8]) -> Place {
    let mut line = 1_usize;
    let mut column = 1_usize;
    for octet in front {
        if *octet == b'\n' {
            line = line.saturating_add(1);
            column = 1;
        } else if *octet & 0xc0 != 0x80 {
            column = column.saturating_add(1);
        }
    }
    Place { line, column }
}
