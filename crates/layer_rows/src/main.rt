//! Prints what layers give in each case of standard input. A part begins with a line `=== NAME`: `http` has cases of frames,
//! connections and windows of HTTP/2, of field blocks and lists of fields, `config` texts of configurations, `exchange` scripts
//! that are played on exchanges and chains. The head of a part, or of its module, says how a case is written.
#![tactic(auto)]

ghost use Rattle.std.specs.Prelude.{◌≡◌, ◌++◌, ◌<◌, length};

mod config;
mod exchange;
mod http;
mod said;

use std::io::Read;

fn main(rt: HostRuntime) -> anyhow::Result<()> {
    let mut octets = Vec::new(rt.alloc());
    rt.reader().read_to_end(&mut octets)?;
    show_parts(&rt, octets.as_slice())
}

fn show_parts(rt: &HostRuntime, octets: &[u8]) -> anyhow::Result<()> {
    let mut rest = octets;
    while !rest.is_empty() {
        let (part, others) = cut_before(rest, b"=== ");
        show_part(rt, part)?;
        rest = others;
    }
    Ok(())
}

// Prints the line that a part begins with, and what its cases give.
fn show_part(rt: &HostRuntime, part: &[u8]) -> anyhow::Result<()> {
    let (name, cases) = head_of(part);
    println!(rt; "{name}")?;
    match name {
        "=== http" => http::show_lines(rt, text_of(cases)),
        "=== config" => config::show_texts(rt, cases),
        "=== exchange" => exchange::play(rt, text_of(cases)),
        _ => {
            println!(rt; "no such part")?;
            Ok(())
        }
    }
}

// The first line of a part, and what stands behind it.
fn head_of(part: &[u8]) -> (&str, &[u8]) {
    let name = part.split(|octet| *octet == b'\n').next().unwrap_or(b"");
    let (_, cases) = part.split_at(name.len().saturating_add(1).min(part.len()));
    (text_of(name), cases)
}

fn text_of(octets: &[u8]) -> &str {
    std::str::from_utf8(octets).unwrap_or("not UTF-8")
}

/// The parts of the input, or the texts of a part: what stands before the next line that begins with a mark, and that line with all behind it. The first line isn't looked at.
pub fn cut_before<'a>(octets: &'a [u8], mark: &[u8]) -> (&'a [u8], &'a [u8])
    requires { 0 < length octets.now }
    ensures parts { result.0.now ++ result.1.now ≡ octets.now }
    ensures shorter { length result.1.now < length octets.now }
{
    for at in 1..octets.len() {
        if octets[at - 1] == b'\n' && octets[at..].starts_with(mark) {
            return octets.split_at(at);
        }
    }
    octets.split_at(octets.len())
}
