// Reading a configuration.
ghost use Rattle.std.specs.Prelude.{◌≡◌, ◌<◌, ◌≤◌, IfOk, length};
ghost use Rattle.proxy_config.specs.Ranges.{IsInRange};
ghost use Rattle.session_config.specs.Loading.{CausesFault, Loads, ReadsPiece, ReadsWhole};

use config_tables::{ConfigFault, read_config};
use io_ports::{Failed, NoMemory, Octets, Source};
use proxy_config::Config;
use std::alloc::Global;
use std::error::Error;
use std::fmt;

/// How many octets a configuration has at most.
const MOST: usize = 1_048_576;

/// How many octets are read at once.
const PIECE: usize = 65_536;

/// Why there is no configuration.
#[derive(Debug, Drop)]
pub enum ConfigEnd {
    /// The whole text is refused.
    Refused(ConfigFault),
    /// The source gives more than 1,048,576 octets.
    TooLong,
    /// The source failed.
    ReadFault,
    /// Out of memory.
    Memory,
}

impl fmt::Display for ConfigEnd {
    fn fmt<W: fmt::Write>(&self, f: &mut fmt::Formatter<W>) -> fmt::Result {
        match self {
            ConfigEnd::Refused(fault) => write!(f, "{fault}"),
            ConfigEnd::TooLong => f.write_str("the configuration has more than 1,048,576 octets"),
            ConfigEnd::ReadFault => f.write_str("the configuration can't be read"),
            ConfigEnd::Memory => f.write_str("out of memory"),
        }
    }
}

impl Error for ConfigEnd {}

/// Reads a source to its end, and the configuration that its octets spell. Refused with the first fault of the text
/// (`Refused`), beyond 1,048,576 octets (`TooLong`), where the source failed (`ReadFault`), and for lack of memory.
pub fn load_config<C: Source>(alloc: Global, source: &mut C) -> Result<Config, ConfigEnd>
    ensures loads { Loads (C.left source.old) (C.left source.new) result }
    ensures in_range { IfOk result IsInRange }
    ensures cause { CausesFault (C.faults source.old) (C.faults source.new) result }
    ensures no_fall { C.faults source.old ≤ C.faults source.new }
{
    let text = load_text(alloc, source)?;
    match read_config(alloc, text.as_slice()) {
        Ok(config) => Ok(config),
        Err(ConfigFault::NoMemory) => Err(ConfigEnd::Memory),
        Err(fault) => Err(ConfigEnd::Refused(fault)),
    }
}

/// Reads a source to its end, or until there are too many octets for a configuration. Those are more than 1,048,576
/// (`TooLong`); the other refusals are a source that failed (`ReadFault`) and lack of memory.
pub fn load_text<C: Source>(alloc: Global, source: &mut C) -> Result<Octets, ConfigEnd>
    ensures reads { ReadsWhole (C.left source.old) (C.left source.new) result }
    ensures cause { CausesFault (C.faults source.old) (C.faults source.new) result }
    ensures no_fall { C.faults source.old ≤ C.faults source.new }
{
    let Ok(mut piece) = new_piece(alloc) else {
        return Err(ConfigEnd::Memory);
    };
    let mut text = Octets::new(alloc);
    loop {
        if read_piece(source, &mut piece, &mut text)? == 0 {
            return Ok(text);
        }
        if text.len() > MOST {
            return Err(ConfigEnd::TooLong);
        }
    }
}

// Room for what is read at once.
fn new_piece(alloc: Global) -> Result<Vec<u8>, NoMemory>
    ensures { IfOk result (λ piece. 0 < length piece.items) }
{
    Ok(vec![in alloc; 0; PIECE]?)
}

// Reads once, and answers how many octets came.
fn read_piece<C: Source>(
    source: &mut C,
    piece: &mut [u8],
    text: &mut Octets,
) -> Result<usize, ConfigEnd>
    requires { 0 < length piece.old }
    ensures piece { length piece.new ≡ length piece.old }
    ensures reads { ReadsPiece (C.left source.old) (C.left source.new) text.old text.new result }
    ensures cause { CausesFault (C.faults source.old) (C.faults source.new) result }
    ensures no_fall { C.faults source.old ≤ C.faults source.new }
{
    match source.read(piece) {
        Ok(n) => match text.push_all(&piece[..n]) {
            Ok(()) => Ok(n),
            Err(NoMemory) => Err(ConfigEnd::Memory),
        },
        Err(Failed) => Err(ConfigEnd::ReadFault),
    }
}
