// Why a text is no configuration.
use io_ports::{NoMemory, Octets};
use std::error::Error;
use std::fmt;

/// Why a text is no configuration. A key is spelled with its table and, in a list of tables, the row's number from 0, as
/// `limits.quantum`, `routes.0.cluster` or `overload.triggers.3.value`.
#[derive(Debug, Drop)]
pub enum ConfigFault {
    /// The octets aren't UTF-8, or aren't a TOML document.
    NotToml,
    /// A key that must be there isn't.
    Missing(Octets),
    /// The key's value is of another kind.
    WrongKind(Octets),
    /// The key's value is beyond its range, or isn't of the form that is asked.
    OutOfRange(Octets),
    /// There is no such key.
    Unknown(Octets),
    /// The route's cluster isn't in the list of clusters.
    UnknownCluster(Octets),
    /// Out of memory.
    NoMemory,
}

impl From<NoMemory> for ConfigFault {
    ghost use Rattle.std.specs.Prelude.{◌≡◌};
    ghost use Rattle.config_tables.specs.declared.fault.ConfigFault.TheVariants as fault;

    ghost from_gives = { λ _ f. f ≡ fault.NoMemory };

    fn from(_: NoMemory) -> Self {
        ConfigFault::NoMemory
    }
}

impl fmt::Display for ConfigFault {
    fn fmt<W: fmt::Write>(&self, f: &mut fmt::Formatter<W>) -> fmt::Result {
        match self {
            ConfigFault::NotToml => f.write_str("the text is no TOML document in UTF-8"),
            ConfigFault::Missing(key) => write_key(f, key, "is missing"),
            ConfigFault::WrongKind(key) => write_key(f, key, "has a value of another kind"),
            ConfigFault::OutOfRange(key) => write_key(f, key, "is out of its range"),
            ConfigFault::Unknown(key) => write_key(f, key, "is no key of the configuration"),
            ConfigFault::UnknownCluster(key) => write_key(f, key, "names no cluster"),
            ConfigFault::NoMemory => f.write_str("out of memory"),
        }
    }
}

impl Error for ConfigFault {}

// A key is a part of a text in UTF-8.
fn write_key<W: fmt::Write>(f: &mut fmt::Formatter<W>, key: &Octets, what: &str) -> fmt::Result {
    f.write_str(std::str::from_utf8(key.as_slice()).unwrap_or("a key"))?;
    f.write_str(" ")?;
    f.write_str(what)
}
