// The line that tells of a refused configuration.
ghost use Rattle.std.specs.Prelude.{◌≡◌, ◌++◌, OnErr, OnOk};
ghost use Rattle.flow_notes.specs.Extends.{Extends};
ghost use Rattle.session_config.specs.Refusals.{fault_number, key_text, refusal_line};

use crate::key::put_unknown;
use config_tables::ConfigFault;
use io_ports::{NoMemory, Octets};
use itoa::Buffer;

/// Appends `refused config N KEY` and a newline: the fault's number, 1 to 6 in the order of their kinds, and its key. Out
/// of memory, which refuses no configuration, has the number 7. Running out of memory here may leave some of the line.
pub fn put_refusal(fault: &ConfigFault, into: &mut Octets) -> Result<(), NoMemory>
    ensures ok { OnOk result (into.new ≡ into.old ++ refusal_line fault.now) }
    ensures err { OnErr result (Extends into.old into.new) }
{
    let mut digits = Buffer::new();
    into.push_all(b"refused config ")?;
    into.push_all(digits.format(number(fault)).as_bytes())?;
    into.push_all(b" ")?;
    put_key(fault, into)?;
    into.push_all(b"\n")
}

/// Appends the key of a fault; a dash where it has none. Running out of memory may leave some of it.
pub fn put_key(fault: &ConfigFault, into: &mut Octets) -> Result<(), NoMemory>
    ensures ok { OnOk result (into.new ≡ into.old ++ key_text fault.now) }
    ensures err { OnErr result (Extends into.old into.new) }
{
    match fault {
        ConfigFault::Missing(key) => into.push_all(key.as_slice()),
        ConfigFault::WrongKind(key) => into.push_all(key.as_slice()),
        ConfigFault::OutOfRange(key) => into.push_all(key.as_slice()),
        ConfigFault::Unknown(key) => put_unknown(into, key.as_slice()),
        ConfigFault::UnknownCluster(key) => into.push_all(key.as_slice()),
        ConfigFault::NotToml | ConfigFault::NoMemory => into.push_all(b"-"),
    }
}

// The number of a fault.
fn number(fault: &ConfigFault) -> u32
    ensures { result ≡ fault_number fault.now }
{
    match fault {
        ConfigFault::NotToml => 1,
        ConfigFault::Missing(_) => 2,
        ConfigFault::WrongKind(_) => 3,
        ConfigFault::OutOfRange(_) => 4,
        ConfigFault::Unknown(_) => 5,
        ConfigFault::UnknownCluster(_) => 6,
        ConfigFault::NoMemory => 7,
    }
}
