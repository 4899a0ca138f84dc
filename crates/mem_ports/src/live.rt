// The live connections, in the order of their numbers.
ghost use Rattle.std.specs.List.{list_any};
ghost use Rattle.std.specs.Prelude.{◌≡◌, ◌+◌, ◌++◌, ◌∷◌, [], OnErr, OnOk, false, if◌then◌else◌, length, nat_eq, suc, ℕ};
ghost use Rattle.mem_ports.specs.Memory.{AreBelow};
ghost use Rattle.worker_ports.specs.Wires.{without};

use io_ports::NoMemory;
use std::collections::BTreeSet;

/// Whether a connection is live.
pub(crate) fn has(live: &BTreeSet<u32>, conn: u32) -> bool
    ensures { result ≡ list_any (nat_eq conn) live.now.keys }
{
    live.contains(&conn)
}

/// A connection with a number above all is live from now on. After running out of memory nothing has changed.
pub(crate) fn insert(live: &mut BTreeSet<u32>, conn: u32) -> Result<(), NoMemory>
    requires { AreBelow conn live.old.keys }
    ensures ok { OnOk result (live.new.keys ≡ live.old.keys ++ conn ∷ []) }
    ensures len { OnOk result (length live.new.keys ≡ length live.old.keys + 1) }
    ensures below { OnOk result (AreBelow (suc conn) live.new.keys) }
    ensures err { OnErr result (live.new.keys ≡ live.old.keys) }
{
    live.insert(conn)?;
    Ok(())
}

/// A connection isn't live any more. The answer is whether it was.
pub(crate) fn remove(live: &mut BTreeSet<u32>, conn: u32) -> bool
    ensures was { result ≡ list_any (nat_eq conn) live.old.keys }
    ensures keys { live.new.keys ≡ without conn live.old.keys }
    ensures same { result ≡ false → live.new.keys ≡ live.old.keys }
    ensures len { length live.new.keys + (if result then 1 else 0) ≡ length live.old.keys }
    ensures below { (n : ℕ) → AreBelow n live.old.keys → AreBelow n live.new.keys }
{
    live.remove(&conn)
}
