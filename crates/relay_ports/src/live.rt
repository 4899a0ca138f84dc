// The live connections, in the order of their numbers, each with whether it is held.
ghost use Rattle.std.specs.List.{AllByRecursion, list_any};
ghost use Rattle.std.specs.Prelude.{◌≡◌, ◌<◌, ◌≤◌, ◌+◌, ◌++◌, ◌∷◌, ◌&&◌, [], OnErr, OnOk, false, if◌then◌else◌, length, nat_eq, not, ℕ};
ghost use Rattle.relay_ports.specs.Memory.{AreMost, Rises, Tap, held_as, held_in, live_in, without_tap};

use io_ports::NoMemory;
use std::collections::BTreeMap;

/// Whether a connection is live.
pub(crate) fn has(taps: &BTreeMap<u32, bool>, conn: u32) -> bool
    ensures { result ≡ list_any (nat_eq conn) (live_in taps.now.entries) }
{
    taps.contains_key(&conn)
}

/// Whether a connection is held.
pub(crate) fn is_held(taps: &BTreeMap<u32, bool>, conn: u32) -> bool
    requires { Rises taps.now.entries }
    ensures { result ≡ list_any (nat_eq conn) (held_in taps.now.entries) }
{
    match taps.get(&conn) {
        Some(held) => *held,
        None => false,
    }
}

/// Whether a connection is live and isn't held.
pub(crate) fn is_free(taps: &BTreeMap<u32, bool>, conn: u32) -> bool
    requires { Rises taps.now.entries }
    ensures { result ≡ (list_any (nat_eq conn) (live_in taps.now.entries) && not (list_any (nat_eq conn) (held_in taps.now.entries))) }
{
    match taps.get(&conn) {
        Some(held) => !*held,
        None => false,
    }
}

/// A connection with a number above all is live from now on, and isn't held. After running out of memory nothing has changed.
pub(crate) fn insert(taps: &mut BTreeMap<u32, bool>, conn: u32) -> Result<(), NoMemory>
    requires rises { Rises taps.old.entries }
    requires above { AllByRecursion (λ (t : Tap). t.0 < conn) taps.old.entries }
    ensures ok { OnOk result (taps.new.entries ≡ taps.old.entries ++ (conn, false) ∷ []) }
    ensures len { OnOk result (length taps.new.entries ≡ length taps.old.entries + 1) }
    ensures rises { OnOk result (Rises taps.new.entries) }
    ensures below { OnOk result (AreMost conn taps.new.entries) }
    ensures err { OnErr result (taps.new.entries ≡ taps.old.entries) }
{
    taps.insert(conn, false)?;
    Ok(())
}

/// A connection isn't live any more. The answer is whether it was.
pub(crate) fn remove(taps: &mut BTreeMap<u32, bool>, conn: u32) -> bool
    requires { Rises taps.old.entries }
    ensures was { result ≡ list_any (nat_eq conn) (live_in taps.old.entries) }
    ensures taps { taps.new.entries ≡ without_tap conn taps.old.entries }
    ensures same { result ≡ false → taps.new.entries ≡ taps.old.entries }
    ensures len { length taps.new.entries + (if result then 1 else 0) ≤ length taps.old.entries }
    ensures rises { Rises taps.new.entries }
    ensures below { (n : ℕ) → AreMost n taps.old.entries → AreMost n taps.new.entries }
{
    taps.remove(&conn).is_some()
}

/// From now on a live connection is held, or isn't any more.
pub(crate) fn hold(taps: &mut BTreeMap<u32, bool>, conn: u32, held: bool)
    requires { Rises taps.old.entries }
    ensures taps { taps.new.entries ≡ held_as conn held taps.old.entries }
    ensures len { length taps.new.entries ≡ length taps.old.entries }
    ensures rises { Rises taps.new.entries }
    ensures below { (n : ℕ) → AreMost n taps.old.entries → AreMost n taps.new.entries }
{
    if let Some(at) = taps.get_mut(&conn) {
        *at = held;
    }
}
