// Writing a whole text.
ghost use Rattle.std.specs.Prelude.{◌≡◌, ◌≤◌, [], OnOk, OnErr};
ghost use Rattle.std.specs.Io.KnownBytes.{Appends};
ghost use Rattle.io_ports.specs.Faults.{Rose};
ghost use Rattle.session_run.specs.Ends.{AppendsFront};

use io_ports::{Failed, Octets, Sink};

/// Writes a text, or a front of it where the sink fails or takes nothing.
pub fn write_all<K: Sink>(out: &mut K, text: &[u8]) -> Result<(), Failed>
    ensures ok { OnOk result (Appends (K.contents out.old) (K.contents out.new) text.now) }
    ensures front { AppendsFront (K.contents out.old) (K.contents out.new) text.now }
    ensures cause { OnErr result (Rose (K.faults out.old) (K.faults out.new)) }
    ensures no_fall { K.faults out.old ≤ K.faults out.new }
{
    let mut rest = text;
    while !rest.is_empty() {
        let n = out.write(rest)?;
        // Nearly always all is taken at once.
        if n == rest.len() {
            return Ok(());
        }
        if n == 0 {
            return Err(Failed);
        }
        let (_, after) = rest.split_at(n);
        rest = after;
    }
    Ok(())
}

/// Writes a text and drops it.
pub fn flush<K: Sink>(text: &mut Octets, out: &mut K) -> Result<(), Failed>
    ensures ok { OnOk result (Appends (K.contents out.old) (K.contents out.new) text.old) }
    ensures empty { OnOk result (text.new ≡ []) }
    ensures front { AppendsFront (K.contents out.old) (K.contents out.new) text.old }
    ensures cause { OnErr result (Rose (K.faults out.old) (K.faults out.new)) }
    ensures no_fall { K.faults out.old ≤ K.faults out.new }
{
    write_all(out, text.as_slice())?;
    text.clear();
    Ok(())
}
