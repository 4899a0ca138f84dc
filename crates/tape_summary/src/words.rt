// Words of a summary, written behind what stands in a text. Running out of memory may leave some of a word.
ghost use Rattle.std.specs.Prelude.{◌≡◌, ◌++◌, decimal, OnOk, OnErr};
ghost use Rattle.flow_notes.specs.Extends.{Extends};
ghost use Rattle.flow_notes.specs.Flow.{flow_word};

use flow_gate::FlowId;
use io_ports::{NoMemory, Octets};
use itoa::Buffer;

/// Appends a number in decimal. Running out of memory may leave some of it.
pub fn put_number(into: &mut Octets, n: u64) -> Result<(), NoMemory>
    ensures ok { OnOk result (into.new ≡ into.old ++ decimal n) }
    ensures err { OnErr result (Extends into.old into.new) }
{
    let mut digits = Buffer::new();
    into.push_all(digits.format(n).as_bytes())
}

/// Appends a text and a number. Running out of memory may leave some of them.
pub fn put_behind(into: &mut Octets, text: &[u8], n: u64) -> Result<(), NoMemory>
    ensures ok { OnOk result (into.new ≡ into.old ++ (text.now ++ decimal n)) }
    ensures err { OnErr result (Extends into.old into.new) }
{
    into.push_all(text)?;
    put_number(into, n)
}

/// Appends a flow: its exchange, and q for the request or r for the response. Running out of memory may leave some of it.
pub fn put_flow(into: &mut Octets, flow: FlowId) -> Result<(), NoMemory>
    ensures { OnOk result (into.new ≡ into.old ++ flow_word flow) }
{
    put_number(into, flow.exchange)?;
    into.push_all(if flow.back { b"r" } else { b"q" })
}
