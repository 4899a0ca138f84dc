// The last line or lines of what is written.
ghost use Rattle.std.specs.Fmt.{decimal};
ghost use Rattle.std.specs.Prelude.{◌≡◌, ◌++◌, OnOk, OnErr};
ghost use Rattle.flow_notes.specs.Extends.{Extends};
ghost use Rattle.flow_notes.specs.Line.{newline};

use crate::output::flush;
use crate::player::Player;
use crate::run::Run;
use crate::status::Status;
use io_ports::{Failed, NoMemory, Octets, Sink};
use itoa::Buffer;

// A line of words that ends with a number.
fn push_numbered(text: &mut Octets, words: &[u8], number: u32) -> Result<(), NoMemory>
    ensures ok { OnOk result (text.new ≡ text.old ++ (words.now ++ (decimal number ++ newline))) }
    ensures err { OnErr result (Extends text.old text.new) }
{
    let mut digits = Buffer::new();
    text.push_all(words)?;
    text.push_all(digits.format(number).as_bytes())?;
    text.push_all(b"\n")
}

impl<P: Player + Drop> Run<P> {
    ghost use Rattle.std.specs.Prelude.{◌≡◌, ◌≤◌, ◌⊎◌, OnOk, OnErr};
    ghost use Rattle.flow_notes.specs.Extends.{Extends};
    ghost use Rattle.io_ports.specs.Faults.{Rose};
    ghost use Rattle.session_run.specs.Kinds.{kind_of};
    ghost use Rattle.session_run.specs.Runs.{Adds, EndsText, Finishes};

    /// Ends the run: writes what isn't written yet, with the last line or lines of the status, and answers
    /// how the replay ends.
    pub fn finish<K: Sink>(mut self, status: Status, out: &mut K) -> Status
        ensures finishes { Finishes (kind_of P.stands P.refuses P.can_end P.sums) self status (K.contents out.old) (K.contents out.new) result }
        ensures cause { result ≡ Status.WriteFault → (status ≡ Status.WriteFault) ⊎ Rose (K.faults out.old) (K.faults out.new) }
        ensures same { (result ≡ status) ⊎ (result ≡ Status.Memory) ⊎ (result ≡ Status.WriteFault) }
        ensures out { K.faults out.old ≤ K.faults out.new }
    {
        match status {
            Status::WriteFault => status,
            _ => self.write_last(status, out),
        }
    }

    fn write_last<K: Sink>(&mut self, status: Status, out: &mut K) -> Status
        requires { status ≡ Status.WriteFault → ⊥ }
        ensures finishes { Finishes (kind_of P.stands P.refuses P.can_end P.sums) self.old status (K.contents out.old) (K.contents out.new) result }
        ensures cause { result ≡ Status.WriteFault → (status ≡ Status.WriteFault) ⊎ Rose (K.faults out.old) (K.faults out.new) }
        ensures same { (result ≡ status) ⊎ (result ≡ Status.Memory) ⊎ (result ≡ Status.WriteFault) }
        ensures out { K.faults out.old ≤ K.faults out.new }
    {
        let status = self.add_last(status);
        match flush(&mut self.text, out) {
            Ok(()) => status,
            Err(Failed) => Status::WriteFault,
        }
    }

    // Adds the last line or lines, or leaves the text as it was.
    fn add_last(&mut self, status: Status) -> Status
        ensures adds { Adds (kind_of P.stands P.refuses P.can_end P.sums) self.old self.new.text status result }
        ensures same { (result ≡ status) ⊎ (result ≡ Status.Memory) }
    {
        let whole = self.text.len();
        match self.last(status) {
            Ok(()) => status,
            Err(NoMemory) => {
                self.text.truncate(whole);
                Status::Memory
            }
        }
    }

    fn last(&mut self, status: Status) -> Result<(), NoMemory>
        ensures ok { OnOk result (EndsText (kind_of P.stands P.refuses P.can_end P.sums) self.old status self.new.text) }
        ensures err { OnErr result (Extends self.old.text self.new.text) }
    {
        match status {
            Status::Done => self.player.summarize(&mut self.text),
            Status::Session => push_numbered(&mut self.text, b"refused line ", self.number),
            Status::TooLong => self.text.push_all(b"refused length session\n"),
            _ => Ok(()),
        }
    }
}
