// Publishing and telling.
ghost use Rattle.std.specs.Prelude.{◌≡◌, ◌+◌, ◌++◌, ◌∷◌, [], drop, length, IfOk, MatchResult, OnOk, OnErr};
ghost use Rattle.left_right.specs.Sides.{view};
ghost use Rattle.shared_state.specs.Entries.{padded};
ghost use Rattle.shared_state.specs.Published.{IsLast};
ghost use Rattle.shared_state.specs.States.{published, counts, resources_of, IsToldBy, IsSame};
ghost use Rattle.shared_state.specs.Version.{raised};

use crate::entries::Entry;
use crate::one_list::{Press, Sees};
use crate::publisher::{Publisher, Told};
use crate::version_word::{Deals, Raises, VersionView};
use atomic_table::Seat;
use io_ports::NoMemory;
use std::sync::Wait;

// The greatest number of a version.
const MOST: u64 = (1 << 63) - 1;

// Shows one entry to all readers. After running out of memory they see what they saw.
fn show<R: Wait>(rt: &R, mut press: Press, entry: Entry) -> (Press, Result<(), NoMemory>)
    requires pending { drop press.behind press.log.items ≡ [] }
    requires last { IsLast press.desk.shown.value (view press.desk.place) }
    requires next { entry.version ≡ press.desk.shown.value.version + 1 }
    ensures pending { drop result.0.behind result.0.log.items ≡ [] }
    ensures last { IsLast result.0.desk.shown.value (view result.0.desk.place) }
    ensures known { MatchResult result.1
        (λ _. (result.0.desk.shown.value ≡ entry) × (view result.0.desk.place ≡ view press.desk.place ++ entry.pressures ∷ []))
        (λ _. (result.0.desk.shown.value ≡ press.desk.shown.value) × (view result.0.desk.place ≡ view press.desk.place)) }
{
    if let Err(_) = press.append(entry) {
        return (press, Err(NoMemory));
    }
    let (press, done) = press.publish_as::<Sees, R>(rt);
    match done {
        Ok(()) => (press, Ok(())),
        Err(_) => unreachable!(),
    }
}

impl Publisher {
    /// Publishes the next version, with one pressure for each resource, in parts per million: followers are shown it, and
    /// then the version word is raised. It waits for followers that still read what was shown before the last version.
    /// After `NoMemory` nothing has changed; so it is also where the last version is 2^63 - 1.
    pub fn publish<R: Wait>(&mut self, rt: &R, pressures: &[u32]) -> Result<Told, NoMemory>
        requires { length pressures.now ≡ resources_of self.old }
        ensures entry { IfOk result (λ told. (told.entry.version ≡ self.old.last.version + 1) × (told.entry.pressures ≡ padded pressures.now)) }
        ensures told { IfOk result (IsToldBy self.new) }
        ensures list { OnOk result (published self.new ≡ published self.old ++ padded pressures.now ∷ []) }
        ensures word { OnOk result (counts self.new ≡ raised (counts self.old)) }
        ensures err { OnErr result ((published self.new ≡ published self.old) × (self.new.last ≡ self.old.last) × (counts self.new ≡ counts self.old)) }
        ensures same { IsSame self.old self.new }
    {
        if self.last.version >= MOST {
            return Err(NoMemory);
        }
        let entry = Entry::of(self.last.version + 1, pressures);
        let Some(press) = self.press.take() else {
            unreachable!()
        };
        let (press, shown) = show(rt, press, entry);
        if let Some(other) = self.press.replace(press) {
            other.take(rt);
        }
        shown?;
        self.last = entry;
        self.board
            .word
            .shared
            .fetch_add::<Raises>(&mut self.seat, 0, 1);
        Ok(self.tell())
    }

    /// Tells of the last version once more. Version 0 has all pressures 0.
    pub fn tell(&mut self) -> Told
        ensures told { IsToldBy self.new result }
        ensures kept { (published self.new ≡ published self.old) × (self.new.last ≡ self.old.last) × (counts self.new ≡ counts self.old) }
        ensures same { IsSame self.old self.new }
    {
        let seat = self.board.word.shared.split_seat::<Deals>(&mut self.seat);
        Told {
            entry: self.last,
            seat,
        }
    }

    /// The seat at the version word. Its view has how often this publisher raised the word.
    pub fn seat(&self) -> &Seat<(), VersionView>
        ensures { result.now ≡ self.now.seat }
    {
        &self.seat
    }
}

impl Told {
    /// The number of the version, 0 for the opening one.
    pub fn version(&self) -> u64
        ensures { result ≡ self.now.entry.version }
    {
        self.entry.version
    }
}
