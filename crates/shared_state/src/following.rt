// What a follower reads, learns and answers.
ghost use Rattle.std.specs.Prelude.{◌≡◌, ◌≤◌, ◌<◌, ◌^◌, ◌⊎◌, Some, length, take, vec_len, IfOk, IfSome, MatchOption, MatchResult, OnOk, OnErr};
ghost use Rattle.left_right.specs.Sides.{view};
ghost use Rattle.overload_core.specs.ActionStates.{actions_at};
ghost use Rattle.shared_state.specs.Entries.{StartsWith};
ghost use Rattle.shared_state.specs.Following.{seen, looks, IsSameEntry, IsSameFollower, later_of, IsOf, triggers_of, resources_of};
ghost use Rattle.shared_state.specs.Published.{IsLast, Shows};
ghost use Rattle.shared_state.specs.Version.{looked};

use crate::entries::Entry;
use crate::follower::{Follower, Snapshot};
use crate::one_list::{Eye, OneList, Seen, Sees};
use crate::publisher::Told;
use crate::version_word::{Board, Looks, VersionView};
use atomic_table::Seat;
use io_ports::{NoMemory, PressureList};
use left_right::reader::Reader;
use overload_core::action_states;
use std::alloc::Global;
use std::sync::Wait;
use std::thread;

// The entry that is shown, or the reader alone where the publisher has ended.
fn read(eye: Eye) -> Result<(Entry, Eye), Eye>
    ensures { MatchResult result
        (λ r. Shows (view eye.place) r.0 (view r.1.place))
        (λ r. view r.place ≡ view eye.place) }
{
    let reading = eye.enter_as::<Sees>()?;
    let entry = *reading.get();
    Ok((entry, reading.leave()))
}

// The version word at one load. It never falls.
fn look(board: &Board, seat: &mut Seat<(), VersionView>) -> u64
    requires { seat.old.table_id ≡ board.now.word.shared.table_id }
    ensures view { seat.new.me.0 ≡ looked seat.old.me.0 result }
    ensures rising { seat.old.me.0.found ≤ result }
    ensures table { seat.new.table_id ≡ seat.old.table_id }
{
    board.word.shared.load::<Looks>(seat, 0)
}

impl Follower {
    // One look at what is shown. None where the publisher has ended.
    fn glance(&mut self) -> Option<Entry>
        ensures seen { StartsWith (seen self.new) (seen self.old) }
        ensures last { IfSome result (λ e. IsLast e (seen self.new)) }
        ensures same { IsSameFollower self.old self.new × (self.new.kept ≡ self.old.kept) }
    {
        let Some(eye) = self.eye.take() else {
            unreachable!()
        };
        match read(eye) {
            Ok((entry, eye)) => {
                self.eye = Some(eye);
                Some(entry)
            }
            Err(eye) => {
                self.eye = Some(eye);
                None
            }
        }
    }

    // Looks until what is shown is no older than the version found and than what is kept, and keeps it. Where the
    // publisher has ended, what is kept serves, if it is no older than the version found.
    fn renew<R: Wait>(&mut self, rt: &R, found: u64)
        ensures found { found ≤ self.new.kept.version }
        ensures rising { self.old.kept.version ≤ self.new.kept.version }
        ensures published { IsLast self.new.kept (seen self.new) ⊎ (self.new.kept ≡ self.old.kept) }
        ensures seen { StartsWith (seen self.new) (seen self.old) }
        ensures same { IsSameFollower self.old self.new }
    {
        for _ in rt.forever() {
            if let Some(entry) = self.glance() {
                if found <= entry.version && self.kept.version <= entry.version {
                    self.kept = entry;
                    return;
                }
            } else if found <= self.kept.version {
                return;
            }
            thread::yield_now();
        }
        unreachable!()
    }

    // Memory for the pressures of a snapshot.
    fn room(&self, alloc: Global) -> Result<Vec<u32>, NoMemory>
        ensures { IfOk result (λ room. vec_len room ≡ resources_of self.now) }
    {
        let pressures = &self.kept.pressures[..self.board.resources];
        Ok(Vec::from_slice(alloc, pressures)?)
    }

    // What is kept, in memory that was taken before.
    fn snapshot(&self, mut room: Vec<u32>) -> Snapshot
        requires { vec_len room ≡ resources_of self.now }
        ensures is { (result.version ≡ self.now.kept.version) × (result.pressures ≡ take (resources_of self.now) self.now.kept.pressures) }
        ensures number { result.version < 2 ^ 63 }
        ensures len { length result.pressures ≡ resources_of self.now }
        ensures actions { result.actions ≡ actions_at (triggers_of self.now) result.pressures }
    {
        let pressures = &self.kept.pressures[..self.board.resources];
        room.as_mut_slice().copy_from_slice(pressures);
        let actions = action_states(&self.board.config, room.as_slice());
        Snapshot {
            version: self.kept.version,
            pressures: PressureList::from_vec(room),
            actions,
        }
    }

    /// What is published now. Its memory is taken first, so after `NoMemory` nothing has changed. Then it loads the version
    /// word, once, and reads what is shown until that is no older than the version found; the publisher shows a version
    /// before it raises the word, so the first reading does where publisher and follower are of one `make_shared`. It is
    /// never older than what this follower answered or learnt before. Where the publisher has ended, the newest entry that
    /// this follower read or learnt is answered, and where that is too old, the call doesn't return.
    pub fn current<R: Wait>(&mut self, rt: &R, alloc: Global) -> Result<Snapshot, NoMemory>
        ensures snapshot { IfOk result (λ s. (s.version ≡ self.new.kept.version) × (s.pressures ≡ take (resources_of self.old) self.new.kept.pressures)) }
        ensures number { IfOk result (λ s. s.version < 2 ^ 63) }
        ensures len { IfOk result (λ s. length s.pressures ≡ resources_of self.old) }
        ensures actions { IfOk result (λ s. s.actions ≡ actions_at (triggers_of self.old) s.pressures) }
        ensures published { OnOk result (IsLast self.new.kept (seen self.new) ⊎ IsSameEntry self.old.kept self.new.kept) }
        ensures rising { OnOk result (self.old.kept.version ≤ self.new.kept.version) }
        ensures look { OnOk result ((looks self.new ≡ looked (looks self.old) (looks self.new).found) × ((looks self.old).found ≤ (looks self.new).found)) }
        ensures fresh { IfOk result (λ s. (looks self.new).found ≤ s.version) }
        ensures seen { StartsWith (seen self.new) (seen self.old) }
        ensures same { (self.new.board ≡ self.old.board) × (self.new.seat.table_id ≡ self.old.seat.table_id) }
        ensures err { OnErr result (self.new ≡ self.old) }
    {
        let room = self.room(alloc)?;
        let found = look(&self.board, &mut self.seat);
        self.renew(rt, found);
        Ok(self.snapshot(room))
    }

    /// What is published now, where its version is above `than`; none exactly where it isn't. It loads the version word, once. Where
    /// what this follower keeps is no older than the number found and not above `than`, nothing is read and no memory is taken.
    /// Else it takes its memory, and goes on as `current` does. After `NoMemory` nothing but the look has changed.
    pub fn newer<R: Wait>(
        &mut self,
        rt: &R,
        alloc: Global,
        than: u64,
    ) -> Result<Option<Snapshot>, NoMemory>
        ensures newer { IfOk result (λ o. MatchOption o
            (self.new.kept.version ≤ than)
            (λ s. (than < s.version) × (s.version ≡ self.new.kept.version) × (s.pressures ≡ take (resources_of self.old) self.new.kept.pressures))) }
        ensures number { IfOk result (λ o. IfSome o (λ s. s.version < 2 ^ 63)) }
        ensures len { IfOk result (λ o. IfSome o (λ s. length s.pressures ≡ resources_of self.old)) }
        ensures actions { IfOk result (λ o. IfSome o (λ s. s.actions ≡ actions_at (triggers_of self.old) s.pressures)) }
        ensures published { IsLast self.new.kept (seen self.new) ⊎ IsSameEntry self.old.kept self.new.kept }
        ensures rising { self.old.kept.version ≤ self.new.kept.version }
        ensures look { (looks self.new ≡ looked (looks self.old) (looks self.new).found) × ((looks self.old).found ≤ (looks self.new).found) }
        ensures fresh { OnOk result ((looks self.new).found ≤ self.new.kept.version) }
        ensures seen { StartsWith (seen self.new) (seen self.old) }
        ensures same { (self.new.board ≡ self.old.board) × (self.new.seat.table_id ≡ self.old.seat.table_id) }
        ensures err { OnErr result ((self.new.kept ≡ self.old.kept) × (self.new.eye ≡ self.old.eye)) }
    {
        let found = look(&self.board, &mut self.seat);
        if found <= self.kept.version && self.kept.version <= than {
            return Ok(None);
        }
        let room = self.room(alloc)?;
        self.renew(rt, found);
        if self.kept.version <= than {
            return Ok(None);
        }
        Ok(Some(self.snapshot(room)))
    }

    /// Learns what the publisher told: from now on it answers nothing older. Takes no memory.
    pub fn learn(&mut self, told: Told)
        requires { IsOf told self.old }
        ensures kept { self.new.kept ≡ later_of self.old.kept told.entry }
        ensures same { IsSameFollower self.old self.new × (self.new.eye ≡ self.old.eye) }
    {
        if self.kept.version < told.entry.version {
            self.kept = told.entry;
        }
    }

    /// The seat at the version word. Its view has how often this follower looked, and what its last look found.
    pub fn seat(&self) -> &Seat<(), VersionView>
        ensures { result.now ≡ self.now.seat }
    {
        &self.seat
    }

    /// The reader of what is shown. Its view has the pressures of all versions from 1 on that it has seen, 16 of each.
    pub fn reader(&self) -> &Reader<Entry, Seen, OneList>
        ensures { self.now.eye ≡ Some result.now }
    {
        match &self.eye {
            Some(eye) => eye,
            None => unreachable!(),
        }
    }
}
