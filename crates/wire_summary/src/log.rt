// What a summary tells of the tape of a wire session.
use crate::levels::{BufferLimits, Levels};
use flow_notes::Notes;
use io_ports::NoMemory;
use std::alloc::Global;
use tape_summary::PauseLog;

/// What a summary tells of the tape of a wire session, kept note by note.
#[derive(Drop)]
pub struct WireLog {
    pub levels: Levels,
    pub pauses: PauseLog,
}

impl WireLog {
    ghost use Rattle.std.specs.Prelude.{◌≡◌, [], None, OnOk, ℕ};
    ghost use Rattle.wire_summary.specs.Levels.{known_limits};
    ghost use Rattle.wire_summary.specs.Logging.{WireLogIs, WireLogPasses, WireLogs};

    /// The log of an empty tape. Takes no memory.
    pub fn new(alloc: Global, limits: BufferLimits) -> Self
        ensures log { WireLogIs limits result [] }
        ensures unsaid { (x : ℕ) → known_limits result.levels x ≡ None }
    {
        WireLog {
            levels: Levels::new(alloc, limits),
            pauses: PauseLog::new(alloc),
        }
    }

    /// An exchange passes stages with these limits, which has to be said before its first note; later it changes nothing. After
    /// running out of memory the log is to be let go.
    #[tactic(auto, using(crate::proofs::Logging::one_passes))]
    pub fn pass(
        &mut self,
        exchange: u64,
        request: Vec<u32>,
        response: Vec<u32>,
    ) -> Result<(), NoMemory>
        ensures { OnOk result (WireLogPasses exchange self.old (record { request = request.items; response = response.items }) self.new) }
    {
        self.levels.pass(exchange, request, response)
    }

    /// Takes up the notes that a tape goes on with. After running out of memory the log is to be let go.
    #[tactic(auto, using(crate::proofs::Logging::both_go))]
    pub fn note_all(&mut self, notes: &Notes) -> Result<(), NoMemory>
        ensures { OnOk result (WireLogs self.old notes.now self.new) }
    {
        self.levels.note_all(notes)?;
        self.pauses.note_all(notes)
    }
}
