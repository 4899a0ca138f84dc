// What a summary tells of a tape.
use crate::pauses::PauseLog;
use crate::peaks::PeakLog;
use flow_notes::Notes;
use io_ports::NoMemory;
use std::alloc::Global;
use tape_laws::PlainLimits;

/// What a summary tells of the tape of a plain session, kept note by note.
#[derive(Drop)]
pub struct TapeLog {
    pub peaks: PeakLog,
    pub pauses: PauseLog,
}

impl TapeLog {
    ghost use Rattle.std.specs.Prelude.{[], OnOk};
    ghost use Rattle.tape_summary.specs.Logging.{TapeLogIs, TapeLogs};

    /// The log of an empty tape. Takes no memory.
    pub fn new(alloc: Global, limits: PlainLimits) -> Self
        ensures { TapeLogIs limits result [] }
    {
        TapeLog {
            peaks: PeakLog::new(alloc, limits),
            pauses: PauseLog::new(alloc),
        }
    }

    /// Takes up the notes that a tape goes on with. After running out of memory the log is unusable: drop it.
    pub fn note_all(&mut self, notes: &Notes) -> Result<(), NoMemory>
        ensures { OnOk result (TapeLogs self.old notes.now self.new) }
    {
        self.peaks.note_all(notes)?;
        self.pauses.note_all(notes)
    }
}
