// What a summary tells of a relay's tape.
use crate::write_log::WriteLog;
use flow_notes::Notes;
use io_ports::NoMemory;
use std::alloc::Global;
use tape_summary::PauseLog;

/// What a summary tells of the tape of a relay's session, kept note by note.
#[derive(Drop)]
pub struct RelayLog {
    pub writes: WriteLog,
    pub pauses: PauseLog,
}

impl RelayLog {
    ghost use Rattle.std.specs.Prelude.{[], OnOk};
    ghost use Rattle.relay_run.specs.Logs.{RelayLogIs, RelayLogs};

    /// The log of an empty tape. Takes no memory.
    pub fn new(alloc: Global, limit: u32) -> Self
        ensures { RelayLogIs limit result [] }
    {
        RelayLog {
            writes: WriteLog::new(alloc, limit),
            pauses: PauseLog::new(alloc),
        }
    }

    /// Takes up the notes that a tape goes on with. After running out of memory the log is unusable: drop it.
    pub fn note_all(&mut self, notes: &Notes) -> Result<(), NoMemory>
        ensures { OnOk result (RelayLogs self.old notes.now self.new) }
    {
        self.writes.note_all(notes)?;
        self.pauses.note_all(notes)
    }
}
