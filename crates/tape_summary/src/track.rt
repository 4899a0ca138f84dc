// The pauses and resumes of one flow and buffer that have no partner yet.
ghost use Rattle.std.specs.Prelude.{◌≡◌, [], IfOk};

use io_ports::NoMemory;
use std::alloc::Global;

/// The pauses of a flow and a buffer that have no resume yet, by their places among all pauses, and the dispatches of
/// the resumes that came before their pause. One of both is empty.
#[derive(Drop)]
pub struct Track {
    waiting: Vec<usize>,
    early: Vec<u64>,
}

impl Track {
    ghost use Rattle.std.specs.Prelude.{◌≡◌, [], Some, IfOk};
    ghost use Rattle.tape_summary.specs.Tracking.{PausesTrack, ResumesTrack, track_of};

    /// Before the first pause. Takes no memory.
    pub fn new(alloc: Global) -> Self
        ensures waiting { result.waiting.items ≡ [] }
        ensures early { result.early.items ≡ [] }
    {
        Track {
            waiting: Vec::new(alloc),
            early: Vec::new(alloc),
        }
    }

    /// A pause comes, at this place. Answers the dispatch of its resume where that came before it.
    pub fn pause(&mut self, place: usize) -> Result<Option<u64>, NoMemory>
        ensures { IfOk result (λ until. PausesTrack (track_of (Some self.old)) place (track_of (Some self.new)) until) }
    {
        if self.early.is_empty() {
            self.waiting.push(place)?;
            return Ok(None);
        }
        Ok(Some(self.early.remove(0)))
    }

    /// A resume comes, in this dispatch. Answers the place of its pause where that came before it.
    pub fn resume(&mut self, turn: u64) -> Result<Option<usize>, NoMemory>
        ensures { IfOk result (λ place. ResumesTrack (track_of (Some self.old)) turn (track_of (Some self.new)) place) }
    {
        if self.waiting.is_empty() {
            self.early.push(turn)?;
            return Ok(None);
        }
        Ok(Some(self.waiting.remove(0)))
    }
}
