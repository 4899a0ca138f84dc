// The pauses and resumes that have no partner yet, of each flow and buffer.
ghost use Rattle.std.specs.Prelude.{◌≡◌};

use crate::pauses::Spot;
use crate::track::Track;
use io_ports::NoMemory;
use std::alloc::Global;
use std::collections::BTreeMap;

/// The flows and buffers that were paused or resumed, in the order in which they first were, each with its track, and
/// the place of each.
#[derive(Drop)]
pub struct Tracks {
    alloc: Global,
    spots: Vec<Spot>,
    tracks: Vec<Track>,
    places: BTreeMap<Spot, usize>,
    /// The place behind the last one that was looked up. A row names the flows in the order of the row before it, so
    /// this place is tried first.
    next: usize,
}

impl Tracks {
    ghost use Rattle.std.specs.Prelude.{◌≡◌, IfOk};
    ghost use Rattle.std.specs.BTreeMap.{get};
    ghost use Rattle.tape_summary.specs.Placing.{Adds, ArePlaced, Changes, Places, kept_of, spot_cmp};
    ghost use Rattle.tape_summary.specs.Tracking.{PausesTrack, ResumesTrack, nothing};

    /// No tracks. Takes no memory.
    pub fn new(alloc: Global) -> Self
        ensures placed { ArePlaced result }
        ensures none { (s : Spot) → kept_of result s ≡ nothing }
    {
        Tracks {
            alloc,
            spots: Vec::new(alloc),
            tracks: Vec::new(alloc),
            places: BTreeMap::new(alloc),
            next: 0,
        }
    }

    /// A pause comes, at this place among all pauses. Answers the dispatch of its resume where that came before it.
    pub fn pause(&mut self, spot: Spot, place: usize) -> Result<Option<u64>, NoMemory>
        ensures { IfOk result (λ until. Changes self.old spot (λ old new. PausesTrack old place new until) self.new) }
    {
        let at = self.place(spot)?;
        if at < self.tracks.len() {
            self.tracks[at].pause(place)
        } else {
            Ok(None)
        }
    }

    /// A resume comes, in this dispatch. Answers the place of its pause where that came before it.
    pub fn resume(&mut self, spot: Spot, turn: u64) -> Result<Option<usize>, NoMemory>
        ensures { IfOk result (λ place. Changes self.old spot (λ old new. ResumesTrack old turn new place) self.new) }
    {
        let at = self.place(spot)?;
        if at < self.tracks.len() {
            self.tracks[at].resume(turn)
        } else {
            Ok(None)
        }
    }

    // The place of a flow and buffer, which gets one where it has none.
    fn place(&mut self, spot: Spot) -> Result<usize, NoMemory>
        ensures { IfOk result (λ at. Places self.old spot at self.new) }
    {
        let at = match self.known(spot) {
            Some(at) => at,
            None => self.add(spot)?,
        };
        self.next = at.saturating_add(1);
        Ok(at)
    }

    fn known(&self, spot: Spot) -> Option<usize>
        ensures { ArePlaced self.now → result ≡ get spot_cmp self.now.places spot }
    {
        if self.next < self.spots.len() && self.spots[self.next] == spot {
            return Some(self.next);
        }
        self.places.get(&spot).copied()
    }

    fn add(&mut self, spot: Spot) -> Result<usize, NoMemory>
        ensures { IfOk result (λ at. Adds self.old spot at self.new) }
    {
        let at = self.spots.len();
        self.spots.push(spot)?;
        self.tracks.push(Track::new(self.alloc))?;
        self.places.insert(spot, at)?;
        Ok(at)
    }
}
