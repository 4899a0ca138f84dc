// One case, played once.
ghost use Rattle.std.specs.Prelude.{◌<◌, ◌≤◌};

use super::acts::say_taken;
use crate::words::{Answers, small_number};
use io_ports::Octets;
use std::alloc::{AllocError, Global};
use wire_inlet::{Inlet, Intake, Peer};

/// How octets are cut into pieces.
#[derive(Clone, Copy)]
pub enum Cut {
    /// Not at all.
    Never,
    /// Into pieces of so many octets.
    Every(usize),
    /// In two behind so many of a case's octets.
    At(usize),
}

impl Cut {
    // How long the first piece of a call is where it is cut there, behind so many octets of the case.
    fn first(self, came: usize, len: usize) -> usize
        ensures { result ≤ len }
    {
        match self {
            Cut::At(place) => {
                let first = place.saturating_sub(came);
                if first < len { first } else { 0 }
            }
            _ => 0,
        }
    }

    // How long the other pieces are at most.
    fn size(self) -> usize
        ensures { 0 < result }
    {
        match self {
            Cut::Every(size) => size.max(1),
            _ => usize::MAX,
        }
    }
}

// A connection, the greatest payload, and how many octets came.
#[derive(Drop)]
struct Played {
    inlet: Inlet,
    max: u32,
    came: usize,
}

// `inlet client STREAMS EMPTY LIST MAX`
fn begun(alloc: Global, words: &str) -> Played {
    let (_, words) = words.split_once(' ').unwrap_or((words, ""));
    let (peer, words) = words.split_once(' ').unwrap_or((words, ""));
    let (streams, words) = words.split_once(' ').unwrap_or((words, ""));
    let (empty, words) = words.split_once(' ').unwrap_or((words, ""));
    let (list, max) = words.split_once(' ').unwrap_or((words, ""));
    let peer = if peer == "cluster" {
        Peer::Cluster
    } else {
        Peer::Client
    };
    Played {
        inlet: Inlet::new(
            alloc,
            peer,
            small_number(streams),
            small_number(empty),
            small_number(list),
        ),
        max: small_number(max),
        came: 0,
    }
}

/// What the calls of a case answer, and how many octets came.
pub fn play(alloc: Global, line: &str, cut: Cut) -> (Answers, usize) {
    let (words, calls) = line.split_once(" ; ").unwrap_or((line, ""));
    let mut played = begun(alloc, words);
    let answers = played.calls(alloc, calls, cut);
    let came = played.came;
    drop(played);
    (answers, came)
}

impl Played {
    // What the calls answer, one after another.
    fn calls(&mut self, alloc: Global, calls: &str, cut: Cut) -> Answers {
        let mut answers = Answers::new(alloc);
        for call in calls.split(" ; ") {
            answers.begin();
            self.call(&mut answers, call, cut);
        }
        answers
    }

    fn call(&mut self, answers: &mut Answers, call: &str, cut: Cut) {
        let (name, word) = call.split_once(' ').unwrap_or((call, ""));
        let stream = small_number(word);
        match name {
            "open" => self.open(answers),
            "end" => {
                self.inlet.end_local(stream);
                answers.say("ended");
            }
            "close" => {
                self.inlet.close_stream(stream);
                answers.say("closed");
            }
            "interim" => {
                self.inlet.interim(stream);
                answers.say("interim");
            }
            "is_open" => answers.say_truth(self.inlet.is_open(stream)),
            "greatest" => answers.say_number(u64::from(self.inlet.greatest())),
            _ => self.come(answers, name, cut),
        }
    }

    fn open(&mut self, answers: &mut Answers) {
        match self.inlet.open_stream() {
            Ok(Some(stream)) => answers.say_with("opened ", u64::from(stream)),
            Ok(None) => answers.say("none left"),
            Err(_) => answers.say("out of memory"),
        }
    }

    // `HEX`, `HEX~N` or `HEX*N`, in pieces, and what they give.
    fn come(&mut self, answers: &mut Answers, word: &str, cut: Cut) {
        let Some(octets) = octets_of(answers.alloc(), word) else {
            answers.say("no octets");
            return;
        };
        let (front, back) = octets
            .as_slice()
            .split_at(cut.first(self.came, octets.len()));
        let mut last = self.piece(answers, front);
        for piece in back.chunks(cut.size()) {
            last = self.piece(answers, piece);
        }
        say_end(answers, last);
    }

    // One piece comes, and all frames that are whole then are taken. What is behind them is told.
    fn piece(&mut self, answers: &mut Answers, piece: &[u8]) -> End {
        let Ok(octets) = Octets::from_slice(answers.alloc(), piece) else {
            return End::NoMemory;
        };
        if self.inlet.push(&octets).is_err() {
            return End::NoMemory;
        }
        self.came = self.came.saturating_add(piece.len());
        take_all(answers, &mut self.inlet, self.max)
    }
}

/// What is behind the frames that are whole.
#[derive(Clone, Copy)]
enum End {
    Need,
    Fault(u32),
    NoMemory,
}

fn say_end(answers: &mut Answers, end: End) {
    match end {
        End::Need => answers.say("need"),
        End::Fault(code) => answers.say_with("fault ", u64::from(code)),
        End::NoMemory => answers.say("out of memory"),
    }
}

// Takes all whole frames, and tells what is behind them.
fn take_all(answers: &mut Answers, inlet: &mut Inlet, max: u32) -> End {
    'take: loop {
        match inlet.next(max) {
            Ok(Intake::Taken(taken)) => {
                say_taken(answers, &taken);
                answers.say(", ");
            }
            Ok(Intake::Need) => return End::Need,
            Ok(Intake::Fault(code)) => return End::Fault(code),
            Err(_) => return End::NoMemory,
        }
    }
}

// The octets of a word: HEX~N is filled up to N octets with octets 7, HEX*N stands N times.
fn octets_of(alloc: Global, word: &str) -> Option<Vec<u8>> {
    let (word, times) = word.split_once('*').unwrap_or((word, "1"));
    let (text, len) = word.split_once('~').unwrap_or((word, "0"));
    let mut once = hex::decode(alloc, text).ok()?;
    let len = small_number(len) as usize;
    if len > once.len() && once.resize(len, 7).is_err() {
        return None;
    }
    repeated(alloc, once.as_slice(), small_number(times)).ok()
}

fn repeated(alloc: Global, once: &[u8], times: u32) -> Result<Vec<u8>, AllocError> {
    let mut octets = Vec::new(alloc);
    for _ in 0..times {
        octets.extend_from_slice(once)?;
    }
    Ok(octets)
}
