// The frames of a field block, the preface of a connection, and lists of settings.
use crate::http::words::{number, octets_of, say_frame, say_list};
use crate::said::Said;
use h2_frames::{ReadFrame, block_frames, read_frame};
use h2_session::{Prefaced, Session, SettingList};
use io_ports::{NoMemory, Octets};

/// `STREAM last|more HEX`: the frames in which this field block goes on a stream.
pub fn say_block(said: &mut Said, words: &str) {
    let (stream, rest) = words.split_once(' ').unwrap_or((words, ""));
    let (end, word) = rest.split_once(' ').unwrap_or((rest, ""));
    let stream = number(stream);
    if stream == 0 || stream >= 0x8000_0000 {
        said.say("no stream");
        return;
    }
    let block = octets_of(said, word);
    let mut into = Octets::new(said.alloc());
    if block_frames(stream, end == "last", &block, &mut into).is_err() {
        said.lack();
    }
    say_frames(said, into.as_slice());
}

// The frames that stand one after another.
fn say_frames(said: &mut Said, octets: &[u8]) {
    let mut rest = octets;
    for _ in 0..octets.len() {
        let ReadFrame::Whole(frame, used) = read_frame(rest, 16_384) else {
            break;
        };
        say_frame(said, &frame);
        said.say("; ");
        (_, rest) = rest.split_at(used as usize);
    }
    said.say_number(octets.len() as u64);
    said.say_with(" octets, ", rest.len() as u64);
    said.say(" left");
}

/// `HEX`: how these octets compare with the preface.
pub fn say_preface(said: &mut Said, words: &str) {
    let octets = octets_of(said, words);
    let mut session = Session::new(said.alloc(), false, 1, 1);
    said.say(match session.take_preface(&octets) {
        Prefaced::Need => "need",
        Prefaced::Done => "done",
        Prefaced::Bad => "bad",
    });
    drop(session);
}

/// `ID=VALUE ..`: a list of settings, made of their octets, taken apart and made again.
pub fn say_settings(said: &mut Said, words: &str) {
    let empty = SettingList::from_octets(Octets::new(said.alloc()));
    said.say_truth("empty ", empty.is_empty());
    let mut octets = Octets::new(said.alloc());
    for word in words.split(' ') {
        if push_setting(&mut octets, word).is_err() {
            said.lack();
        }
    }
    let list = SettingList::from_octets(octets);
    let again = SettingList::from_octets(list.into_octets());
    said.say_with(", then ", again.len() as u64);
    said.say(": ");
    say_list(said, &again);
}

fn push_setting(octets: &mut Octets, word: &str) -> Result<(), NoMemory> {
    let (id, value) = word.split_once('=').unwrap_or((word, "0"));
    let id = (number(id) % 65_536) as u16;
    octets.push_all(&id.to_be_bytes())?;
    octets.push_all(&number(value).to_be_bytes())
}
