// One frame: read and written again, and the nine octets of a head.
use crate::http::words::{number, octets_of, say_frame, say_shown};
use crate::said::Said;
use h2_frames::{FrameFault, ReadFrame, data_head, frame_head, read_frame, write_frame};
use io_ports::Octets;

/// `MAX HEX`: what is read from these octets, where MAX is the greatest payload.
pub fn say_read(said: &mut Said, words: &str) {
    let (max, word) = words.split_once(' ').unwrap_or((words, ""));
    let octets = octets_of(said, word);
    match read_frame(&octets, number(max)) {
        ReadFrame::Need => said.say("need"),
        ReadFrame::Bad(fault) => say_fault(said, fault),
        ReadFrame::Whole(frame, used) => {
            say_frame(said, &frame);
            said.say_small("; used ", used);
            said.say_small(", content ", frame.content());
            let mut into = Octets::new(said.alloc());
            if write_frame(&frame, &mut into).is_err() {
                said.lack();
            }
            said.say("; ");
            say_shown(said, into.as_slice());
        }
    }
}

fn say_fault(said: &mut Said, fault: FrameFault) {
    said.say(match fault {
        FrameFault::TooLong => "bad TooLong",
        FrameFault::BadStream => "bad BadStream",
        FrameFault::BadSize => "bad BadSize",
        FrameFault::BadPadding => "bad BadPadding",
    });
    said.say_small(", code ", fault.code());
}

/// `LEN TYPE FLAGS STREAM`: the nine octets of a frame's head.
pub fn say_head(said: &mut Said, words: &str) {
    let mut numbers = words.split(' ').map(number);
    let len = numbers.next().unwrap_or(0);
    let kind = (numbers.next().unwrap_or(0) % 256) as u8;
    let flags = (numbers.next().unwrap_or(0) % 256) as u8;
    let stream = numbers.next().unwrap_or(0);
    if len >= 0x100_0000 || stream >= 0x8000_0000 {
        said.say("no head");
        return;
    }
    say_shown(said, &frame_head(len, kind, flags, stream));
}

/// `STREAM N last|more`: the nine octets of the head of a DATA frame with N octets.
pub fn say_data_head(said: &mut Said, words: &str) {
    let (stream, rest) = words.split_once(' ').unwrap_or((words, ""));
    let (n, end) = rest.split_once(' ').unwrap_or((rest, ""));
    let n = number(n);
    if n >= 0x100_0000 {
        said.say("no head");
        return;
    }
    say_shown(said, &data_head(number(stream), n, end == "last"));
}
