// Many streams, one after another.
use crate::http::words::number;
use crate::said::Said;
use h2_frames::{ReadFrame, frame_head, read_frame};
use h2_session::{Act, Session};

/// `client N`: a client opens N streams with heads that end them, and this side ends each before
/// the next. `cluster N`: this side opens N streams, and closes each before the next. Tells how many
/// were opened so, how many are open then, and the number of a GOAWAY.
pub fn say_many(said: &mut Said, words: &str) {
    let (kind, n) = words.split_once(' ').unwrap_or((words, ""));
    let mut session = Session::new(said.alloc(), kind == "cluster", 1, 1);
    let opened = if kind == "cluster" {
        open_many(&mut session, number(n))
    } else {
        take_many(&mut session, number(n))
    };
    said.say_small("opened ", opened);
    said.say_small(" = ", session.streams());
    said.say_small(", greatest ", session.greatest());
    drop(session);
}

fn open_many(session: &mut Session, n: u32) -> u32 {
    let mut opened = 0u32;
    for _ in 0..n {
        if let Ok(Some(stream)) = session.open_stream() {
            opened = opened.saturating_add(session.streams());
            session.close_stream(stream);
        }
    }
    opened
}

fn take_many(session: &mut Session, n: u32) -> u32 {
    let _settings = is_head(session, &frame_head(0, 4, 0, 0));
    let mut opened = 0u32;
    for stream in 0..n.min(0x3fff_ffff) {
        let stream = 2 * stream + 1;
        if is_head(session, &frame_head(0, 1, 5, stream)) {
            opened = opened.saturating_add(session.streams());
            session.end_local(stream);
        }
    }
    opened
}

// Whether a frame is taken as a head.
fn is_head(session: &mut Session, octets: &[u8]) -> bool {
    let ReadFrame::Whole(frame, _) = read_frame(octets, 16_384) else {
        return false;
    };
    matches!(session.accept(&frame), Ok(Act::Head { .. }))
}
