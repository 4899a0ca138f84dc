// A client of HTTP/2.

use crate::web_peer::{Peer, Told};
use crate::web_request::{PREFACE, next_request, status_of};
use io_ports::{NoMemory, Octets};
use mio::net::TcpStream;
use std::alloc::Global;
use std::mem;

/// How often the client reads what it is sent, at each step.
const READS: u32 = 16;

/// The answer to a request.
#[derive(Drop)]
pub struct Answer {
    /// What was asked.
    pub what: &'static str,
    /// 0 where it is none that the client knows.
    pub status: u16,
    pub content: Octets,
    /// Whether something was posted, and exactly that came back.
    pub is_back: bool,
}

/// A client that makes its requests one after another.
#[derive(Drop)]
pub struct User {
    alloc: Global,
    peer: Peer,
    /// What was asked last, on which stream, and what was posted with it.
    what: &'static str,
    stream: u32,
    posted: Octets,
    /// What has come of the answer.
    status: u16,
    content: Octets,
    /// The answers that have ended.
    pub answers: Vec<Answer>,
    /// Whether all requests are answered.
    pub is_done: bool,
}

impl User {
    /// A client that has made its first request.
    pub fn new(alloc: Global, stream: TcpStream) -> Result<Self, NoMemory> {
        let mut user = User {
            alloc,
            peer: Peer::new(alloc, stream, PREFACE, 0)?,
            what: "",
            stream: 0,
            posted: Octets::new(alloc),
            status: 0,
            content: Octets::new(alloc),
            answers: Vec::new(alloc),
            is_done: false,
        };
        user.ask()?;
        Ok(user)
    }

    /// Sends and reads some times, and takes in what the frames tell.
    pub fn step(&mut self) -> Result<(), NoMemory> {
        for _ in 0..READS {
            if let Some(told) = self.peer.step()? {
                self.take_in(told)?;
            }
        }
        Ok(())
    }

    fn take_in(&mut self, told: Told) -> Result<(), NoMemory> {
        match told {
            Told::Head(_, block, last) => {
                self.status = status_of(block.as_slice());
                self.end_at(last)
            }
            Told::Content(_, octets, last) => {
                self.content.push_all(octets.as_slice())?;
                self.end_at(last)
            }
            Told::Other => Ok(()),
        }
    }

    // Behind the last frame of an answer the next request is made.
    fn end_at(&mut self, last: bool) -> Result<(), NoMemory> {
        if !last {
            return Ok(());
        }
        let content = mem::replace(&mut self.content, Octets::new(self.alloc));
        let is_back = !content.is_empty() && content.as_slice() == self.posted.as_slice();
        self.answers.push(Answer {
            what: self.what,
            status: self.status,
            content,
            is_back,
        })?;
        self.ask()
    }

    // Makes the next request, if there is one.
    fn ask(&mut self) -> Result<(), NoMemory> {
        let Some(request) = next_request(self.stream) else {
            self.is_done = true;
            return Ok(());
        };
        self.what = request.what;
        self.stream = request.stream;
        self.posted.clear();
        for _ in 0..request.times {
            self.posted.push_all(request.content)?;
        }
        let is_short = self.posted.is_empty();
        self.peer.say_head(self.stream, is_short, request.block)?;
        if is_short {
            return Ok(());
        }
        self.peer.say_all(self.stream, self.posted.as_slice())
    }
}
