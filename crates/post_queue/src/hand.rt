// What a pass knows.
use crate::posts::Post;
use flow_notes::Job;
use std::collections::LinkedList;

/// What a poster that has ended made in all. No value of it is made.
pub struct Known {
    pub number: u64,
    pub made: LinkedList<Job>,
}

/// What a pass knows, its view in the ruled queue. No value of it is made.
pub struct Hand {
    /// It may post, under this number.
    pub posts: bool,
    pub number: u64,
    /// The jobs that it posted.
    pub made: LinkedList<Job>,
    /// How many of its posts were answered.
    pub tries: u64,
    /// It may run.
    pub runs: bool,
    /// The posts that it ran.
    pub ran: LinkedList<Post>,
    /// The posts that it popped, and one more for each drain that answered fewer than it may.
    pub pops: u64,
    /// How many drains were answered.
    pub drains: u64,
    /// How many posters there are, and what those that have ended made.
    pub count: u64,
    pub known: LinkedList<Known>,
}
