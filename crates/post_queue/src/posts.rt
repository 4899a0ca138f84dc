// A posted job, and lists of them.
ghost use Rattle.std.specs.Prelude.{◌≡◌, ◌==◌, [], length};

use flow_notes::Job;
use std::alloc::Global;
use std::error::Error;
use std::fmt;
use std::marker::Model;

/// A job that a poster posted. The posts of each poster are numbered from 0.
#[derive(Clone, Copy, Debug, PartialEq, Eq)]
pub struct Post {
    pub poster: u32,
    /// Below 2^63.
    pub number: u64,
    pub job: Job,
}

/// A job that was not posted comes back. It used no number.
#[derive(Clone, Copy, Debug, PartialEq, Eq)]
pub enum PostRefusal {
    /// There is no memory for the post, or no number: a poster posts at most 2^63 - 1 jobs.
    NoMemory(Job),
}

impl fmt::Display for PostRefusal {
    fn fmt<W: fmt::Write>(&self, f: &mut fmt::Formatter<W>) -> fmt::Result {
        f.write_str("out of memory, or of numbers for posts")
    }
}

impl Error for PostRefusal {}

/// A list of posts.
#[derive(Debug, Drop)]
pub struct PostList {
    pub(crate) posts: Vec<Post>,
}

impl Model for PostList {
    ghost use Rattle.std.specs.Prelude.{List};
    ghost use Rattle.post_queue.specs.declared.posts.Post.{Post};

    ghost Value = { List Post };

    ghost view = { λ a. a.posts.items };
}

impl PostList {
    // No posts. It takes no memory.
    pub(crate) fn empty(alloc: Global) -> Self
        ensures { result ≡ [] }
    {
        PostList {
            posts: Vec::new(alloc),
        }
    }

    /// The posts, in the order in which they were taken.
    pub fn as_slice(&self) -> &[Post]
        ensures { result.now ≡ self.now }
    {
        self.posts.as_slice()
    }

    /// How many posts there are.
    pub fn len(&self) -> usize
        ensures { result ≡ length self.now }
    {
        self.posts.len()
    }

    /// Whether there are no posts.
    pub fn is_empty(&self) -> bool
        ensures { result ≡ (length self.now == 0) }
    {
        self.posts.is_empty()
    }
}
