// Values that go from one thread to another through a plain queue, which has no rule: beside what goes through a post box.
use crate::posts::{LOOKS, POSTS, add_all};
use crossbeam_queue::SegQueue;
use flow_notes::Job;
use post_queue::{BATCH, Post};
use std::alloc::{AllocError, Global};
use std::sync::Wait;
use std::thread;
use std::thread::Threads;

/// How a plain queue is emptied.
#[derive(Clone, Copy)]
pub enum Emptying {
    InLists,
    ByPops,
}

// So many values of one poster.
fn fill_plain<R: Wait>(rt: &R, queue: &SegQueue<Post>, poster: u32, n: u32) {
    for number in 0..n {
        let post = Post {
            poster,
            number: u64::from(number),
            job: Job::Look,
        };
        if queue.push(rt, post).is_err() {
            return;
        }
    }
}

// At most as many values as a drain takes.
fn take_list<R: Wait>(
    rt: &R,
    alloc: Global,
    queue: &SegQueue<Post>,
) -> Result<Vec<Post>, AllocError> {
    let mut posts = Vec::with_capacity(alloc, BATCH)?;
    for _ in 0..BATCH {
        match queue.pop(rt) {
            Some(post) => posts.push_reserved(post),
            None => break,
        }
    }
    Ok(posts)
}

fn empty_in_lists<R: Wait>(rt: &R, alloc: Global, queue: &SegQueue<Post>) -> u64 {
    let mut taken: u64 = 0;
    let mut sum: u64 = 0;
    for _ in 0..LOOKS {
        if taken >= u64::from(POSTS) {
            break;
        }
        let Ok(list) = take_list(rt, alloc, queue) else {
            break;
        };
        taken = taken.wrapping_add(list.len() as u64);
        sum = add_all(sum, list.as_slice());
    }
    sum
}

fn empty_by_pops<R: Wait>(rt: &R, queue: &SegQueue<Post>) -> u64 {
    let mut taken: u64 = 0;
    let mut sum: u64 = 0;
    for _ in 0..LOOKS {
        if taken >= u64::from(POSTS) {
            break;
        }
        if let Some(post) = queue.pop(rt) {
            taken = taken.wrapping_add(1);
            sum = sum.wrapping_add(post.number);
        }
    }
    sum
}

fn empty_plain<R: Wait>(rt: &R, alloc: Global, queue: &SegQueue<Post>, by: Emptying) -> u64 {
    match by {
        Emptying::InLists => empty_in_lists(rt, alloc, queue),
        Emptying::ByPops => empty_by_pops(rt, queue),
    }
}

// Each poster in a thread of its own.
fn fill_all<R: Threads + Wait + Sync>(rt: &R, queue: &SegQueue<Post>, posters: &mut [u32], n: u32) {
    let threads = posters.len().max(1);
    thread::for_each_mut(
        rt,
        posters,
        threads,
        &|_, poster: &mut u32| { fill_plain(rt, queue, *poster, n) },
    );
}

/// So many posters beside a thread that empties the queue. The sum of the numbers of what came through.
pub fn plain_turn<R: Threads + Wait + Sync>(
    rt: &R,
    alloc: Global,
    posters: u32,
    by: Emptying,
) -> anyhow::Result<u64> {
    let queue = SegQueue::new(alloc)?;
    let queue = &queue;
    let mut numbers = vec![in alloc; 0u32; posters as usize]?;
    let numbers = numbers.as_mut_slice();
    let n = POSTS / posters.max(1);
    let (_, sum) = thread::join(
        rt,
        move || fill_all(rt, queue, numbers, n),
        move || empty_plain(rt, alloc, queue, by),
    );
    Ok(sum)
}
