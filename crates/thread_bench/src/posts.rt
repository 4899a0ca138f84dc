// How many posts a second go from posters to a runner that drains beside them, and how many values a second go through a
// queue without a rule in the same way: on as many threads, carrying the same, and taken out in lists as long as those
// of a drain, whose memory is taken first. Beside that stands the same queue emptied by bare pops.
ghost use Rattle.std.specs.Prelude.{◌≤◌, All, IfOk};
ghost use Rattle.std.specs.Thread.{IsSync};
ghost use Rattle.post_queue.specs.Clauses.{IsPosterOf, IsRunnerOf, passes_in};

use crate::plain_queue::{Emptying, plain_turn};
use anyhow::ensure;
use bench_parts::{Stopwatch, per_second, print_line};
use flow_notes::Job;
use post_queue::{Post, PostBox, PosterPass, PosterPasses, RunnerPass};
use std::alloc::{AllocError, Global};
use std::rt::Clock;
use std::sync::Wait;
use std::thread;
use std::thread::Threads;

/// How many posts there are in one turn, of all posters together.
pub const POSTS: u32 = 900_000;

/// How many rounds there are. In each, each way has one turn, and its median counts.
const ROUNDS: usize = 21;

/// How often the runner looks for posts in a turn, at most.
pub const LOOKS: u64 = 1_000_000_000;

/// How values go from some threads to another.
#[derive(Clone, Copy)]
enum Way {
    /// By `post` and `drain`.
    Posts,
    /// Through a plain queue, in lists.
    PlainLists,
    /// Through a plain queue, by bare pops.
    PlainPops,
}

// Posts so many jobs.
fn fill<R: Wait>(rt: &R, posts: &PostBox, pass: &mut PosterPass, n: u32)
    requires { IsPosterOf posts.now pass.old }
{
    for _ in 0..n {
        if posts.post(rt, pass, Job::Look).is_err() {
            return;
        }
    }
}

// Drains until all was posted. The sum of the numbers of what was drained.
fn empty<R: Wait>(rt: &R, alloc: Global, posts: &PostBox, mut runner: RunnerPass) -> u64
    requires { IsRunnerOf posts.now runner }
{
    let mut taken: u64 = 0;
    let mut sum: u64 = 0;
    for _ in 0..LOOKS {
        if taken >= u64::from(POSTS) {
            break;
        }
        let Ok(batch) = posts.drain(rt, alloc, &mut runner) else {
            break;
        };
        taken = taken.wrapping_add(batch.len() as u64);
        sum = add_all(sum, batch.as_slice());
    }
    sum
}

/// The sum, and the numbers of these posts.
pub fn add_all(sum: u64, posts: &[Post]) -> u64 {
    let mut sum = sum;
    for post in posts {
        sum = sum.wrapping_add(post.number);
    }
    sum
}

// Each poster posts so many, in a thread of its own.
fn fill_all<R: Threads + Wait + Sync>(rt: &R, posts: &PostBox, passes: &mut [PosterPass], n: u32)
    requires { All (IsPosterOf posts.now) passes.old }
{
    let threads = passes.len().max(1);
    thread::for_each_mut(
        rt,
        passes,
        threads,
        &|_, pass: &mut PosterPass|
            requires { IsPosterOf posts.now pass.old }
        { fill(rt, posts, pass, n) },
    );
}

// The passes of all posters.
fn hire(alloc: Global, posts: &PostBox, passes: PosterPasses) -> Result<Vec<PosterPass>, AllocError>
    requires { All (IsPosterOf posts.now) (passes_in passes) }
    ensures { IfOk result (λ v. All (IsPosterOf posts.now) v.items) }
{
    let mut passes = passes;
    let mut posters = Vec::new(alloc);
    while let Some(pass) = passes.take_one() {
        posters.push(pass)?;
    }
    Ok(posters)
}

// So many posters beside the runner.
fn turn_of_posts<R: Threads + Wait + Sync>(
    rt: &R,
    alloc: Global,
    posters: u32,
) -> anyhow::Result<u64>
    requires { 1 ≤ posters }
{
    let (posts, passes, runner) = PostBox::new(alloc, posters)?;
    let mut passes = hire(alloc, &posts, passes)?;
    let n = POSTS / posters.max(1);
    Ok(exchange(rt, alloc, &posts, passes.as_mut_slice(), n, runner))
}

fn exchange<R: Threads + Wait + Sync>(
    rt: &R,
    alloc: Global,
    posts: &PostBox,
    passes: &mut [PosterPass],
    n: u32,
    runner: RunnerPass,
) -> u64
    requires { All (IsPosterOf posts.now) passes.old × IsRunnerOf posts.now runner }
{
    thread::join(
        rt,
        move || -> ()
            requires { IsSync R.row × All (IsPosterOf posts.now) passes.now }
        { fill_all(rt, posts, passes, n) },
        move || -> u64
            requires { IsSync R.row × IsRunnerOf posts.now runner }
        { empty(rt, alloc, posts, runner) },
    )
    .1
}

fn turn(
    rt: &(impl AllocGlobal + Threads + Wait + Sync),
    way: Way,
    posters: u32,
) -> anyhow::Result<u64>
    requires { 1 ≤ posters }
{
    match way {
        Way::Posts => turn_of_posts(rt, rt.alloc(), posters),
        Way::PlainLists => plain_turn(rt, rt.alloc(), posters, Emptying::InLists),
        Way::PlainPops => plain_turn(rt, rt.alloc(), posters, Emptying::ByPops),
    }
}

// The sum of the numbers of all posts of so many posters, of which each counts from 0.
fn sum_of(posters: u32) -> u64 {
    let each = u64::from(POSTS / posters.max(1));
    let sum = each.saturating_mul(each.saturating_sub(1)) / 2;
    sum.saturating_mul(u64::from(posters))
}

// The nanoseconds of one turn, in which each value came through.
fn timed(
    rt: &(impl Clock + AllocGlobal + Threads + Wait + Sync),
    way: Way,
    posters: u32,
) -> anyhow::Result<u64>
    requires { 1 ≤ posters }
{
    let watch = Stopwatch::start(rt)?;
    let sum = turn(rt, way, posters)?;
    let nanos = watch.nanos(rt)?;
    ensure!(sum == sum_of(posters), "a post was lost");
    Ok(nanos)
}

// The median rate of so many turns.
fn median_rate(mut nanos: [u64; ROUNDS]) -> u64 {
    nanos.sort_unstable();
    per_second(u64::from(POSTS), nanos[ROUNDS / 2].max(1))
}

fn percent(part: u64, whole: u64) -> u64 {
    part.saturating_mul(100) / whole.max(1)
}

fn report(
    rt: &(impl Print + Clock + AllocGlobal + Threads + Wait + Sync),
    posts_of: &str,
    posters: u32,
) -> anyhow::Result<()>
    requires { 1 ≤ posters }
{
    let mut posts = [0; ROUNDS];
    let mut lists = [0; ROUNDS];
    let mut pops = [0; ROUNDS];
    for round in 0..ROUNDS {
        posts[round] = timed(rt, Way::Posts, posters)?;
        lists[round] = timed(rt, Way::PlainLists, posters)?;
        pops[round] = timed(rt, Way::PlainPops, posters)?;
    }
    tell_rates(
        rt,
        posts_of,
        median_rate(posts),
        median_rate(lists),
        median_rate(pops),
    )
}

fn tell_rates(
    rt: &(impl Print + AllocGlobal),
    posts_of: &str,
    rate: u64,
    in_lists: u64,
    by_pops: u64,
) -> anyhow::Result<()> {
    let numbers = [
        (posts_of, rate),
        (" posts a second\n  a plain queue in lists ", in_lists),
        (": ", percent(rate, in_lists)),
        (" %\n  a plain queue by bare pops ", by_pops),
        (": ", percent(rate, by_pops)),
    ];
    Ok(print_line(rt, &numbers, " %")?)
}

/// Posts of one poster, and of three.
pub fn run(rt: &(impl Print + Clock + AllocGlobal + Threads + Wait + Sync)) -> anyhow::Result<()> {
    report(rt, "posts: one poster: ", 1)?;
    report(rt, "posts: three posters: ", 3)
}
