//! Posts of one thread, and of two threads beside a runner.
ghost use Rattle.std.specs.Prelude.{◌≡◌, ◌+◌, ◌<◌, length, All, IfSome};
ghost use Rattle.std.specs.Thread.{IsSync};
ghost use Rattle.post_queue.specs.Clauses.{IsPosterOf, IsRunnerOf, passes_in, room_in};

use crate::said::{holds, same};
use flow_notes::Job;
use post_queue::{Post, PostBox, PostList, PostRefusal, PosterPass, PosterPasses, RunnerPass};
use std::alloc::Global;
use std::process::Abort;
use std::sync::Wait;
use std::test::Fail;
use std::thread;
use std::thread::Threads;

/// How many jobs each of the two posters posts.
const EACH: u32 = 1000;

/// How often the runner drains at most. It finds nothing while the posters are slow.
const TRIES: u64 = 10_000_000;

fn take(posts: &PostBox, passes: &mut PosterPasses) -> Option<PosterPass>
    requires { All (IsPosterOf posts.now) (passes_in passes.old) }
    ensures some { IfSome result (λ p. IsPosterOf posts.now p × (length (passes_in passes.old) ≡ length (passes_in passes.new) + 1)) }
    ensures each { All (IsPosterOf posts.now) (passes_in passes.new) }
    ensures room { room_in passes.new ≡ room_in passes.old }
{
    passes.take_one()
}

fn put(posts: &PostBox, passes: &mut PosterPasses, pass: PosterPass)
    requires pass { IsPosterOf posts.now pass }
    requires each { All (IsPosterOf posts.now) (passes_in passes.old) }
    requires room { length (passes_in passes.old) < room_in passes.old }
    ensures number { length (passes_in passes.new) ≡ length (passes_in passes.old) + 1 }
    ensures each { All (IsPosterOf posts.now) (passes_in passes.new) }
    ensures room { room_in passes.new ≡ room_in passes.old }
{
    passes.give_back(pass);
}

fn close<R: Wait>(
    rt: &R,
    alloc: Global,
    posts: PostBox,
    passes: PosterPasses,
    runner: RunnerPass,
) -> Option<PostList>
    requires runner { IsRunnerOf posts runner }
    requires each { All (IsPosterOf posts) (passes_in passes) }
    requires all { length (passes_in passes) ≡ posts.posters }
{
    posts.close(rt, alloc, passes, runner).ok()
}

/// Posts so many jobs. Tells how many were posted, each under the number that came next; the others came back.
fn post_all<R: Wait + Abort>(
    rt: &R,
    posts: &PostBox,
    mut pass: PosterPass,
    jobs: u32,
) -> (PosterPass, u64)
    requires { IsPosterOf posts.now pass }
    ensures { IsPosterOf posts.now result.0 }
{
    let mut posted: u64 = 0;
    for exchange in 0..jobs {
        let job = Job::Cancel {
            exchange: u64::from(exchange),
        };
        match posts.post(rt, &mut pass, job) {
            Ok(number) => {
                same(rt, &number, &posted);
                posted = posted.wrapping_add(1);
            }
            Err(PostRefusal::NoMemory(back)) => same(rt, &back, &job),
        }
    }
    (pass, posted)
}

/// Drains until so many posts were taken. None where memory ran out.
fn drain_all<R: Wait>(
    rt: &R,
    alloc: Global,
    posts: &PostBox,
    mut runner: RunnerPass,
    most: usize,
) -> (RunnerPass, Option<Vec<Post>>)
    requires { IsRunnerOf posts.now runner }
    ensures { IsRunnerOf posts.now result.0 }
{
    let mut drained = Vec::new(alloc);
    for _ in 0..TRIES {
        if drained.len() >= most {
            break;
        }
        let Ok(batch) = posts.drain(rt, alloc, &mut runner) else {
            return (runner, None);
        };
        if drained.extend_from_slice(batch.as_slice()).is_err() {
            return (runner, None);
        }
    }
    (runner, Some(drained))
}

/// How many posts of a poster there are. None where they aren't numbered 0, 1, 2 and so on.
fn count_in_order(posts: &[Post], poster: u32) -> Option<u64> {
    let mut next: u64 = 0;
    for post in posts {
        if post.poster == poster {
            if post.number != next {
                return None;
            }
            next = next.wrapping_add(1);
        }
    }
    Some(next)
}

fn post_by_two<R: Threads + Wait + Sync + Abort>(
    rt: &R,
    posts: &PostBox,
    a: PosterPass,
    b: PosterPass,
) -> (PosterPass, PosterPass)
    requires { IsPosterOf posts.now a × IsPosterOf posts.now b }
    ensures { IsPosterOf posts.now result.0 × IsPosterOf posts.now result.1 }
{
    thread::join(
        rt,
        move || -> PosterPass
            requires { IsSync R.row × IsPosterOf posts.now a }
            ensures { IsPosterOf posts.entry.now result }
        { post_all(rt, posts, a, EACH).0 },
        move || -> PosterPass
            requires { IsSync R.row × IsPosterOf posts.now b }
            ensures { IsPosterOf posts.entry.now result }
        { post_all(rt, posts, b, EACH).0 },
    )
}

fn exchange<R: Threads + Wait + Sync + Abort>(
    rt: &R,
    alloc: Global,
    posts: &PostBox,
    a: PosterPass,
    b: PosterPass,
    runner: RunnerPass,
) -> (PosterPass, PosterPass, RunnerPass, Option<Vec<Post>>)
    requires { IsPosterOf posts.now a × IsPosterOf posts.now b × IsRunnerOf posts.now runner }
    ensures { IsPosterOf posts.now result.0 × IsPosterOf posts.now result.1 × IsRunnerOf posts.now result.2 }
{
    let ((a, b), (runner, drained)) = thread::join(
        rt,
        move || -> (PosterPass, PosterPass)
            requires { IsSync R.row × IsPosterOf posts.now a × IsPosterOf posts.now b }
            ensures { IsPosterOf posts.entry.now result.0 × IsPosterOf posts.entry.now result.1 }
        { post_by_two(rt, posts, a, b) },
        move || -> (RunnerPass, Option<Vec<Post>>)
            requires { IsRunnerOf posts.now runner }
            ensures { IsRunnerOf posts.entry.now result.0 }
        { drain_all(rt, alloc, posts, runner, 1900) },
    );
    (a, b, runner, drained)
}

/// Two posts are drained in their order, and then there is none.
fn two_are_drained<R: Wait + Abort>(
    rt: &R,
    alloc: Global,
    posts: &PostBox,
    pass: &mut PosterPass,
    runner: &mut RunnerPass,
) -> Result<(), Fail>
    requires pass { IsPosterOf posts.now pass.old }
    requires runner { IsRunnerOf posts.now runner.old }
    ensures pass { IsPosterOf posts.now pass.new }
    ensures runner { IsRunnerOf posts.now runner.new }
{
    let cancel = Job::Cancel { exchange: 7 };
    same(rt, &posts.post(rt, pass, Job::Look), &Ok(0));
    same(rt, &posts.post(rt, pass, cancel), &Ok(1));
    let both = posts.drain_if_any(rt, alloc, runner)?;
    let wanted = [
        Post {
            poster: 0,
            number: 0,
            job: Job::Look,
        },
        Post {
            poster: 0,
            number: 1,
            job: cancel,
        },
    ];
    same(rt, &both.as_slice(), &wanted.as_slice());
    holds(rt, posts.drain_if_any(rt, alloc, runner)?.is_empty());
    Ok(())
}

#[test]
fn one_poster(rt: HostRuntime) -> Result<(), Fail> {
    let alloc = rt.alloc();
    let (posts, mut passes, mut runner) = PostBox::new(alloc, 1)?;
    let mut pass = take(&posts, &mut passes).ok_or("a pass")?;
    two_are_drained(&rt, alloc, &posts, &mut pass, &mut runner)?;
    put(&posts, &mut passes, pass);
    let rest = close(&rt, alloc, posts, passes, runner).ok_or("memory")?;
    holds(&rt, rest.is_empty());
    Ok(())
}

/// Of 200 posts three drains take 64 each, and the fourth takes the other 8.
fn drains_of_200<R: Wait + Abort>(
    rt: &R,
    alloc: Global,
    posts: &PostBox,
    runner: &mut RunnerPass,
) -> Result<(), Fail>
    requires { IsRunnerOf posts.now runner.old }
{
    same(rt, &posts.drain(rt, alloc, runner)?.len(), &64);
    same(rt, &posts.drain(rt, alloc, runner)?.len(), &64);
    same(rt, &posts.drain(rt, alloc, runner)?.len(), &64);
    same(rt, &posts.drain(rt, alloc, runner)?.len(), &8);
    Ok(())
}

#[test]
fn a_drain_takes_64(rt: HostRuntime) -> Result<(), Fail> {
    let alloc = rt.alloc();
    let (posts, mut passes, mut runner) = PostBox::new(alloc, 1)?;
    let pass = take(&posts, &mut passes).ok_or("a pass")?;
    holds(&rt, passes.take_one().is_none());
    same(&rt, &post_all(&rt, &posts, pass, 200).1, &200);
    drains_of_200(&rt, alloc, &posts, &mut runner)
}

#[test]
fn two_post_beside_a_runner(rt: HostRuntime) -> Result<(), Fail> {
    let alloc = rt.alloc();
    let (posts, mut passes, runner) = PostBox::new(alloc, 2)?;
    let a = take(&posts, &mut passes).ok_or("a pass")?;
    let b = take(&posts, &mut passes).ok_or("a pass")?;
    let (a, b, runner, drained) = exchange(&rt, alloc, &posts, a, b, runner);
    put(&posts, &mut passes, b);
    put(&posts, &mut passes, a);
    let rest = close(&rt, alloc, posts, passes, runner).ok_or("memory")?;
    are_of_two(&rt, drained, rest.as_slice())
}

// What was drained and the rest are each poster's posts, in order.
fn are_of_two<R: Abort>(rt: &R, drained: Option<Vec<Post>>, rest: &[Post]) -> Result<(), Fail> {
    let mut all = drained.ok_or("memory")?;
    holds(rt, all.len() >= 1900);
    all.extend_from_slice(rest)?;
    same(rt, &all.len(), &2000);
    let each = Some(u64::from(EACH));
    same(rt, &count_in_order(all.as_slice(), 0), &each);
    same(rt, &count_in_order(all.as_slice(), 1), &each);
    Ok(())
}

/// Run also with each allocation failing in turn.
#[test]
fn refused_posts_use_no_number(rt: HostRuntime) -> Result<(), Fail> {
    let alloc = rt.alloc();
    let (posts, mut passes, runner) = PostBox::new(alloc, 1)?;
    let pass = take(&posts, &mut passes).ok_or("a pass")?;
    let (pass, posted) = post_all(&rt, &posts, pass, 200);
    put(&posts, &mut passes, pass);
    let rest = close(&rt, alloc, posts, passes, runner).ok_or("memory")?;
    same(&rt, &count_in_order(rest.as_slice(), 0), &Some(posted));
    Ok(())
}
