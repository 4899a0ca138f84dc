//! Tokens put and taken on one thread, and taken on four.
ghost use Rattle.std.specs.Prelude.{◌≤◌, ◌^◌, All, IfOk};
ghost use Rattle.shared_tokens.specs.Seats.{IsPutSeatOf, IsSeatOf, seats_in};

use crate::said::{holds, same};
use shared_tokens::{Bucket, NoToken, PutSeat, TokenSeat, TokenSeats};
use std::alloc::Global;
use std::process::Abort;
use std::test::Fail;
use std::thread;
use std::thread::Threads;

/// How often each of four threads takes.
const TAKES: u32 = 1000;

/// A step on a bucket with one seat, and what is answered.
#[derive(Clone, Copy, Debug)]
enum Step {
    Put(u64, u64),
    Take(Result<(), NoToken>),
}

fn none(found: u64, put: u64) -> Step {
    Step::Take(Err(NoToken { found, put }))
}

fn play<R: Abort>(rt: &R, bucket: &Bucket, put: &mut PutSeat, seat: &mut TokenSeat, steps: &[Step])
    requires { IsPutSeatOf bucket.now put.old × IsSeatOf bucket.now seat.old }
    ensures { IsPutSeatOf bucket.now put.new × IsSeatOf bucket.now seat.new }
{
    for step in steps {
        match *step {
            Step::Put(n, answer) => same(rt, &bucket.put(put, n), &answer),
            Step::Take(answer) => same(rt, &bucket.take(seat), &answer),
        }
    }
}

/// A bucket with one seat, the steps on it, and how many tokens the seat was given in all.
fn row<R: Abort + AllocGlobal>(rt: &R, burst: u64, steps: &[Step], taken: u64) -> Result<(), Fail>
    requires { (1 ≤ burst) × (burst ≤ 2 ^ 40) }
{
    let (bucket, mut seats, mut put) = Bucket::new(rt.alloc(), burst, 1)?;
    let mut seat = seats.take_one().ok_or("a seat")?;
    holds(rt, seats.take_one().is_none());
    play(rt, &bucket, &mut put, &mut seat, steps);
    same(rt, &bucket.taken(&seat), &taken);
    bucket.settle(&mut put, seat);
    Ok(())
}

#[test]
fn bucket_of_two(rt: HostRuntime) -> Result<(), Fail> {
    let steps = [
        none(0, 0),
        Step::Put(5, 2),
        Step::Take(Ok(())),
        Step::Take(Ok(())),
        none(2, 2),
        Step::Put(1, 1),
        Step::Take(Ok(())),
        none(3, 3),
    ];
    row(&rt, 2, &steps, 3)
}

#[test]
fn puts_find_what_was_taken(rt: HostRuntime) -> Result<(), Fail> {
    let steps = [
        Step::Put(0, 0),
        Step::Put(1, 1),
        Step::Put(10, 2),
        Step::Put(1, 0),
        Step::Take(Ok(())),
        Step::Put(10, 1),
        Step::Take(Ok(())),
        Step::Take(Ok(())),
        Step::Take(Ok(())),
        none(4, 4),
        Step::Put(u64::MAX, 3),
    ];
    row(&rt, 3, &steps, 4)
}

/// A thread's seat, and how many of its takes were answered Ok.
#[derive(Drop)]
struct Worker {
    seat: TokenSeat,
    tokens: u64,
}

fn take_often(bucket: &Bucket, worker: &mut Worker)
    requires { IsSeatOf bucket.now worker.old.seat }
    ensures { IsSeatOf bucket.now worker.new.seat }
{
    for _ in 0..TAKES {
        if bucket.take(&mut worker.seat).is_ok() {
            worker.tokens = worker.tokens.wrapping_add(1);
        }
    }
}

fn take_beside<R: Threads + Sync>(rt: &R, bucket: &Bucket, workers: &mut [Worker])
    requires { All (λ w. IsSeatOf bucket.now w.seat) workers.old }
    ensures { All (λ w. IsSeatOf bucket.now w.seat) workers.new }
{
    thread::for_each_mut(
        rt,
        workers,
        4,
        &|_, worker: &mut Worker|
            requires { IsSeatOf bucket.now worker.old.seat }
            ensures { IsSeatOf bucket.entry.now worker.new.seat }
        { take_often(bucket, worker) },
    );
}

fn hire(alloc: Global, bucket: &Bucket, seats: TokenSeats) -> Result<Vec<Worker>, Fail>
    requires { All (IsSeatOf bucket.now) (seats_in seats) }
    ensures { IfOk result (λ v. All (λ w. IsSeatOf bucket.now w.seat) v.items) }
{
    let mut seats = seats;
    let mut workers = Vec::new(alloc);
    while let Some(seat) = seats.take_one() {
        workers.push(Worker { seat, tokens: 0 })?;
    }
    Ok(workers)
}

/// The tokens of all workers. Each seat was given as many as its takes were answered Ok.
fn settle_all<R: Abort>(rt: &R, bucket: &Bucket, put: &mut PutSeat, workers: Vec<Worker>) -> u64
    requires put { IsPutSeatOf bucket.now put.old }
    requires each { All (λ w. IsSeatOf bucket.now w.seat) workers.items }
    ensures { IsPutSeatOf bucket.now put.new }
{
    let mut workers = workers;
    let mut sum: u64 = 0;
    while let Some(Worker { seat, tokens }) = workers.pop() {
        same(rt, &bucket.taken(&seat), &tokens);
        sum = sum.wrapping_add(tokens);
        bucket.settle(put, seat);
    }
    sum
}

/// The first take that is refused finds 1,000 taken, so all tokens are taken, and no more.
#[test]
fn four_threads_take(rt: HostRuntime) -> Result<(), Fail> {
    let (bucket, seats, mut put) = Bucket::new(rt.alloc(), 1000, 4)?;
    same(&rt, &bucket.put(&mut put, 1000), &1000);
    let mut workers = hire(rt.alloc(), &bucket, seats)?;
    same(&rt, &workers.len(), &4);
    take_beside(&rt, &bucket, workers.as_mut_slice());
    same(&rt, &settle_all(&rt, &bucket, &mut put, workers), &1000);
    Ok(())
}
