// The box: how it is made, and posting and draining.
ghost use Rattle.std.specs.Prelude.{◌≡◌, ◌+◌, ◌<◌, ◌≤◌, ◌++◌, ◌∷◌, [], length, vec_len, vec_capacity, All, IfOk, MatchResult, OnOk, OnErr, false, true};
ghost use Rattle.crossbeam_queue.specs.SegTies.{IsSegPassOf};
ghost use Rattle.post_queue.specs.declared.posts.PostRefusal.TheVariants as refusals;
ghost use Rattle.post_queue.specs.Pass.{view};
ghost use Rattle.post_queue.specs.Posts.{AreNumbered, IsAllowed, IsAllowedJob};
ghost use Rattle.post_queue.specs.Steps.{runner, poster};
ghost use Rattle.post_queue.specs.Clauses.{IsPosterOf, IsRunnerOf, made_by, tries_of, ran_by, pops_of, drains_of, pops_for, passes_in, room_in, AreInPlace};

use crate::hand::Hand;
use crate::passes::{PosterPass, PosterPasses, RunnerPass};
use crate::posts::{Post, PostList, PostRefusal};
use crate::rule::{DrainsFull, DrainsShort, Enrols, InOrder, Pops, Posts};
use crossbeam_queue::{RuledSegQueue, SegPass};
use flow_notes::Job;
use io_ports::NoMemory;
use std::alloc::{AllocError, Global};
use std::sync::Wait;

/// The most posts that one drain takes.
pub const BATCH: usize = 64;

// The most posts of a poster, and the most that a runner counts.
const MOST: u64 = (1 << 63) - 1;

pub(crate) type Line = RuledSegQueue<Post, Hand, InOrder>;

/// A box that posters fill and a runner empties. It has no bound.
pub struct PostBox {
    pub(crate) queue: Line,
    pub(crate) posters: u32,
}

impl Drop for PostBox {
    fn drop(self) {
        let Self { queue, posters: _ } = self;
        queue.destroy();
    }
}

// The pass of the next poster.
fn enrol(queue: &Line, first: &mut SegPass<Post, Hand>, number: u32) -> PosterPass
    requires pass { IsSegPassOf queue.now first.old }
    requires view { view first.old ≡ record runner { count = number } }
    ensures first { IsSegPassOf queue.now first.new × (view first.new ≡ record runner { count = number + 1 }) }
    ensures new { IsSegPassOf queue.now result.pass × (view result.pass ≡ poster number) × (result.poster ≡ number) }
{
    let pass = queue.another::<Enrols>(first);
    PosterPass {
        pass,
        poster: number,
        next: 0,
    }
}

fn enrol_all(
    alloc: Global,
    queue: &Line,
    first: &mut SegPass<Post, Hand>,
    posters: u32,
) -> Result<Vec<PosterPass>, AllocError>
    requires pass { IsSegPassOf queue.now first.old × (view first.old ≡ runner) }
    ensures first { IfOk result (λ _. IsSegPassOf queue.now first.new × (view first.new ≡ record runner { count = posters })) }
    ensures len { IfOk result (λ v. vec_len v ≡ posters) }
    ensures each { IfOk result (λ v. All (λ p. IsSegPassOf queue.now p.pass × (view p.pass ≡ poster p.poster)) v.items) }
    ensures places { IfOk result (λ v. AreInPlace v.items) }
{
    let mut list = Vec::with_capacity(alloc, posters as usize)?;
    for number in 0..posters {
        let pass = enrol(queue, first, number);
        list.push_reserved(pass);
    }
    Ok(list)
}

impl PostBox {
    /// A box with so many posters, numbered from 0. Their passes lie in the order of their numbers. Nothing is posted yet, and
    /// nothing run. Refused only for lack of memory.
    pub fn new(alloc: Global, posters: u32) -> Result<(PostBox, PosterPasses, RunnerPass), NoMemory>
        requires { 1 ≤ posters }
        ensures posters { IfOk result (λ b. (b.0.posters ≡ posters) × (length (passes_in b.1) ≡ posters) × (posters ≤ room_in b.1)) }
        ensures each { IfOk result (λ b. All (IsPosterOf b.0) (passes_in b.1)) }
        ensures places { IfOk result (λ b. AreInPlace (passes_in b.1)) }
        ensures fresh { IfOk result (λ b. All (λ p. (made_by p ≡ []) × (tries_of p ≡ 0)) (passes_in b.1)) }
        ensures runner { IfOk result (λ b. IsRunnerOf b.0 b.2 × (ran_by b.2 ≡ []) × (pops_of b.2 ≡ 0) × (drains_of b.2 ≡ 0)) }
    {
        let (queue, mut pass) = Line::with_rule(alloc)?;
        let posts = PostBox { queue, posters };
        let passes = enrol_all(alloc, &posts.queue, &mut pass, posters)?;
        Ok((
            posts,
            PosterPasses { passes },
            RunnerPass { pass, taken: 0 },
        ))
    }

    /// Posts a job, and answers its number: how many the poster posted before. After `NoMemory` the job is handed back
    /// and nothing has changed. A job that gives an exchange up names one below 2^63.
    pub fn post<R: Wait>(&self, rt: &R, pass: &mut PosterPass, job: Job) -> Result<u64, PostRefusal>
        requires pass { IsPosterOf self.now pass.old }
        requires job { IsAllowedJob job }
        ensures pass { IsPosterOf self.now pass.new × (pass.new.poster ≡ pass.old.poster) }
        ensures made { MatchResult result
            (λ n. (n ≡ length (made_by pass.old)) × (made_by pass.new ≡ made_by pass.old ++ job ∷ []))
            (λ refusal. (refusal ≡ refusals.NoMemory job) × (view pass.new.pass ≡ view pass.old.pass)) }
        ensures tries { OnOk result (tries_of pass.new ≡ tries_of pass.old + 1) }
    {
        let number = pass.next;
        if number >= MOST {
            return Err(PostRefusal::NoMemory(job));
        }
        let post = Post {
            poster: pass.poster,
            number,
            job,
        };
        match self.queue.push_as::<Posts, R>(rt, &mut pass.pass, post) {
            Ok(()) => {
                pass.next = number + 1;
                Ok(number)
            }
            Err(_) => Err(PostRefusal::NoMemory(job)),
        }
    }

    /// Takes at most 64 posts from the front, each by one pop, and ends early at a pop that finds nothing. Its memory
    /// is taken before the first pop, so after `NoMemory` nothing was taken and nothing has changed. A runner that took
    /// nearly 2^63 posts has no count for more, which is `NoMemory` too.
    pub fn drain<R: Wait>(
        &self,
        rt: &R,
        alloc: Global,
        pass: &mut RunnerPass,
    ) -> Result<PostList, NoMemory>
        requires { IsRunnerOf self.now pass.old }
        ensures pass { IsRunnerOf self.now pass.new }
        ensures len { IfOk result (λ posts. length posts ≤ 64) }
        ensures ran { IfOk result (λ posts. ran_by pass.new ≡ ran_by pass.old ++ posts) }
        ensures in_order { OnOk result (AreNumbered (ran_by pass.new)) }
        ensures allowed { IfOk result (λ posts. All IsAllowed posts) }
        ensures pops { IfOk result (λ posts. pops_of pass.new ≡ pops_of pass.old + pops_for (length posts)) }
        ensures drains { OnOk result (drains_of pass.new ≡ drains_of pass.old + 1) }
        ensures err { OnErr result (pass.new ≡ pass.old) }
    {
        if pass.taken > MOST - BATCH as u64 {
            return Err(NoMemory);
        }
        let mut posts = Vec::with_capacity(alloc, BATCH)?;
        self.take_up_to(rt, &mut pass.pass, &mut posts);
        pass.taken += posts.len() as u64;
        Ok(PostList { posts })
    }

    /// As `drain`, but takes no memory where it finds the box empty. After `NoMemory` nothing was taken, and the pass knows
    /// what it knew.
    pub fn drain_if_any<R: Wait>(
        &self,
        rt: &R,
        alloc: Global,
        pass: &mut RunnerPass,
    ) -> Result<PostList, NoMemory>
        requires { IsRunnerOf self.now pass.old }
        ensures pass { IsRunnerOf self.now pass.new }
        ensures len { IfOk result (λ posts. length posts ≤ 64) }
        ensures ran { IfOk result (λ posts. ran_by pass.new ≡ ran_by pass.old ++ posts) }
        ensures in_order { OnOk result (AreNumbered (ran_by pass.new)) }
        ensures allowed { IfOk result (λ posts. All IsAllowed posts) }
        ensures pops { IfOk result (λ posts. pops_of pass.new ≡ pops_of pass.old + pops_for (length posts)) }
        ensures drains { OnOk result (drains_of pass.new ≡ drains_of pass.old + 1) }
        ensures err { OnErr result (view pass.new.pass ≡ view pass.old.pass) }
    {
        if self.finds_none(&mut pass.pass) {
            return Ok(PostList::empty(alloc));
        }
        self.drain(rt, alloc, pass)
    }

    // Whether the queue is found empty. Where it is, that is counted as a drain.
    fn finds_none(&self, pass: &mut SegPass<Post, Hand>) -> bool
        requires pass { IsSegPassOf self.now.queue pass.old × ((view pass.old).runs ≡ true) × ((view pass.old).known ≡ []) }
        ensures pass { IsSegPassOf self.now.queue pass.new × ((view pass.new).runs ≡ true) × ((view pass.new).known ≡ []) × ((view pass.new).count ≡ (view pass.old).count) }
        ensures ran { (view pass.new).ran ≡ (view pass.old).ran }
        ensures in_order { result ≡ true → AreNumbered (view pass.new).ran }
        ensures pops { result ≡ true → (view pass.new).pops ≡ (view pass.old).pops + 1 }
        ensures drains { result ≡ true → (view pass.new).drains ≡ (view pass.old).drains + 1 }
        ensures same { result ≡ false → view pass.new ≡ view pass.old }
    {
        if self.queue.is_empty_as::<Pops>(pass) {
            self.queue.another::<DrainsShort>(pass);
            return true;
        }
        false
    }

    fn take_up_to<R: Wait>(&self, rt: &R, pass: &mut SegPass<Post, Hand>, taken: &mut Vec<Post>)
        requires pass { IsSegPassOf self.now.queue pass.old × ((view pass.old).runs ≡ true) × ((view pass.old).known ≡ []) }
        requires room { (taken.old.items ≡ []) × (64 ≤ vec_capacity taken.old) }
        ensures pass { IsSegPassOf self.now.queue pass.new × ((view pass.new).runs ≡ true) × ((view pass.new).known ≡ []) × ((view pass.new).count ≡ (view pass.old).count) }
        ensures len { vec_len taken.new ≤ 64 }
        ensures ran { (view pass.new).ran ≡ (view pass.old).ran ++ taken.new.items }
        ensures in_order { AreNumbered (view pass.new).ran }
        ensures allowed { All IsAllowed taken.new.items }
        ensures pops { (view pass.new).pops ≡ (view pass.old).pops + pops_for (vec_len taken.new) }
        ensures drains { (view pass.new).drains ≡ (view pass.old).drains + 1 }
    {
        for _ in 0..BATCH {
            match self.queue.pop_as::<Pops, R>(rt, pass) {
                Some(post) => taken.push_reserved(post),
                None => {
                    self.queue.another::<DrainsShort>(pass);
                    return;
                }
            }
        }
        self.queue.another::<DrainsFull>(pass);
    }
}
