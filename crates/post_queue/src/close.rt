// The end of a box.
ghost use Rattle.std.specs.Prelude.{◌≡◌, ◌+◌, ◌<◌, ◌≤◌, ◌++◌, [], true, length, vec_capacity, All, IfSome, MatchResult};
ghost use Rattle.crossbeam_queue.specs.SegTies.{IsSegPassOf};
ghost use Rattle.post_queue.specs.Pass.{view};
ghost use Rattle.post_queue.specs.Rule.{total, made_by_ended};
ghost use Rattle.post_queue.specs.Steps.{Accounts};
ghost use Rattle.post_queue.specs.Clauses.{IsPosterOf, IsRunnerOf, made_by, ran_by, passes_in, KnowsOf, IsAllOf};

use crate::hand::Hand;
use crate::passes::{PosterPass, PosterPasses, RunnerPass};
use crate::post_box::{Line, PostBox};
use crate::posts::{Post, PostList};
use crate::rule::{Ends, Pops};
use crossbeam_queue::SegPass;
use io_ports::NoMemory;
use std::alloc::Global;
use std::sync::Wait;

// How many jobs the posters posted, unless these are more than the greatest u64.
fn count_made(passes: &[PosterPass]) -> Option<u64>
    ensures { IfSome result (λ n. n ≡ total (λ p. length (made_by p)) passes.now) }
{
    let mut made: u64 = 0;
    let mut rest = passes;
    while let [first, others @ ..] = rest {
        made = made.checked_add(first.next)?;
        rest = others;
    }
    Some(made)
}

// Takes in what each poster made, from the last to the first.
fn end_all(queue: &Line, runner: &mut SegPass<Post, Hand>, mut passes: Vec<PosterPass>)
    requires runner { IsSegPassOf queue.now runner.old × ((view runner.old).runs ≡ true) × ((view runner.old).known ≡ []) }
    requires each { All (λ p. IsSegPassOf queue.now p.pass) passes.items }
    ensures runner { IsSegPassOf queue.now runner.new × ((view runner.new).runs ≡ true) × ((view runner.new).ran ≡ (view runner.old).ran) × ((view runner.new).count ≡ (view runner.old).count) }
    ensures known { All (KnowsOf (view runner.new)) passes.items }
    ensures all { (length (view runner.new).known ≡ length passes.items) × (made_by_ended (view runner.new).known ≡ total (λ p. length (made_by p)) passes.items) }
{
    while let Some(poster) = passes.pop() {
        let PosterPass { pass, .. } = poster;
        queue.absorb::<Ends>(runner, pass);
    }
}

// Takes all that the queue holds, where there is room for what the posters made.
fn take_all<R: Wait>(rt: &R, queue: &Line, runner: &mut SegPass<Post, Hand>, rest: &mut Vec<Post>)
    requires runner { IsSegPassOf queue.now runner.old × ((view runner.old).runs ≡ true) }
    requires all { length (view runner.old).known ≡ (view runner.old).count }
    requires room { (rest.old.items ≡ []) × (made_by_ended (view runner.old).known ≤ length (view runner.old).ran + vec_capacity rest.old) }
    ensures ran { ((view runner.new).ran ≡ (view runner.old).ran ++ rest.new.items) × ((view runner.new).known ≡ (view runner.old).known) }
    ensures whole { Accounts (view runner.new) [] }
{
    for _ in rt.forever() {
        match queue.pop_as::<Pops, R>(rt, runner) {
            Some(post) => rest.push_reserved(post),
            None => return,
        }
    }
    unreachable!()
}

impl PostBox {
    /// Ends the box, and hands back what was posted and not drained. All its posters' passes have to lie in the list.
    /// Its memory is taken first, for as many posts as were made and not drained: after `NoMemory` nothing was taken,
    /// and box and passes come back as they were.
    pub fn close<R: Wait>(
        self,
        rt: &R,
        alloc: Global,
        passes: PosterPasses,
        runner: RunnerPass,
    ) -> Result<PostList, (NoMemory, PostBox, PosterPasses, RunnerPass)>
        requires runner { IsRunnerOf self runner }
        requires each { All (IsPosterOf self) (passes_in passes) }
        requires all { length (passes_in passes) ≡ self.posters }
        ensures { MatchResult result
            (λ posts. All (IsAllOf (ran_by runner ++ posts)) (passes_in passes))
            (λ refusal. (refusal.1 ≡ self) × (refusal.2 ≡ passes) × (refusal.3 ≡ runner)) }
    {
        let Some(made) = count_made(passes.passes.as_slice()) else {
            return Err((NoMemory, self, passes, runner));
        };
        let left = made.saturating_sub(runner.taken) as usize;
        let Ok(mut posts) = Vec::with_capacity(alloc, left) else {
            return Err((NoMemory, self, passes, runner));
        };
        let PosterPasses { passes } = passes;
        let RunnerPass { mut pass, .. } = runner;
        end_all(&self.queue, &mut pass, passes);
        take_all(rt, &self.queue, &mut pass, &mut posts);
        Ok(PostList { posts })
    }
}
