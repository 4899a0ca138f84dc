// The rights to post and to run.
ghost use Rattle.std.specs.Prelude.{◌≡◌, true, length, [], ◌<◌, ◌++◌, ◌∷◌, IfSome, MatchOption};
ghost use Rattle.post_queue.specs.Pass.{view};

use crate::hand::Hand;
use crate::posts::Post;
use crossbeam_queue::SegPass;

/// The right to post into one box under one number.
#[derive(Drop)]
pub struct PosterPass {
    pub(crate) pass: SegPass<Post, Hand>,
    pub(crate) poster: u32,
    pub(crate) next: u64,
    ghost posts: { (view pass).posts ≡ true },
    ghost poster_is: { (view pass).number ≡ poster },
    ghost next_is: { length (view pass).made ≡ next },
}

/// The right to run what is posted into one box.
#[derive(Drop)]
pub struct RunnerPass {
    pub(crate) pass: SegPass<Post, Hand>,
    pub(crate) taken: u64,
    ghost runs: { (view pass).runs ≡ true },
    ghost none_ended: { (view pass).known ≡ [] },
    ghost taken_is: { length (view pass).ran ≡ taken },
}

/// The passes of a box's posters that are not given out.
#[derive(Drop)]
pub struct PosterPasses {
    pub(crate) passes: Vec<PosterPass>,
}

impl PosterPass {
    /// The queue's own pass. Its view has the poster's number, the jobs that it posted, and how many posts were
    /// answered.
    pub fn pass(&self) -> &SegPass<Post, Hand>
        ensures { result.now ≡ self.now.pass }
    {
        &self.pass
    }
}

impl RunnerPass {
    /// The queue's own pass. Its view has the posts that were run, and how many pops and drains there were.
    pub fn pass(&self) -> &SegPass<Post, Hand>
        ensures { result.now ≡ self.now.pass }
    {
        &self.pass
    }
}

impl PosterPasses {
    ghost use Rattle.post_queue.specs.Clauses.{passes_in, room_in, AreInPlace};

    /// The pass of a poster, the last in the list. None exactly where all were given out. While the passes lie as `new`
    /// made them, the one that is given has the greatest number of those left.
    pub fn take_one(&mut self) -> Option<PosterPass>
        ensures one { MatchOption result
            ((passes_in self.old ≡ []) × (passes_in self.new ≡ []))
            (λ p. passes_in self.old ≡ passes_in self.new ++ p ∷ []) }
        ensures room { room_in self.new ≡ room_in self.old }
        ensures places { AreInPlace (passes_in self.old) → AreInPlace (passes_in self.new) × IfSome result (λ p. p.poster ≡ length (passes_in self.new)) }
    {
        self.passes.pop()
    }

    /// Puts a pass back. There is room for as many as the box has posters.
    pub fn give_back(&mut self, pass: PosterPass)
        requires room { length (passes_in self.old) < room_in self.old }
        ensures last { passes_in self.new ≡ passes_in self.old ++ pass ∷ [] }
        ensures room { room_in self.new ≡ room_in self.old }
    {
        self.passes.push_reserved(pass);
    }
}
