// When a buffer is above its high watermark, and what it is called that this changes.
ghost use Rattle.std.specs.Prelude.{◌≡◌, ◌↔◌, ◌∷◌, ℕ, List, IsTrue, false};
ghost use Rattle.wm_buffer.specs.Watermark.{above_after, flag, crossing, IsAbove, Rises, Drains};

/// Which watermark a change crossed.
#[derive(Clone, Copy, Debug, PartialEq, Eq)]
pub enum Crossed {
    /// Neither.
    Nothing,
    /// The high one: the length has passed the limit.
    High,
    /// The low one: the buffer was above, and has drained to half the limit.
    Low,
}

/// A limit, and whether the length that it watches is above.
#[derive(Debug, Drop)]
pub struct Watermark {
    pub limit: u32,
    pub above: bool,
}

impl Watermark {
    pub fn new(limit: u32) -> Self
        ensures limit { result.limit ≡ limit }
        ensures above { result.above ≡ false }
    {
        Watermark {
            limit,
            above: false,
        }
    }

    /// Follows the length to `len`, and answers which watermark it crossed.
    ///
    /// With limit 8 the length is above from 9 octets on, still at 5, and no more at 4. With limit 1
    /// it is above from 2 octets on, still at 1, and no more at 0. With limit 0 it never is.
    pub fn follow(&mut self, len: usize) -> Crossed
        ensures limit { self.new.limit ≡ self.old.limit }
        ensures above { self.new.above ≡ above_after self.old.limit self.old.above len }
        ensures crossed { result ≡ crossing self.old.above self.new.above }
    {
        let was = self.above;
        self.above = self.is_above_at(len);
        match (was, self.above) {
            (false, true) => Crossed::High,
            (true, false) => Crossed::Low,
            _ => Crossed::Nothing,
        }
    }

    fn is_above_at(&self, len: usize) -> bool
        ensures { result ≡ above_after self.now.limit self.now.above len }
    {
        let limit = self.limit as usize;
        let mark = if self.above { limit / 2 } else { limit };
        limit != 0 && len > mark
    }
}

/// The flag that follows the lengths step by step is true exactly where the buffer is above, so the
/// crossings are exactly its rises and drains.
pub fn flag_is_watermark()
    ensures above { (limit : ℕ) (lengths : List ℕ) → IsTrue (flag limit lengths) ↔ IsAbove limit lengths }
    ensures high { (limit len : ℕ) (past : List ℕ) → (crossing (flag limit past) (flag limit (len ∷ past)) ≡ Crossed.High) ↔ Rises limit len past }
    ensures low { (limit len : ℕ) (past : List ℕ) → (crossing (flag limit past) (flag limit (len ∷ past)) ≡ Crossed.Low) ↔ Drains limit len past }
{}
