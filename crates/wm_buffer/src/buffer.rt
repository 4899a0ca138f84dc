// The buffer.
ghost use Rattle.std.specs.Prelude.{◌≡◌, ◌==◌, ◌<◌, ◌≤◌, ◌+◌, ◌^◌, ◌++◌, length, take, true, IsOk, OnOk, OnErr, IfNone, IfOk, IfSome};
ghost use Rattle.wm_buffer.specs.Watermark.{crossing};
ghost use Rattle.wm_buffer.specs.Buffer.{empty_buffer, AppendsOctets, DropsOctets, KeepsOctets, IsWithinMarks};

use crate::store::Store;
use crate::watermark::{Crossed, Watermark};
use io_ports::{NoMemory, Octets};
use std::alloc::Global;
use std::marker::Model;

/// What one move did to the buffer that it took from, and to the one that it went to.
#[derive(Clone, Copy, Debug, PartialEq, Eq)]
pub struct Shifted {
    /// Of the buffer that the octets left: low or nothing.
    pub from: Crossed,
    /// Of the buffer that they went to: high or nothing.
    pub to: Crossed,
}

/// Octets in order, with a high watermark at their limit and a low one at half of it.
///
/// It has places for 2^31 - 1 octets. An append that finds no place is out of memory.
#[derive(Debug, Drop)]
pub struct WatermarkBuffer {
    store: Store,
    watermark: Watermark,
}

impl Model for WatermarkBuffer {
    ghost use Rattle.wm_buffer.specs.Buffer.{Buffer, IsWithinMarks};

    ghost Value = { Buffer };

    ghost use Rattle.wm_buffer.specs.View.{buffer_of};

    ghost view = { buffer_of };

    ghost invariant = { λ b. IsWithinMarks (buffer_of b) };
}

impl WatermarkBuffer {
    /// An empty buffer, not above. It takes no memory until octets come or room is made.
    pub fn new(alloc: Global, limit: u32) -> Self
        ensures { result ≡ empty_buffer limit }
    {
        WatermarkBuffer {
            store: Store::new(alloc),
            watermark: Watermark::new(limit),
        }
    }

    /// Makes room for all octets up to the limit and `unit` more, so that until then no append takes
    /// memory.
    pub fn ready(&mut self, unit: u32) -> Result<(), NoMemory>
        requires { self.old.limit + unit < 2 ^ 31 }
        ensures keeps { KeepsOctets self.old self.new }
        ensures room { OnOk result (self.new.limit + unit ≤ length self.new.octets + self.new.spare) }
        ensures covered { self.old.limit + unit ≤ length self.old.octets + self.old.spare → IsOk result }
        ensures err { OnErr result (self.new ≡ self.old) }
    {
        let wanted = self.watermark.limit as usize + unit as usize;
        let missing = wanted.saturating_sub(self.store.len());
        self.store.reserve(missing)
    }

    /// Appends a piece, and answers high where this made the buffer above. Where there is room for the
    /// piece, it takes no memory.
    pub fn add(&mut self, piece: &[u8]) -> Result<Crossed, NoMemory>
        ensures appends { OnOk result (AppendsOctets self.old self.new piece.now) }
        ensures crossed { IfOk result (λ crossed. crossed ≡ crossing self.old.above self.new.above) }
        ensures covered { length piece.now ≤ self.old.spare → IsOk result }
        ensures err { OnErr result (self.new ≡ self.old) }
    {
        self.store.reserve(piece.len())?;
        self.store.append(piece);
        Ok(self.watermark.follow(self.store.len()))
    }

    /// As `add`, where octets that share a block may stay there: where none are before them none is copied.
    pub fn add_octets(&mut self, piece: &Octets) -> Result<Crossed, NoMemory>
        ensures appends { OnOk result (AppendsOctets self.old self.new piece.now) }
        ensures crossed { IfOk result (λ crossed. crossed ≡ crossing self.old.above self.new.above) }
        ensures covered { length piece.now ≤ self.old.spare → IsOk result }
        ensures err { OnErr result (self.new ≡ self.old) }
    {
        self.store.reserve(piece.len())?;
        self.store.take_in(piece);
        Ok(self.watermark.follow(self.store.len()))
    }

    /// Drops the first n octets, keeps their room, and answers low where the buffer was above and has
    /// drained.
    pub fn take(&mut self, n: u32) -> Crossed
        requires { n ≤ length self.old.octets }
        ensures drops { DropsOctets self.old self.new n }
        ensures crossed { result ≡ crossing self.old.above self.new.above }
    {
        self.store.drop_front(n as usize);
        self.watermark.follow(self.store.len())
    }

    /// Appends `head` and then the first n octets of this buffer to another as one change, and drops
    /// them here. Where the other has room for both, it takes no memory.
    pub fn move_to(
        &mut self,
        to: &mut WatermarkBuffer,
        head: &[u8],
        n: u32,
    ) -> Result<Shifted, NoMemory>
        requires { n ≤ length self.old.octets }
        ensures drops { OnOk result (DropsOctets self.old self.new n) }
        ensures appends { OnOk result (AppendsOctets to.old to.new (head.now ++ take n self.old.octets)) }
        ensures from { IfOk result (λ shifted. shifted.from ≡ crossing self.old.above self.new.above) }
        ensures to { IfOk result (λ shifted. shifted.to ≡ crossing to.old.above to.new.above) }
        ensures covered { length head.now + n ≤ to.old.spare → IsOk result }
        ensures err { OnErr result ((self.new ≡ self.old) × (to.new ≡ to.old)) }
    {
        if head.is_empty() && n as usize == self.store.len() {
            if self.may_swap(to) {
                return Ok(self.swap_with(to));
            }
            if let Some(shifted) = self.lend_to(to) {
                return Ok(shifted);
            }
        }
        to.store.reserve(head.len().saturating_add(n as usize))?;
        to.store.append(head);
        to.store.append_first(&self.store, n as usize);
        let raised = to.watermark.follow(to.store.len());
        let drained = self.take(n);
        Ok(Shifted {
            from: drained,
            to: raised,
        })
    }

    // Whether another buffer is empty, and has room for as many octets as this one in all.
    fn may_swap(&self, to: &WatermarkBuffer) -> bool
        ensures empty { result ≡ true → length to.now.octets ≡ 0 }
        ensures room { result ≡ true → to.now.spare ≡ length self.now.octets + self.now.spare }
    {
        to.is_empty() && to.store.places() == self.store.places()
    }

    // All octets go to such a buffer, by an exchange of the rings. None is copied.
    fn swap_with(&mut self, to: &mut WatermarkBuffer) -> Shifted
        requires empty { length to.old.octets ≡ 0 }
        requires room { to.old.spare ≡ length self.old.octets + self.old.spare }
        ensures drops { DropsOctets self.old self.new (length self.old.octets) }
        ensures appends { AppendsOctets to.old to.new self.old.octets }
        ensures from { result.from ≡ crossing self.old.above self.new.above }
        ensures to { result.to ≡ crossing to.old.above to.new.above }
    {
        self.store.swap(&mut to.store);
        let raised = to.watermark.follow(to.store.len());
        let drained = self.watermark.follow(self.store.len());
        Shifted {
            from: drained,
            to: raised,
        }
    }

    // All octets go to another buffer as they lie, where they lie in a block of others, and it is empty and has room for them.
    // None is copied. Where they don't, the answer is None, and nothing has changed.
    fn lend_to(&mut self, to: &mut WatermarkBuffer) -> Option<Shifted>
        ensures drops { IfSome result (λ shifted. DropsOctets self.old self.new (length self.old.octets)) }
        ensures appends { IfSome result (λ shifted. AppendsOctets to.old to.new self.old.octets) }
        ensures from { IfSome result (λ shifted. shifted.from ≡ crossing self.old.above self.new.above) }
        ensures to { IfSome result (λ shifted. shifted.to ≡ crossing to.old.above to.new.above) }
        ensures none { IfNone result ((self.new ≡ self.old) × (to.new ≡ to.old)) }
    {
        if !self.store.hand_over(&mut to.store) {
            return None;
        }
        let raised = to.watermark.follow(to.store.len());
        let drained = self.watermark.follow(self.store.len());
        Some(Shifted {
            from: drained,
            to: raised,
        })
    }

    /// A prefix of the octets, nonempty where they are. They stand in up to three parts, and this is the
    /// first that isn't empty.
    pub fn front(&self) -> &[u8]
        ensures prefix { result.now ≡ take (length result.now) self.now.octets }
        ensures nonempty { 0 < length self.now.octets → 0 < length result.now }
    {
        self.store.front()
    }

    /// The number of octets. With the room it is below 2^31.
    pub fn len(&self) -> u32
        ensures len { result ≡ length self.now.octets }
        ensures within { result + self.now.spare < 2 ^ 31 }
    {
        self.store.len() as u32
    }

    /// Whether there are no octets.
    pub fn is_empty(&self) -> bool
        ensures { result ≡ (length self.now.octets == 0) }
    {
        self.store.len() == 0
    }

    /// The high watermark. 0 is none.
    pub fn limit(&self) -> u32
        ensures { result ≡ self.now.limit }
    {
        self.watermark.limit
    }

    /// Whether the octets have passed the limit and haven't drained to half of it since.
    pub fn is_above(&self) -> bool
        ensures above { result ≡ self.now.above }
        ensures marks { IsWithinMarks self.now }
    {
        self.watermark.above
    }
}
