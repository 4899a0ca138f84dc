// What is read off a flow: what its places hold, and how many there are.
ghost use Rattle.std.specs.Prelude.{◌≡◌, ◌-◌, ◌<◌, ◌^◌, length, nat_lt};
ghost use Rattle.exchange_core.specs.Flow.{held_by, meters_hold, stages_of};
ghost use Rattle.filter_chain.specs.Release.{is_source_at};

use super::Flow;
use crate::message::Message;

impl Flow {
    /// The octets in all places.
    pub(crate) fn held(&self) -> u64
        ensures held { result ≡ held_by self.now }
        ensures bound { result < 2 ^ 36 }
    {
        let mut held = u64::from(self.recv.len());
        for index in 0..self.chain.places() {
            held += u64::from(self.chain.len(index + 1));
        }
        held
    }

    /// Whether some place holds octets. Mostly the receive buffer does, where any does.
    #[inline(always)]
    pub(crate) fn holds(&self) -> bool
        ensures { result ≡ nat_lt 0 (held_by self.now) }
    {
        !self.recv.is_empty() || self.held() > 0
    }

    /// Whether some Meter holds octets.
    pub(crate) fn meters_hold(&self) -> bool
        ensures { result ≡ meters_hold self.now }
    {
        for place in 1..self.chain.places() {
            if self.chain.is_source(place) && self.chain.len(place) > 0 {
                return true;
            }
        }
        false
    }

    /// The octets in the receive buffer.
    pub(crate) fn left(&self) -> u32
        ensures { result ≡ length self.now.recv }
    {
        self.recv.len()
    }

    /// How many octets more the receive buffer takes within its window.
    pub(crate) fn space(&self) -> u32
        ensures { result ≡ self.now.window - length self.now.recv }
    {
        self.window.saturating_sub(self.recv.len())
    }

    /// The number of its stages.
    pub(crate) fn stages(&self) -> u32
        ensures { result ≡ stages_of self.now }
    {
        self.chain.places() - 1
    }

    /// Whether a place pauses the flow while it is above: a Meter and the send buffer do, and no place that isn't there.
    pub(crate) fn is_source(&self, place: u32) -> bool
        ensures { result ≡ is_source_at self.now.chain place }
    {
        0 < place && place <= self.chain.places() && self.chain.is_source(place)
    }

    pub(crate) fn message(&self) -> &Message
        ensures { result.now ≡ self.now.message }
    {
        &self.message
    }
}
