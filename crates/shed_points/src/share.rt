// The share of what arrives at a point that is shed.
ghost use Rattle.proxy_config.specs.declared.overload.Point.{Point};
ghost use Rattle.proxy_config.specs.declared.overload.ShedRow.{ShedRow};
ghost use Rattle.flow_notes.specs.declared.events.Event.{Event};
ghost use Rattle.shed_points.specs.Shedding.{judged, shed_at, sum_at};
ghost use Rattle.std.specs.Prelude.{◌≡◌, ◌/◌, ◌<◌, ◌≤◌, List};

use crate::verdict::Verdict;
use proxy_config::Point;

/// A whole, in parts per million.
const WHOLE: u32 = 1_000_000;

/// What is shed of the arrivals at a point: of each as much as the point's state says. These parts are added, and the arrival by
/// which a whole is reached is shed.
#[derive(Clone, Copy)]
pub struct Share {
    /// The point's state, in parts per million.
    pub state: u32,
    /// The sum of the states at the arrivals so far, without the wholes that were shed.
    pub rest: u32,
    ghost most: { state ≤ 1000000 },
    ghost below: { rest < 1000000 },
}

impl Share {
    ghost use Rattle.std.specs.Prelude.{◌≡◌, ◌+◌, ◌%◌, ◌≤◌, if◌then◌else◌, nat_le};
    ghost use Rattle.shed_points.specs.declared.verdict.Verdict.TheVariants as verdict;

    /// Nothing is shed.
    pub fn none() -> Self
        ensures state { result.state ≡ 0 }
        ensures rest { result.rest ≡ 0 }
    {
        Share { state: 0, rest: 0 }
    }

    /// The same sum, under another state.
    pub fn under(self, state: u32) -> Self
        requires { state ≤ 1000000 }
        ensures state { result.state ≡ state }
        ensures rest { result.rest ≡ self.rest }
    {
        Share {
            state,
            rest: self.rest,
        }
    }

    /// Whether the next arrival is shed.
    pub fn is_due(self) -> bool
        ensures { result ≡ nat_le 1000000 (self.rest + self.state) }
    {
        self.rest + self.state >= WHOLE
    }

    /// One arrives at the point.
    pub fn arrive(&mut self, point: Point) -> Verdict
        ensures verdict { result ≡ (if nat_le 1000000 (self.old.rest + self.old.state) then verdict.Shed point self.old.state else verdict.Pass) }
        ensures rest { self.new.rest ≡ (self.old.rest + self.old.state) % 1000000 }
        ensures state { self.new.state ≡ self.old.state }
    {
        let state = self.state;
        let sum = self.rest + state;
        if sum < WHOLE {
            self.rest = sum;
            return Verdict::Pass;
        }
        self.rest = sum - WHOLE;
        Verdict::Shed { point, state }
    }
}

/// At each point as many arrivals are shed as there are wholes in the sum of its states at all arrivals so far.
pub fn shares_are_counted()
    ensures { (rows : List ShedRow) (p : Point) (es : List Event) → shed_at p (judged rows es) ≡ sum_at rows p (judged rows es) / 1000000 }
{}
