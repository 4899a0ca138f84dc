// What of a flow goes next.
ghost use Rattle.std.specs.Prelude.{◌≡◌, ℕ};
ghost use Rattle.flow_rules.specs.Narrowed.{narrowed, octets_of, within};
ghost use Rattle.flow_rules.specs.State.{FlowState};
ghost use Rattle.flow_rules.specs.Units.{next_unit};

/// What of a flow goes next into the write buffer of its connection (RFC 9113 section 8.1).
#[derive(Clone, Copy, PartialEq, Eq)]
pub enum Unit {
    /// Nothing may go now.
    Nothing,
    /// Its head, with the flow's end where `last` holds.
    Head { last: bool },
    /// A DATA frame of `n` octets, with the flow's end where `last` holds.
    Body { n: u32, last: bool },
    /// Its trailers, with the flow's end.
    Trailers,
}

impl Unit {
    /// The unit of the same flow where the windows let only `room` octets go, below 0 as 0. So a unit that was found for a
    /// greater room needn't be found again: a DATA frame carries at most so many octets, and the end only where all of its
    /// own go; where it has some and none may go, it is `Nothing`. A head, trailers and an empty frame need no room.
    pub fn narrowed(self, room: i64) -> Unit
        ensures { result ≡ narrowed (octets_of room) self }
    {
        let Unit::Body { n, last } = self else {
            return self;
        };
        let most = u32::try_from(room.max(0)).unwrap_or(u32::MAX);
        if n > 0 && most == 0 {
            return Unit::Nothing;
        }
        Unit::Body {
            n: n.min(most),
            last: last && n <= most,
        }
    }
}

/// The next unit where a DATA frame may carry less is the one for more, narrowed to what it may carry. So a caller that kept
/// what goes next under one bound may frame it under a smaller one.
pub fn units_narrow()
    ensures { (most : ℕ) (flow : FlowState) → next_unit (within most flow) ≡ narrowed most (next_unit flow) }
{}
