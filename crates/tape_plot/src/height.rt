// How high buffers were.
ghost use Rattle.std.specs.Prelude.{◌≡◌};
ghost use Rattle.tape_plot.specs.Highest as spec;

/// How high a buffer was: in thousandths of its limit, where that is known and isn't 0, and else in octets.
#[derive(Clone, Copy, PartialEq, Eq)]
pub struct Height {
    is_limited: bool,
    height: u64,
}

impl Height {
    ghost use Rattle.std.specs.Prelude.{◌≡◌};
    ghost use Rattle.tape_plot.specs.Highest as spec;

    /// Of a buffer that held so many octets at most, with a limit, 0 where that isn't known.
    pub fn new(most: u64, limit: u64) -> Self
        ensures { result ≡ spec.against limit most }
    {
        if limit == 0 {
            return Height {
                is_limited: false,
                height: most,
            };
        }
        Height {
            is_limited: true,
            height: most.saturating_mul(1000) / limit,
        }
    }

    /// Whether it is higher: one with a limit is higher than one without.
    pub fn is_above(self, other: Height) -> bool
        ensures { result ≡ spec.is_higher self other }
    {
        if self.is_limited != other.is_limited {
            return self.is_limited;
        }
        self.height > other.height
    }
}
