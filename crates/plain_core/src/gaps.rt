// Gaps among the exchanges that hold octets, by which a row of exchanges is gone over with few look-ups.
ghost use Rattle.plain_core.specs.Carries.{Holds};
ghost use Rattle.plain_core.specs.Gaps.{IsFirstHeld, IsGap};

use crate::flows::Flows;

/// The exchanges from `from` to before `to`.
#[derive(Clone, Copy, PartialEq, Eq)]
pub struct Gap {
    pub from: u64,
    pub to: u64,
}

impl Flows {
    /// Whether the receive buffer of a live exchange holds octets. In the gap none does; where the exchange lies outside,
    /// the gap becomes the one that begins there.
    pub(crate) fn holds_past(&self, gap: &mut Gap, exchange: u64) -> bool
        requires { IsGap self.now gap.old }
        ensures holds { Holds self.now exchange result }
        ensures gap { IsGap self.now gap.new }
    {
        if gap.from <= exchange && exchange < gap.to {
            return false;
        }
        let Some(held) = self.first_held(exchange) else {
            *gap = Gap {
                from: exchange,
                to: u64::MAX,
            };
            return false;
        };
        *gap = Gap {
            from: exchange,
            to: held,
        };
        held == exchange
    }

    // The first exchange from this one on whose receive buffer holds octets.
    fn first_held(&self, exchange: u64) -> Option<u64>
        ensures { IsFirstHeld self.now exchange result }
    {
        self.holding.range(exchange..).next().copied()
    }
}
