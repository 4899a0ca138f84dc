// How Meters count their tokens.
ghost use Rattle.std.specs.Prelude.{◌≡◌, ◌+◌, ◌-◌, ◌*◌, ◌≤◌, min};
ghost use Rattle.filter_chain.specs.Effects.{whole_steps};

/// Every so many ms a Meter gains as many tokens as its rate.
const STEP: u64 = 50;

/// When the Meters of a chain started, and the last moment that it was told, in ms.
#[derive(Clone, Copy)]
pub struct Clock {
    pub started: u64,
    pub time: u64,
}

impl Clock {
    pub fn new(now: u64) -> Self
        ensures started { result.started ≡ now }
        ensures time { result.time ≡ now }
    {
        Clock {
            started: now,
            time: now,
        }
    }

    /// Goes on to `now`, and answers how many whole 50 ms since the start ended thereby.
    pub fn go_on(&mut self, now: u64) -> u64
        requires started { self.old.started ≤ self.old.time }
        requires later { self.old.time ≤ now }
        ensures started { self.new.started ≡ self.old.started }
        ensures time { self.new.time ≡ now }
        ensures steps { result ≡ whole_steps self.old.started now - whole_steps self.old.started self.old.time }
    {
        let before = (self.time - self.started) / STEP;
        self.time = now;
        (now - self.started) / STEP - before
    }
}

/// The tokens of a Meter after so many steps. One whole step fills it.
pub fn refilled_tokens(tokens: u32, rate: u32, steps: u64) -> u32
    ensures { result ≡ min rate (tokens + rate * steps) }
{
    let gained = if steps == 0 { 0 } else { rate };
    tokens.saturating_add(gained).min(rate)
}
