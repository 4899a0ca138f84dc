// How wide columns are.
ghost use Rattle.std.specs.Prelude.{◌≤◌};

/// How many dispatches a column has, 1 at least.
#[derive(Clone, Copy, PartialEq, Eq)]
pub struct Width {
    turns: u64,
    ghost wide: { 1 ≤ turns },
}

impl Width {
    ghost use Rattle.std.specs.Prelude.{◌≡◌, ◌≤◌, ◌*◌, ◌/◌, IfSome};

    /// A column for each dispatch.
    pub fn one() -> Self
        ensures { result.turns ≡ 1 }
    {
        Width { turns: 1 }
    }

    /// How many dispatches a column has.
    pub fn turns(self) -> u64
        ensures value { result ≡ self.turns }
        ensures wide { 1 ≤ result }
    {
        self.turns
    }

    /// Twice as wide; none where that is past 2^64 - 1.
    pub fn doubled(self) -> Option<Self>
        ensures { IfSome result (λ width. width.turns ≡ self.turns * 2) }
    {
        let turns = self.turns.checked_mul(2)?;
        Some(Width { turns })
    }

    /// The column of a dispatch with so many before it that are drawn.
    pub fn column(self, behind: u64) -> u64
        ensures { result ≡ behind / self.turns }
    {
        behind / self.turns
    }
}
