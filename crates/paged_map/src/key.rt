// What a value is found by.
ghost use Rattle.std.specs.Prelude.{◌≡◌, ◌<◌, ◌^◌, ℕ};

/// A number that values stand under.
pub trait Key: Copy {
    ghost number: { Self → ℕ };

    /// Each number is below it.
    ghost bound: { ℕ };

    /// The number.
    fn number(self) -> u64
        ensures number { result ≡ number self }
        ensures bound { result < bound };

    /// The key with a number.
    fn of(n: u64) -> Self
        requires { n < bound }
        ensures { number result ≡ n };
}

impl Key for u32 {
    ghost number = { λ n. n };

    ghost bound = { 2 ^ 32 };

    #[inline(always)]
    fn number(self) -> u64 {
        u64::from(self)
    }

    #[inline(always)]
    fn of(n: u64) -> Self {
        n as u32
    }
}

impl Key for u64 {
    ghost number = { λ n. n };

    ghost bound = { 2 ^ 64 };

    #[inline(always)]
    fn number(self) -> u64 {
        self
    }

    #[inline(always)]
    fn of(n: u64) -> Self {
        n
    }
}
