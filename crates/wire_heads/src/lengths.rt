// How long the body of a message has to be.
ghost use Rattle.std.specs.Prelude.{◌≡◌, ◌<◌, ◌+◌, ◌-◌, ◌^◌, ℕ, min, None, Some};
ghost use Rattle.std.specs.Option.{ForSome};
ghost use Rattle.wire_heads.specs.Lengths.{fits};

/// How long the body of a message has to be, and how much of it came (RFC 9113 section 8.1.1).
#[derive(Clone, Copy, PartialEq, Eq)]
pub struct Expected {
    /// The content-length that the head named, in octets and below 2^63.
    pub declared: Option<u64>,
    /// The octets of the body that came so far. The count stands still at 2^64 - 1.
    pub body: u64,
    /// Whether the body may be empty whatever was declared: that of a response to HEAD or with
    /// status 204 or 304 (RFC 9110 section 8.6).
    pub bodiless: bool,
}

impl Expected {
    /// A body of which nothing came yet.
    pub(crate) fn begun(declared: Option<u64>, bodiless: bool) -> Self
        ensures { result ≡ record { declared = declared; body = 0; bodiless = bodiless } }
    {
        Expected {
            declared,
            body: 0,
            bodiless,
        }
    }

    /// Whether the octets so far are no more than was declared, and at the end of the body, which
    /// `last` says, as many.
    pub fn fits(&self, last: bool) -> bool
        ensures { result ≡ fits self.now last }
    {
        match self.declared {
            Some(length) => self.fits_length(length, last),
            None => true,
        }
    }

    fn fits_length(&self, length: u64, last: bool) -> bool
        ensures { result ≡ fits (record self.now { declared = Some length }) last }
    {
        let is_whole = self.body == length || self.bodiless && self.body == 0;
        self.body <= length && (!last || is_whole)
    }

    /// Counts `n` octets more, behind which the body ends where `last` says so, and says whether
    /// the body still fits: so a body that is too long is told at its first octet too many, and
    /// one that is too short at its end. The answer is right for the true count of octets,
    /// however large.
    pub fn grows(&mut self, n: usize, last: bool) -> bool
        ensures count { self.new ≡ record self.old { body = min (self.old.body + n) (2 ^ 64 - 1) } }
        ensures answer { result ≡ fits self.new last }
        // The true count of the octets before is `came`.
        ensures exact { (came : ℕ) → self.old.body ≡ min came (2 ^ 64 - 1)
            → ForSome self.old.declared (λ length. length < 2 ^ 63)
            → (self.new.body ≡ min (came + n) (2 ^ 64 - 1))
            × (result ≡ fits (record self.old { body = came + n }) last) }
    {
        self.body = self.body.saturating_add(n as u64);
        self.fits(last)
    }
}
