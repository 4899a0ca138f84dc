// What plays the lines of a session.
ghost use Rattle.std.specs.Prelude.{◌≡◌, Bool, List, ℕ, OnErr, OnOk};
ghost use Rattle.session_run.specs.Kinds.{kind_of};
ghost use Rattle.session_run.specs.Players.{AddsSummary, IsPlaying, PlaysLine};

use io_ports::{NoMemory, Octets};

/// How a line went.
#[derive(Clone, Copy, PartialEq, Eq)]
pub enum Went {
    /// It was read, and its event was dispatched.
    On,
    /// It breaks the grammar or the order.
    Refused,
}

/// What plays the lines of a session, one after another, and tells what comes of them.
pub trait Player {
    /// It stands for these octets of a configuration, these of the lines so far and how many lines they are, and this text of
    /// what came of them.
    ghost stands: { Self → List ℕ → List ℕ → ℕ → List ℕ → Type 0 };

    /// The line isn't one that may come next.
    ghost refuses: { Self → List ℕ → Type 0 };

    /// The session may end behind the lines so far.
    ghost can_end: { Self → Bool };

    /// The text is the summary of what came of the lines so far.
    ghost sums: { Self → List ℕ → Type 0 };

    /// Plays the next line, given without its newline, and appends the lines of its notes. Where it doesn't go on, the text is
    /// as it was. Running out of memory leaves the text as it was too.
    fn line(&mut self, line: &[u8], text: &mut Octets) -> Result<Went, NoMemory>
        requires { IsPlaying (kind_of stands refuses can_end sums) self.old }
        ensures { PlaysLine (kind_of stands refuses can_end sums) self.old line.now text.old self.new text.new result };

    /// Whether the session may end behind the lines so far.
    fn may_end(&self) -> bool
        ensures { result ≡ can_end self.now };

    /// Appends the summary. After running out of memory the text is as it was.
    fn summarize(&mut self, text: &mut Octets) -> Result<(), NoMemory>
        ensures ok { OnOk result (AddsSummary (kind_of stands refuses can_end sums) self.old text.old text.new) }
        ensures err { OnErr result (text.new ≡ text.old) };
}
