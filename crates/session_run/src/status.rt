// How a replay ends.

/// How a replay ends, and the code that the program then exits with.
#[derive(Clone, Copy, Debug, PartialEq, Eq)]
pub enum Status {
    /// The session was replayed to its end.
    Done,
    /// The words have no form.
    Usage,
    /// The configuration is refused.
    Config,
    /// A line breaks the grammar or the order.
    Session,
    /// The source failed.
    ReadFault,
    /// The sink failed, or took nothing.
    WriteFault,
    /// Out of memory.
    Memory,
    /// The session is longer than 67,108,864 octets, or the configuration than 1,048,576.
    TooLong,
}

impl Status {
    ghost use Rattle.std.specs.Prelude.{◌≡◌};
    ghost use Rattle.session_run.specs.Codes.{status_code};

    /// The exit code.
    pub fn code(self) -> u8
        ensures { result ≡ status_code self }
    {
        match self {
            Status::Done => 0,
            Status::Usage => 2,
            Status::Config => 3,
            Status::Session => 4,
            Status::ReadFault => 5,
            Status::WriteFault => 6,
            Status::Memory => 7,
            Status::TooLong => 9,
        }
    }
}
