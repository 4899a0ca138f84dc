// Why a replay ends as it does.
ghost use Rattle.std.specs.Prelude.{OnErr, OnOk};
ghost use Rattle.flow_notes.specs.Extends.{Extends};

use config_tables::ConfigFault;
use io_ports::{NoMemory, Octets};
use line_faults::LineFault;
use session_config::put_config_fault;
use session_run::Status;
use std::alloc::Global;
use std::fmt::Display;

/// How a replay ended, and why.
#[derive(Drop)]
pub struct Outcome {
    pub status: Status,
    pub reason: Reason,
}

/// Why a replay ended.
#[derive(Drop)]
pub enum Reason {
    /// The session was replayed to its end.
    Done,
    /// The words have no form.
    Words,
    /// The configuration is refused.
    Config(ConfigFault),
    /// The configuration is refused, and it isn't known why.
    SomeConfig,
    /// The configuration has more than 1,048,576 octets.
    LongConfig,
    /// The configuration couldn't be read.
    ConfigRead,
    /// A line is refused.
    Line(LineFault),
    /// A line is refused, and there was no memory to say why.
    SomeLine,
    /// The session has more than 67,108,864 octets.
    LongSession,
    /// The session couldn't be read.
    SessionRead,
    /// The output couldn't be written.
    Write,
    /// Out of memory.
    Memory,
}

impl Reason {
    /// That of a status, without a line that is to be told.
    pub fn of_status(status: Status) -> Self {
        match status {
            Status::Done => Reason::Done,
            Status::Usage => Reason::Words,
            Status::Config => Reason::SomeConfig,
            Status::Session => Reason::SomeLine,
            Status::ReadFault => Reason::SessionRead,
            Status::WriteFault => Reason::Write,
            Status::Memory => Reason::Memory,
            Status::TooLong => Reason::LongSession,
        }
    }

    /// That of a status, with what is wrong with the line at which the session was refused, if it was.
    pub fn of_line(status: Status, fault: Option<LineFault>) -> Self {
        match (status, fault) {
            (Status::Session, Some(fault)) => Reason::Line(fault),
            _ => Reason::of_status(status),
        }
    }
}

/// Appends why a replay ended, in one line without its newline; nothing where it was replayed to its end, or the words have no
/// form. Running out of memory may leave some of it. Proved is that what stood there stays in front.
pub fn put_reason(alloc: Global, reason: &Reason, into: &mut Octets) -> Result<(), NoMemory>
    ensures ok { OnOk result (Extends into.old into.new) }
    ensures err { OnErr result (Extends into.old into.new) }
{
    match reason {
        Reason::Done => Ok(()),
        Reason::Words => Ok(()),
        Reason::Config(fault) => put_config_fault(fault, into),
        Reason::SomeConfig => into.push_all(b"the configuration is refused"),
        Reason::LongConfig => into.push_all(b"the configuration has more than 1,048,576 octets"),
        Reason::ConfigRead => into.push_all(b"the configuration can't be read"),
        Reason::Line(fault) => put_line(alloc, fault, into),
        Reason::SomeLine => into.push_all(b"the session is refused"),
        Reason::LongSession => into.push_all(b"the session has more than 67,108,864 octets"),
        Reason::SessionRead => into.push_all(b"the session can't be read"),
        Reason::Write => into.push_all(b"the output can't be written"),
        Reason::Memory => into.push_all(b"out of memory"),
    }
}

fn put_line(alloc: Global, fault: &LineFault, into: &mut Octets) -> Result<(), NoMemory>
    ensures ok { OnOk result (Extends into.old into.new) }
    ensures err { OnErr result (Extends into.old into.new) }
{
    let text = fault.to_string(alloc)?;
    into.push_all(text.as_bytes())
}
