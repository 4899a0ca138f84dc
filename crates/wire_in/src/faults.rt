// Faults that a frame shows.
ghost use Rattle.std.specs.Prelude.{◌≡◌, ◌≤◌, ◌<◌, ◌+◌, ◌*◌, OnOk};
ghost use Rattle.wire_state.specs.Agenda.{top_go};
ghost use Rattle.wire_state.specs.Noting.{Appends};
ghost use Rattle.wire_state.specs.Progress.{to_go};
ghost use Rattle.wire_state.specs.Sound.{IsSound};
ghost use Rattle.wire_state.specs.Worlds.{Goes, Keeps, KeepsOk};

use flow_notes::{Cause, CloseCause, Note, Notes};
use h2_frames::codes::{COMPRESSION_ERROR, FLOW_CONTROL_ERROR};
use io_ports::NoMemory;
use wire_ends::{Origin, close, doom, put_reset};
use wire_inlet::Reading;
use wire_state::{Course, Task, WireCore, note};

/// A connection error (RFC 9113 section 5.4.1).
#[cold]
#[inline(never)]
pub(crate) fn close_with(
    core: &mut WireCore,
    number: u32,
    code: u32,
    notes: &mut Notes,
) -> Result<(), NoMemory>
    requires sound { IsSound core.old }
    ensures sound { OnOk result (IsSound core.new) }
    ensures go { OnOk result (to_go core.new ≤ to_go core.old) }
    ensures notes { Appends notes.old notes.new }
    ensures octets { Goes result core.old notes.old core.new notes.new }
{
    close(core, number, code, CloseCause::Protocol, notes)
}

/// A stream error (RFC 9113 section 5.4.2).
#[derive(Clone, Copy)]
pub(crate) struct StreamFault {
    stream: u32,
    code: u32,
    /// The flow-controlled octets of its frame.
    content: u32,
    concerns: Concerns,
}

/// Which flow of the stream's exchange the frame of a stream error concerns.
#[derive(Clone, Copy)]
pub(crate) enum Concerns {
    /// That which comes from the stream.
    Incoming,
    /// That which goes to it: the frame was a WINDOW_UPDATE.
    Outgoing,
}

impl Concerns {
    /// By whether the frame was a WINDOW_UPDATE.
    pub(crate) fn of(is_update: bool) -> Self {
        if is_update {
            Concerns::Outgoing
        } else {
            Concerns::Incoming
        }
    }
}

/// A stream error with this code, of a frame with so many flow-controlled octets.
pub(crate) fn stream_fault(stream: u32, code: u32, content: u32, concerns: Concerns) -> StreamFault
    ensures { result.content ≡ content }
{
    StreamFault {
        stream,
        code,
        content,
        concerns,
    }
}

impl StreamFault {
    /// A frame that is a stream error: its content counts at the connection, and its block is read.
    #[cold]
    #[inline(never)]
    pub(crate) fn take(
        self,
        core: &mut WireCore,
        number: u32,
        reading: Reading,
        notes: &mut Notes,
    ) -> Result<(), NoMemory>
        requires sound { IsSound core.old }
        ensures sound { OnOk result (IsSound core.new) }
        ensures go { OnOk result (to_go core.new ≤ to_go core.old + 17 + 4 * self.content) }
        ensures notes { Appends notes.old notes.new }
        ensures octets { Goes result core.old notes.old core.new notes.new }
    {
        if self.content > 0 && !counts_late(core, number, self.content) {
            return close_with(core, number, FLOW_CONTROL_ERROR, notes);
        }
        if let Reading::Refused = reading {
            return close_with(core, number, COMPRESSION_ERROR, notes);
        }
        self.run_concerned(core, number)?;
        self.end(core, number, notes)
    }

    // The flow that the frame concerns is run, if there is one.
    fn run_concerned(self, core: &mut WireCore, number: u32) -> Result<(), NoMemory>
        requires sound { IsSound core.old }
        ensures sound { OnOk result (IsSound core.new) }
        ensures go { OnOk result (to_go core.new ≤ to_go core.old + 9) }
        ensures octets { KeepsOk result core.old core.new }
    {
        match self.concerned(core, number) {
            Some(course) => core.ask_run(course),
            None => Ok(()),
        }
    }

    fn concerned(&self, core: &WireCore, number: u32) -> Option<Course> {
        match self.concerns {
            Concerns::Incoming => core.flow_from(number, self.stream),
            Concerns::Outgoing => core.flow_to(number, self.stream),
        }
    }

    /// The exchange of the stream is doomed, or the stream is reset where it has none; then the content that was counted is
    /// owed to the connection.
    #[cold]
    #[inline(never)]
    pub(crate) fn end(
        self,
        core: &mut WireCore,
        number: u32,
        notes: &mut Notes,
    ) -> Result<(), NoMemory>
        requires sound { IsSound core.old }
        ensures sound { OnOk result (IsSound core.new) }
        ensures go { OnOk result (to_go core.new ≤ to_go core.old + 8) }
        ensures notes { Appends notes.old notes.new }
        ensures octets { Goes result core.old notes.old core.new notes.new }
    {
        self.waste_later(core, number)?;
        if let Some(course) = core.flow_from(number, self.stream) {
            let cause = Cause::StreamError { code: self.code };
            return doom(
                core,
                course.flow.exchange,
                cause,
                Origin::of(course.flow),
                notes,
            );
        }
        if is_ignored(core, number, self.stream) {
            return Ok(());
        }
        put_reset(core, number, self.stream, self.code)
    }

    // The content that was counted is owed next.
    fn waste_later(self, core: &mut WireCore, number: u32) -> Result<(), NoMemory>
        requires sound { IsSound core.old }
        ensures sound { OnOk result (IsSound core.new) }
        ensures go { OnOk result (to_go core.new ≤ to_go core.old + 2) }
        ensures octets { KeepsOk result core.old core.new }
    {
        if self.content == 0 {
            return Ok(());
        }
        core.begin(Task::Waste {
            conn: number,
            stream: self.stream,
            n: self.content,
        })
    }
}

// Whether frames on a stream are ignored: it came after the GOAWAY.
fn is_ignored(core: &WireCore, number: u32, stream: u32) -> bool {
    match core.conns.get(&number) {
        Some(conn) => conn.is_later(stream),
        None => true,
    }
}

/// Counts octets that belong to no live stream at the connection. False where they are more than its window has left.
pub(crate) fn counts_late(core: &mut WireCore, number: u32, n: u32) -> bool
    requires sound { IsSound core.old }
    ensures sound { IsSound core.new }
    ensures go { to_go core.new ≤ to_go core.old + 4 * n }
    ensures rest { core.new ≡ record core.old { conns = core.new.conns } }
    ensures octets { Keeps core.old core.new }
{
    match core.conns.get_mut(&number) {
        Some(conn) => conn.late(n).is_ok(),
        None => true,
    }
}

/// The task Waste: octets that were counted and entered no buffer are owed to the connection, while it is open.
pub fn waste(
    core: &mut WireCore,
    number: u32,
    stream: u32,
    n: u32,
    notes: &mut Notes,
) -> Result<(), NoMemory>
    requires sound { IsSound core.old }
    requires top { top_go core.old.agenda ≡ 2 }
    ensures sound { OnOk result (IsSound core.new) }
    ensures go { OnOk result (to_go core.new < to_go core.old) }
    ensures notes { Appends notes.old notes.new }
    ensures octets { Goes result core.old notes.old core.new notes.new }
{
    core.end_task();
    owe(core, number, stream, n, notes)
}

/// Octets that were counted and entered no buffer are owed to the connection, while it is open.
#[cold]
#[inline(never)]
pub(crate) fn owe(
    core: &mut WireCore,
    number: u32,
    stream: u32,
    n: u32,
    notes: &mut Notes,
) -> Result<(), NoMemory>
    requires sound { IsSound core.old }
    ensures sound { OnOk result (IsSound core.new) }
    ensures go { OnOk result (to_go core.new ≤ to_go core.old + 1) }
    ensures notes { Appends notes.old notes.new }
    ensures octets { Goes result core.old notes.old core.new notes.new }
{
    let n = n.min(strays(core, number));
    if n == 0 {
        return Ok(());
    }
    wasted(core, number, n);
    core.stir(number)?;
    note(
        notes,
        Note::Waste {
            conn: number,
            stream,
            n,
        },
    )
}

// The octets that may be owed to an open connection alone.
fn strays(core: &WireCore, number: u32) -> u32 {
    match core.conns.get(&number) {
        Some(conn) if conn.open => conn.windows.recv.stray(),
        _ => 0,
    }
}

fn wasted(core: &mut WireCore, number: u32, n: u32)
    requires sound { IsSound core.old }
    ensures sound { IsSound core.new }
    ensures go { to_go core.new ≤ to_go core.old }
    ensures octets { Keeps core.old core.new }
{
    match core.conns.get_mut(&number) {
        Some(conn) => conn.wasted(n),
        None => {}
    }
}
