// What a note is told of.
ghost use Rattle.std.specs.Prelude.{◌≡◌};
ghost use Rattle.tape_plot.specs.Subjects as spec;

use flow_notes::{Event, Note};

/// What is kept goes on with a note of it.
#[derive(Clone, Copy, PartialEq, Eq)]
pub enum Subject {
    /// The flows of an exchange, or its doom.
    Exchange(u64),
    /// The write buffer of a connection, or its end.
    Connection(u32),
    Nothing,
}

/// What a note is told of. A frame is told of its exchange, from which its octets come.
pub fn subject_of(note: &Note) -> Subject
    ensures { result ≡ spec.subject_of note.now }
{
    match note {
        Note::Start { exchange, .. } => Subject::Exchange(*exchange),
        Note::Arrive { flow, .. } => Subject::Exchange(flow.exchange),
        Note::Move { flow, .. } => Subject::Exchange(flow.exchange),
        Note::Frame { flow, .. } => Subject::Exchange(flow.exchange),
        Note::Pause { flow, .. } => Subject::Exchange(flow.exchange),
        Note::Resume { flow, .. } => Subject::Exchange(flow.exchange),
        Note::Doom { exchange, .. } => Subject::Exchange(*exchange),
        Note::Head { conn, .. } => Subject::Connection(*conn),
        Note::Answer { conn, .. } => Subject::Connection(*conn),
        Note::Credit { conn, .. } => Subject::Connection(*conn),
        Note::Out { conn, .. } => Subject::Connection(*conn),
        Note::Close { conn, .. } => Subject::Connection(*conn),
        Note::Turn {
            event: Event::Gone { conn },
            ..
        } => Subject::Connection(*conn),
        _ => Subject::Nothing,
    }
}
