//! Replays a session: reads its lines, dispatches its events, and writes the tape with its summary.
#![tactic(auto)]

mod config_end;
mod drill;
mod drill_run;
mod form;
mod play;
mod reason;
mod relay;
mod replaying;
mod shed;
mod tally;
mod text;
mod wire;

pub use config_end::end_at_config;
pub use drill::{Drill, Upcoming, drill_events};
pub use form::{Form, read_form};
pub use play::Play;
pub use reason::{Outcome, Reason, put_reason};
pub use replaying::{replay, replay_with_reason};
pub use session_lines::{Course, Courses, Format, LineRead, Order, Stage, read_session_line};
pub use session_run::{Lines, Player, Run, Status, Went, write_all};
pub use tally::{Tally, put_short};
pub use text::{both_formats_spell_one_session, one_session, session_text};
