//! What is told of a tape: its lines, and the summary behind them, which is kept note by note.
#![tactic(auto)]

mod level;
mod line_end;
mod notes_text;
mod pauses;
mod peaks;
mod report;
mod summary;
mod tape_log;
mod track;
mod tracks;
mod words;

pub use level::{Level, write_after};
pub use line_end::LineEnd;
pub use notes_text::{append_notes, tell};
pub use pauses::{Pause, PauseLog, Spot};
pub use peaks::{FlowLevels, PeakLog};
pub use report::{put_done, put_flow_peak, put_stage_peak, put_write_peak};
pub use summary::{put_pauses, write_summary};
pub use tape_log::TapeLog;
pub use track::Track;
pub use tracks::Tracks;
pub use words::{put_behind, put_flow, put_number};
