//! A tape as a picture: the lengths of its buffers, its read-disable counts and its ends, dispatch by dispatch, as one SVG file.
#![tactic(auto)]

mod choice;
mod clock;
mod connection;
mod connections;
mod draw;
mod exchange;
mod exchanges;
mod flow;
mod height;
mod held;
mod highest;
mod lane;
mod levels;
mod limits;
mod mark;
mod plot;
mod report;
mod subject;
mod tape;
mod width;
mod words;

pub use choice::{Choice, Lanes, read_choice};
pub use levels::{lengths, plain_lengths};
pub use report::{Outcome, Refusal};
pub use tape::{Tape, plot_tape, read_tape};
