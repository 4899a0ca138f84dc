//! The configuration of a session, read from a source, and what is told where it is refused.
#![tactic(auto)]

mod choice;
mod key;
mod load;
mod names;
mod refusal;
mod words;

pub use load::{ConfigEnd, load_config, load_text};
pub use names::names_of;
pub use refusal::{put_key, put_refusal};
pub use words::put_config_fault;
