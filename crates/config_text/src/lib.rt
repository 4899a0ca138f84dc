//! The text of a configuration as a program reads it, which is kept so that the program can say where it is no TOML.
#![tactic(auto)]

mod file;
mod kept;
mod place;

pub use file::ConfigFile;
pub use kept::Kept;
pub use place::{Place, fault_place, tell_no_toml};
