//! The protocol state of one HTTP/2 connection: one act for each frame (RFC 9113 sections 5 and 6).
#![tactic(auto)]

mod act;
mod block;
mod named;
mod preface;
mod session;
mod settings;
mod streams;

pub use act::{Act, Setting, SettingList};
pub use named::{InitialWindow, Named};
pub use preface::Prefaced;
pub use session::Session;
pub use settings::SettingIter;
