//! The proxy over any outside: what its words ask for, where its connections come from, and how it ends.
#![tactic(auto)]

mod form;
mod mem_journal;
mod mem_site;
mod reason;
mod refused;
mod relaying;
mod serving;
mod site;
mod wire_site;

pub use form::{ENDLESS, ServeForm, read_serve_form, read_turns};
pub use mem_journal::MemJournal;
pub use mem_site::{MemSite, RelayPlay};
pub use reason::{ServeReason, Served};
pub use refused::end_at_config;
pub use relaying::put_listening;
pub use serving::{serve, serve_with_reason};
pub use session_run::Status;
pub use site::{Site, SiteRefusal};
pub use wire_site::WireSite;
