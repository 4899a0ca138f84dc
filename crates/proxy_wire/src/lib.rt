//! The proxy of HTTP/2 over any outside: its workers, the loop beside them, and the whole of the proxy.
#![tactic(auto)]

mod beside;
mod end;
mod form;
mod giving_back;
mod hiring;
mod leading;
mod meter;
mod metering;
mod pool;
mod serve;
mod serving;
mod working;

pub use end::WireEnd;
pub use form::{ProxyForm, read_proxy_form};
pub use serve::{ProxyReason, ProxyServed, serve_proxy};
