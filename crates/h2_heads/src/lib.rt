//! The checks of header fields: which field of a list is malformed, and what a sound list says
//! (RFC 9113 sections 8.2 and 8.3; RFC 9110 section 8.6).
#![tactic(auto)]

mod check;
mod front;
mod heads;
mod lengths;
mod malformed;
mod names;
mod octets;
mod pseudo;
mod replies;
mod rules;
mod told;
mod values;

pub use heads::{RequestHead, ResponseHead, check_request, check_response, check_trailers};
pub use lengths::content_length;
pub use malformed::{Kind, Malformed};
pub use replies::status_fields;
