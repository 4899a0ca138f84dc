//! What the heads and trailers of HTTP/2 messages decide: where a request goes or how it is
//! refused, what a response's head comes to, and whether bodies are as long as their heads said.
#![tactic(auto)]

mod lengths;
mod requests;
mod responses;

pub use lengths::Expected;
pub use requests::{Decision, Judged, Routed, judge_request, place};
pub use responses::{Response, judge_response, judge_trailers};
