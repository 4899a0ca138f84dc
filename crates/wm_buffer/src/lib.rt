//! A buffer of octets that tells when its length passes the high watermark, and when it has drained
//! to the low one.
#![tactic(auto)]

mod buffer;
mod lent;
mod ring;
mod store;
mod watermark;

pub use buffer::{Shifted, WatermarkBuffer};
pub use watermark::{Crossed, flag_is_watermark};
