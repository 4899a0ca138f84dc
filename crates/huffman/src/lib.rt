//! The Huffman code of HTTP/2's field compression (RFC 7541 section 5.2 and Appendix B).
#![tactic(auto)]

mod decoder;
mod fault;
mod lookup;
mod tables;
mod waiting;

pub use decoder::{codes_fill, decode, one_reading};
pub use fault::HuffmanFault;
