//! Field compression for HTTP/2, both ways (RFC 7541).
#![tactic(auto)]

mod collected;
mod decoder;
mod encoder;
mod fault;
mod fields;
mod form;
mod integers;
mod laws;
mod line;
mod literals;
mod pieces;
mod spelling;
mod static_table;
mod strings;
mod table;
mod told;
mod words;

pub use decoder::Decoder;
pub use encoder::Encoder;
pub use fault::HpackFault;
pub use fields::{Field, FieldList};
pub use laws::{block_fits, integer_spellings, one_reading};
pub use line::Line;
pub use words::is_same;
