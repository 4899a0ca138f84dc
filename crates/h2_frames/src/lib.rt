//! Frames of HTTP/2, both ways (RFC 9113 sections 4 and 6).
#![tactic(auto)]

mod blocks;
pub mod codes;
mod head;
pub mod kinds;
mod laws;
mod numbers;
mod payload;
mod reading;
mod types;
mod writing;

pub use blocks::{block_frames, block_head};
pub use head::FrameHead;
pub use laws::{
    blocks_are_whole, cut_anywhere, flow_frames, one_fault, one_list, read_frames_are_writable,
    written_is_read,
};
pub use payload::{any_frame, data_frame, headers_frame, window_update_frame};
pub use reading::{ReadHead, read_frame, read_head};
pub use types::{Frame, FrameFault, ReadFrame, Weighting};
pub use writing::{data_head, frame_head, write_frame};
