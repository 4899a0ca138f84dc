//! What a lawful tape is: the definitions that the contracts above cite, over histories, which are
//! tapes with their newest note first.
#![tactic(auto)]

/// The limits of a plain session's buffers in octets, and what one move carries at most.
#[derive(Clone, Copy, PartialEq, Eq)]
pub struct PlainLimits {
    /// What each receive buffer holds at most, 1 to 16,777,216.
    pub recv: u32,
    /// The limit of each send buffer, 0 to 16,777,216; 0 is no limit.
    pub send: u32,
    /// The limit of the write buffer, 0 to 16,777,216; 0 is no limit.
    pub write: u32,
    /// What one move and one DATA frame carry at most, 16,384 to 1,048,576.
    pub quantum: u32,
}
