//! What a kernel takes of its memory.

/// What a kernel takes of its memory.
#[derive(Clone, Copy, Debug, PartialEq, Eq)]
pub struct Stats {
    /// How many segments, of 4,096 bytes each, the bytes of pipes and files stand in.
    pub segments: u64,
    /// How many segments more are kept for further bytes.
    pub spare: u64,
}
