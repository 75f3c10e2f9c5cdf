//! The limits of what processes open.

/// The limits of what processes open.
#[derive(Clone, Copy, Debug, PartialEq, Eq)]
pub struct DescLimits {
    /// The most descriptors of a process, numbered from 0, at most 65,536.
    pub descriptors: usize,
    /// The most descriptions that are open at one time, at most 1,048,576.
    pub descriptions: usize,
    /// The most processes at one time, with pids from 1 on, at most 65,536.
    pub processes: usize,
}
