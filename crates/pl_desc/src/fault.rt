//! What is refused, and why.

/// Why no process starts (POSIX.1-2017, fork).
#[derive(Clone, Copy, Debug, PartialEq, Eq)]
pub enum StartFault {
    /// There are as many processes as there may be.
    Eagain,
    /// There is no memory for one process more.
    NoMemory,
}
