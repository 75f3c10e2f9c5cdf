//! What is refused, and why.

/// Why a capacity isn't set (pipe(7), fcntl(2), F_SETPIPE_SZ).
#[derive(Clone, Copy, Debug, PartialEq, Eq)]
pub enum CapacityFault {
    /// More bytes are held.
    Busy,
    /// There is no memory for so many places.
    NoMemory,
}
