//! What is refused, and why.
/// Why no file or FIFO is made (POSIX.1-2017, open, O_CREAT and O_EXCL; mkfifo).
#[derive(Clone, Copy, Debug, PartialEq, Eq)]
pub enum MakeFault {
    /// The name stands for something.
    Exists,
    /// There is no memory for one file or FIFO, or one name more.
    NoMemory,
}

/// The name stands for nothing.
#[derive(Clone, Copy, Debug, PartialEq, Eq)]
pub struct NoSuchName;
