//! What is refused, and why.
/// Why nothing is written.
#[derive(Clone, Copy, Debug, PartialEq, Eq)]
pub enum WriteFault {
    /// The place is at the greatest length of the file or past it.
    TooBig,
    /// There is no memory for what was asked.
    NoMemory,
}
