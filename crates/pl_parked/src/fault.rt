//! Why a call isn't parked.

/// Why a call isn't parked.
#[derive(Clone, Copy, Debug, PartialEq, Eq)]
pub enum ParkFault {
    /// No number is left: the next would be 18,446,744,073,709,551,615, which is never given.
    CallsSpent,
    /// There is no memory for one call more.
    NoMemory,
}
