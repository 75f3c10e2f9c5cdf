//! What goes wrong.
use pl_segments::NoMemory;
use std::alloc::AllocError;

/// Why an operation isn't made, which leaves all as it was; or what isn't as the lists say.
#[derive(Clone, Copy, Debug)]
pub(crate) enum Fault {
    /// There is no memory.
    NoMemory,
    /// There aren't so many bytes, or they don't fit, or no ring has this capacity.
    Unfit,
    /// Other bytes are read.
    OtherBytes,
    /// There is another number of bytes or of slots, or bytes are put in where none go, or none where they go.
    OtherSizes,
    /// The store holds other segments than the slots name, or too many.
    OtherSegments,
    /// Memory is taken or wanted where it isn't to be.
    OtherRequests,
}

impl From<AllocError> for Fault {
    fn from(_error: AllocError) -> Fault {
        Fault::NoMemory
    }
}

impl From<NoMemory> for Fault {
    fn from(_error: NoMemory) -> Fault {
        Fault::NoMemory
    }
}
