//! What a kernel takes of its memory.
ghost use Rattle.std.specs.Prelude.{◌≡◌, ◌≤◌};
ghost use Rattle.std.specs.Ptr.{as_ptr};

use super::{Heap, Layer};
use std::ptr;

/// The bytes of a segment.
const SEGMENT: u64 = 4_096;

/// What a kernel takes of its memory, in bytes as they were asked for.
#[repr(C)]
#[derive(Clone, Copy)]
pub struct Memory {
    /// Those that are held now.
    pub held: u64,
    /// The most that were held at once.
    pub peak: u64,
    /// The most that may be held.
    pub most: u64,
    /// Those of the held ones in segments that are kept for further bytes.
    pub spare: u64,
}

/// Where a budget lies.
pub fn address(heap: Heap) -> *mut u8
    ensures { result ≡ as_ptr heap.entry }
{
    ptr::from_ref(heap).cast_mut() as *mut u8
}

impl Layer {
    /// What the kernel takes of its memory.
    pub fn memory(&self) -> Memory
        ensures most { result.most ≡ self.now.heap.now.counter.most }
        ensures spare { result.spare ≤ self.now.kernel.limits.spare_max }
    {
        let account = self.heap.account();
        Memory {
            held: account.held,
            peak: account.peak,
            most: account.most,
            spare: self.kernel.stats().spare.saturating_mul(SEGMENT),
        }
    }

    /// Where the budget lies that it is made in.
    pub fn budget(&self) -> *mut u8
        ensures { result ≡ as_ptr self.now.heap }
    {
        address(self.heap)
    }
}
