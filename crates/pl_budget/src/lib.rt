//! A budget of bytes: an allocator that counts what it has given out, and refuses what would bring that above its most.
#![tactic(auto)]

mod account;
mod counter;
#[cfg(test)]
mod tests;

ghost use Rattle.std.specs.Prelude.{◌≡◌};

pub use account::Account;
use counter::Counter;
use std::alloc::{AllocError, Allocator, Global};
use std::mem::size_of;

/// An allocator that passes requests on to an inner one, within a budget. Collections take a `&Budget<B>`, so that whoever made
/// it can look at the account while they stand. Bytes count as they were asked for: what the inner allocator adds doesn't.
#[derive(Drop)]
pub struct Budget<B: Allocator = Global> {
    inner: B,
    counter: Counter,
}

impl<B: Allocator> Budget<B> {
    /// A budget of so many bytes, of which none is held.
    pub fn new(inner: B, most: u64) -> Self
        ensures { result.counter.most ≡ most }
    {
        Budget {
            inner,
            counter: Counter::new(most),
        }
    }

    /// What is held now, and what may be.
    pub fn account(&self) -> Account
        ensures { result.most ≡ self.now.counter.most }
    {
        self.counter.account()
    }
}

unsafe impl<B: Allocator> Allocator for Budget<B> {
    ghost dealloc_token = { λ own ty ptr. B.dealloc_token own.inner ty ptr };

    fn allocate(&self, size: usize, align: usize) -> Result<*mut u8, AllocError> {
        if self.counter.refuses(0, size, 1) {
            return Err(AllocError);
        }
        match self.inner.allocate(size, align) {
            Ok(block) => Ok(block),
            Err(error) => {
                self.counter.shrinks(size, 0, 1);
                Err(error)
            }
        }
    }

    unsafe fn deallocate(&self, ptr: *mut u8, size: usize, align: usize) {
        self.counter.shrinks(size, 0, 1);
        self.inner.deallocate(ptr, size, align);
    }

    // The inner allocator resizes the block where it can, and may hold both while it copies: the bytes of one count.
    unsafe fn grow<T>(
        &self,
        ptr: *mut T,
        len: usize,
        old_cap: usize,
        new_cap: usize,
    ) -> Result<*mut T, AllocError> {
        if self.counter.refuses(old_cap, new_cap, size_of::<T>()) {
            return Err(AllocError);
        }
        match self.inner.grow(ptr, len, old_cap, new_cap) {
            Ok(block) => Ok(block),
            Err(error) => {
                self.counter.shrinks(new_cap, old_cap, size_of::<T>());
                Err(error)
            }
        }
    }

    unsafe fn shrink<T>(
        &self,
        ptr: *mut T,
        len: usize,
        old_cap: usize,
        new_cap: usize,
    ) -> Result<*mut T, AllocError> {
        match self.inner.shrink(ptr, len, old_cap, new_cap) {
            Ok(block) => {
                self.counter.shrinks(old_cap, new_cap, size_of::<T>());
                Ok(block)
            }
            Err(error) => Err(error),
        }
    }
}
