//! A set of numbers, and the least of them from one on.
ghost use Rattle.std.specs.Prelude.{◌≡◌, ◌≤◌, ◌/◌, ℕ, false, length, min};
ghost use Rattle.pl_masks.specs.Levels.{AreMasked, mask_at, is_set};

use crate::words::{WIDTH, clear, in_mask, mask_at, set};
use std::alloc::{AllocError, Allocator, Global};

/// A set of numbers below 262,144, as masks in three levels, like a tree: the least number of the set from any number on is found in as many
/// steps as there are levels.
#[derive(Drop)]
pub struct Masks<A: Allocator = Global> {
    /// A bit for each number.
    pub(crate) numbers: Vec<u64, A>,
    /// A bit for each mask of `numbers` that has a bit.
    pub(crate) masks: Vec<u64, A>,
    /// A bit for each mask of `masks` that has a bit.
    pub(crate) top: [u64; 1],
    ghost kept: { AreMasked numbers.items masks.items top },
}

impl<A: Allocator + Copy> Masks<A> {
    ghost use Rattle.std.specs.Prelude.{◌≡◌, ℕ, false, IfOk};
    ghost use Rattle.pl_masks.specs.Masks.{has, has_place};

    /// The empty set, with no places. It takes no memory.
    pub fn new(alloc: A) -> Self
        ensures { (n : ℕ) → has result n ≡ false }
    {
        Masks {
            numbers: Vec::new(alloc),
            masks: Vec::new(alloc),
            top: [0],
        }
    }

    /// The same set, with the same places.
    ///
    /// # Errors
    ///
    /// `AllocError` where there is no memory for it.
    pub fn copy(&self, alloc: A) -> Result<Self, AllocError>
        ensures same { IfOk result (λ set. (n : ℕ) → has set n ≡ has self.now n) }
        ensures places { IfOk result (λ set. (n : ℕ) → has_place self.now n → has_place set n) }
        ensures no_more { IfOk result (λ set. (n : ℕ) → has_place set n → has_place self.now n) }
    {
        let numbers = Vec::from_slice(alloc, &self.numbers)?;
        let masks = Vec::from_slice(alloc, &self.masks)?;
        Ok(Masks {
            numbers,
            masks,
            top: self.top,
        })
    }
}

impl<A: Allocator> Masks<A> {
    ghost use Rattle.std.specs.Prelude.{◌≡◌, ℕ, ◌+◌, ◌<◌, ◌≤◌, OnOk, IsOk, IfSome, IfNone, true, false, if◌then◌else◌, nat_eq};
    ghost use Rattle.pl_masks.specs.Levels.{is_set, IsFirst};
    ghost use Rattle.pl_masks.specs.Masks.{has, has_place, IsNext};

    /// Makes places for all numbers below `numbers`, if there are fewer. The set stays the same.
    ///
    /// # Errors
    ///
    /// `AllocError` where there are fewer, and no memory for more.
    pub fn reserve(&mut self, numbers: usize) -> Result<(), AllocError>
        requires { numbers ≤ 262144 }
        ensures ok { OnOk result ((n : ℕ) → n < numbers → has_place self.new n) }
        ensures more { (n : ℕ) → has_place self.old n → has_place self.new n }
        ensures same { (n : ℕ) → has self.new n ≡ has self.old n }
        ensures enough { ((n : ℕ) → n < numbers → has_place self.old n) → IsOk result }
    {
        let masks = numbers.div_ceil(WIDTH);
        if masks <= self.numbers.len() {
            return Ok(());
        }
        let above = self.masks.len().max(masks.div_ceil(WIDTH));
        self.masks.resize(above, 0)?;
        self.numbers.resize(masks, 0)
    }

    /// Gives back the memory of numbers at or above `numbers`, in whole masks. It takes no memory.
    pub fn shrink(&mut self, numbers: usize)
        requires { (n : ℕ) → numbers ≤ n → has self.old n ≡ false }
        ensures same { (n : ℕ) → has self.new n ≡ has self.old n }
        ensures places { (n : ℕ) → n < numbers → has_place self.old n → has_place self.new n }
        ensures fewer { (n : ℕ) → has_place self.new n → n < numbers + 64 }
    {
        let masks = numbers.div_ceil(WIDTH);
        cut(&mut self.numbers, masks);
        cut(&mut self.masks, masks.div_ceil(WIDTH));
    }

    /// Puts a number into the set. It takes no memory.
    #[inline(always)]
    pub fn insert(&mut self, number: usize)
        requires { has_place self.old number }
        ensures value { (n : ℕ) → has self.new n ≡ (if nat_eq n number then true else has self.old n) }
        ensures places { (n : ℕ) → has_place self.old n → has_place self.new n }
    {
        // A level above changes only where a mask has its first bit.
        if set(&mut self.numbers, number) && set(&mut self.masks, number / WIDTH) {
            set(&mut self.top, number / WIDTH / WIDTH);
        }
    }

    /// Takes a number out of the set.
    #[inline(always)]
    pub fn remove(&mut self, number: usize)
        requires { has_place self.old number }
        ensures value { (n : ℕ) → has self.new n ≡ (if nat_eq n number then false else has self.old n) }
        ensures places { (n : ℕ) → has_place self.old n → has_place self.new n }
    {
        // A level above changes only where a mask has no bit any more.
        if clear(&mut self.numbers, number) && clear(&mut self.masks, number / WIDTH) {
            clear(&mut self.top, number / WIDTH / WIDTH);
        }
    }

    /// Whether the set has a number.
    pub fn contains(&self, number: usize) -> bool
        ensures { result ≡ has self.now number }
    {
        mask_at(&self.numbers, number / WIDTH) >> (number % WIDTH) & 1 == 1
    }

    /// The least number of the set, `from` or above.
    #[inline(always)]
    pub fn next(&self, from: usize) -> Option<usize>
        ensures some { IfSome result (IsNext self.now from) }
        ensures place { IfSome result (has_place self.now) }
        ensures none { IfNone result ((n : ℕ) → from ≤ n → has self.now n ≡ false) }
    {
        if let Some(number) = in_mask(&self.numbers, from) {
            return Some(number);
        }
        let mask = self.next_mask(from / WIDTH + 1)?;
        in_mask(&self.numbers, mask * WIDTH)
    }

    // The least mask of `numbers` that has a bit, `from` or above.
    fn next_mask(&self, from: usize) -> Option<usize>
        ensures some { IfSome result (IsFirst self.now.masks.items from) }
        ensures none { IfNone result ((mask : ℕ) → from ≤ mask → is_set self.now.masks.items mask ≡ false) }
    {
        if let Some(mask) = in_mask(&self.masks, from) {
            return Some(mask);
        }
        let above = in_mask(&self.top, from / WIDTH + 1)?;
        in_mask(&self.masks, above * WIDTH)
    }
}

// Gives back the memory of the masks from a place on, none of which has a bit.
fn cut<A: Allocator>(masks: &mut Vec<u64, A>, places: usize)
    requires { (n : ℕ) → places ≤ n / 64 → is_set masks.old.items n ≡ false }
    ensures same { (place : ℕ) → mask_at masks.new.items place ≡ mask_at masks.old.items place }
    ensures len { length masks.new.items ≡ min places (length masks.old.items) }
{
    masks.truncate(places);
    masks.shrink_to_fit();
}
