//! Masks in a row, with a bit for each number.
ghost use Rattle.std.specs.Prelude.{◌≡◌, ◌≤◌, ◌<◌, ◌*◌, ◌/◌, ◌%◌, ℕ, length, IfSome, IfNone, true, false, nat_eq};
ghost use Rattle.pl_masks.specs.Levels.{mask_at, is_set, IsPut, IsFirst};

/// The numbers whose bits one mask has.
pub(crate) const WIDTH: usize = 64;

/// Sets the bit of a number, and says whether its mask had none.
#[inline(always)]
pub(crate) fn set(masks: &mut [u64], number: usize) -> bool
    requires { number < 64 * length masks.old }
    ensures put { IsPut masks.old masks.new number true }
    ensures had_none { result ≡ nat_eq (mask_at masks.old (number / 64)) 0 }
    ensures has_one { nat_eq (mask_at masks.new (number / 64)) 0 ≡ false }
{
    let mask = masks[number / WIDTH];
    masks[number / WIDTH] = mask | 1 << (number % WIDTH);
    mask == 0
}

/// Clears the bit of a number, and says whether its mask has none then.
#[inline(always)]
pub(crate) fn clear(masks: &mut [u64], number: usize) -> bool
    requires { number < 64 * length masks.old }
    ensures put { IsPut masks.old masks.new number false }
    ensures has_none { result ≡ nat_eq (mask_at masks.new (number / 64)) 0 }
    ensures had_none { mask_at masks.old (number / 64) ≡ 0 → result ≡ true }
{
    let left = masks[number / WIDTH] & !(1 << (number % WIDTH));
    masks[number / WIDTH] = left;
    left == 0
}

/// The mask at a place, and 0 past the last one.
#[inline(always)]
pub(crate) fn mask_at(masks: &[u64], place: usize) -> u64
    ensures { result ≡ mask_at masks.now place }
{
    masks.get(place).copied().unwrap_or(0)
}

/// The least number whose bit is set, `from` or above, of those in its mask.
#[inline(always)]
pub(crate) fn in_mask(masks: &[u64], from: usize) -> Option<usize>
    ensures some { IfSome result (IsFirst masks.now from) }
    ensures mask { IfSome result (λ n. n / 64 ≡ from / 64) }
    ensures none { IfNone result ((n : ℕ) → from ≤ n → n / 64 ≡ from / 64 → is_set masks.now n ≡ false) }
    ensures empty { IfNone result (from % 64 ≡ 0 → mask_at masks.now (from / 64) ≡ 0) }
{
    let rest = mask_at(masks, from / WIDTH) >> (from % WIDTH);
    if rest == 0 {
        None
    } else {
        Some(from + rest.trailing_zeros() as usize)
    }
}
