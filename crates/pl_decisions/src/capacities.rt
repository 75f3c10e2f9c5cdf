//! To what the capacity of a pipe is set.
ghost use Rattle.std.specs.Prelude.{◌≡◌, IfOk};
ghost use Rattle.pl_model.specs.Capacity.{IsPipeCapacity};
ghost use Rattle.pl_decisions.specs.Capacities.{capacity_set};

use pl_model::Errno;
use pl_model::numbers::{MAX_CAPACITY, MIN_CAPACITY};

/// The capacity that a pipe which holds `held` bytes is given for a size: the least power of two that is at least the size and
/// 4,096. `EPERM` where the size is above 1,048,576, or that power above the limit; `EBUSY` where more bytes are held than would fit
/// (fcntl(2), F_SETPIPE_SZ).
pub fn capacity_for(size: u32, held: usize, limit: u32) -> Result<u32, Errno>
    ensures value { result ≡ capacity_set size held limit }
    ensures range { IfOk result IsPipeCapacity }
{
    if MAX_CAPACITY < size {
        return Err(Errno::EPERM);
    }
    let capacity = size.max(MIN_CAPACITY).next_power_of_two();
    if limit < capacity {
        return Err(Errno::EPERM);
    }
    if (capacity as usize) < held {
        return Err(Errno::EBUSY);
    }
    Ok(capacity)
}
