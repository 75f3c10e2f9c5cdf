//! Where a seek leads, and which place of a file an offset is.
ghost use Rattle.std.specs.Prelude.{◌≡◌};
ghost use Rattle.pl_decisions.specs.Offsets.{offset_sought};

use pl_model::Errno;
use pl_model::numbers::MAX_OFFSET;

/// The offset that lies `offset` bytes from `base`, forwards or back: `EINVAL` where that is below 0, `EOVERFLOW` where it is above
/// the greatest offset, 9,223,372,036,854,775,807 (POSIX.1-2017, lseek).
pub fn sought(base: u64, offset: i64) -> Result<u64, Errno>
    ensures { result ≡ offset_sought base offset }
{
    let Some(place) = base.checked_add_signed(offset) else {
        return Err(if offset < 0 {
            Errno::EINVAL
        } else {
            Errno::EOVERFLOW
        });
    };
    if MAX_OFFSET < place {
        return Err(Errno::EOVERFLOW);
    }
    Ok(place)
}

/// An offset as a place in a file. Where `usize` is too small for it, it is the greatest `usize`, behind the end of every file.
pub fn place_in_file(offset: u64) -> usize
    ensures { result ≡ offset }
{
    usize::try_from(offset).unwrap_or(usize::MAX)
}
