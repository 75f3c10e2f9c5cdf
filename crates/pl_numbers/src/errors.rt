//! The numbers of errors.
ghost use Rattle.std.specs.Prelude.{◌≡◌, pos};
ghost use Rattle.pl_numbers.specs.Errors.{number};

use pl_model::Errno;

/// The number of an error on Linux (errno.h).
pub fn error_number(errno: Errno) -> i32
    ensures { result ≡ pos (number errno) }
{
    match errno {
        Errno::EPERM => 1,
        Errno::ENOENT => 2,
        Errno::EINTR => 4,
        Errno::ENXIO => 6,
        Errno::EBADF => 9,
        Errno::EAGAIN => 11,
        Errno::EBUSY => 16,
        Errno::EEXIST => 17,
        Errno::EINVAL => 22,
        Errno::ENFILE => 23,
        Errno::EMFILE => 24,
        Errno::EFBIG => 27,
        Errno::ENOSPC => 28,
        Errno::ESPIPE => 29,
        Errno::EPIPE => 32,
        Errno::ENAMETOOLONG => 36,
        Errno::EOVERFLOW => 75,
    }
}
