//! Where an offset is counted from.
ghost use Rattle.std.specs.Prelude.{◌≡◌};
ghost use Rattle.pl_numbers.specs.Places.{whence_of_number};

use pl_model::Whence;

/// What the number stands for on Linux: `SEEK_SET`, `SEEK_CUR`, `SEEK_END` (POSIX.1-2017, lseek); `None` of every other number.
pub fn whence_of_number(number: i32) -> Option<Whence>
    ensures { result ≡ whence_of_number number }
{
    match number {
        0 => Some(Whence::Set),
        1 => Some(Whence::Cur),
        2 => Some(Whence::End),
        _ => None,
    }
}
