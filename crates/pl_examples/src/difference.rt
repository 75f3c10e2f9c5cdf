//! Where two texts differ.
ghost use Rattle.std.specs.Prelude.{◌≡◌, ◌↔◌, IsNone};

/// The number of the first line, from 1 on, in which two texts differ; `None` exactly where they are the same.
pub fn first_line_apart(left: &[u8], right: &[u8]) -> Option<u64>
    ensures { IsNone result ↔ (left.now ≡ right.now) }
{
    if left == right {
        return None;
    }
    let mut line = 1u64;
    for (a, b) in left.iter().zip(right.iter()) {
        if *a != *b {
            break;
        }
        if *a == b'\n' {
            line = line.saturating_add(1);
        }
    }
    Some(line)
}
