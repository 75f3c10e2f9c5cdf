//! Whether two replies are equal.
ghost use Rattle.std.specs.Prelude.{◌≡◌, ◌↔◌, IsTrue};

use pl_model::{PollMask, Reply};
use std::alloc::Allocator;

/// Whether the two are the same reply.
pub(crate) fn is_same<A: Allocator>(one: &Reply<A>, other: &Reply<A>) -> bool
    ensures { IsTrue result ↔ (one.now ≡ other.now) }
{
    match (one, other) {
        (Reply::Pid(a), Reply::Pid(b)) => *a == *b,
        (Reply::Fd(a), Reply::Fd(b)) => *a == *b,
        (Reply::Fds(a, b), Reply::Fds(c, d)) => *a == *c && *b == *d,
        (Reply::Count { n: a, sigpipe: b }, Reply::Count { n: c, sigpipe: d }) => {
            *a == *c && *b == *d
        }
        (Reply::Bytes(a), Reply::Bytes(b)) => a.as_slice() == b.as_slice(),
        (Reply::Offset(a), Reply::Offset(b)) => *a == *b,
        (Reply::Flags { mode: a, flags: b }, Reply::Flags { mode: c, flags: d }) => {
            *a == *c && *b == *d
        }
        (Reply::Size(a), Reply::Size(b)) => *a == *b,
        (Reply::Masks { ready: a, masks: b }, Reply::Masks { ready: c, masks: d }) => {
            *a == *c && are_same(b.as_slice(), d.as_slice())
        }
        (Reply::Unit, Reply::Unit) => true,
        (Reply::Fault(a), Reply::Fault(b)) => *a == *b,
        (Reply::Parked(a), Reply::Parked(b)) => *a == *b,
        (Reply::NoProcess, Reply::NoProcess) => true,
        (Reply::NoCall, Reply::NoCall) => true,
        (Reply::CallsSpent, Reply::CallsSpent) => true,
        _ => false,
    }
}

fn are_same(some: &[PollMask], others: &[PollMask]) -> bool
    ensures { IsTrue result ↔ (some.now ≡ others.now) }
{
    some == others
}
