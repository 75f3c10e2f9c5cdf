//! The offsets of descriptions on regular files.
ghost use Rattle.std.specs.Prelude.{◌≡◌};
ghost use Rattle.pl_state.specs.Contents.{IsProcess};
ghost use Rattle.pl_transfers.specs.Files.{OfFile, base_of};
ghost use Rattle.pl_state.specs.Opens.{OpenOn};
ghost use Rattle.pl_state.specs.Makes.{MakesAtKeys};

use pl_decisions::sought;
use pl_model::{Call, Errno, Node, Reply, Step, Whence};
use pl_state::KernelState;
use std::alloc::Allocator;

/// Sets the offset of what a descriptor of a process names, which is there (POSIX.1-2017, lseek). It takes no memory.
///
/// The reply is the new offset, or, in this order: `EBADF` where the descriptor isn't open, `ESPIPE` where it is a pipe's, `EINVAL` where
/// the offset would be below 0, `EOVERFLOW` where it would be above 9,223,372,036,854,775,807; these leave all as it was.
pub fn lseek<A: Allocator + Copy>(
    kernel: &mut KernelState<A>,
    pid: u32,
    fd: i32,
    offset: i64,
    whence: Whence,
) -> Reply<A>
    requires { IsProcess kernel.old pid }
    ensures { MakesAtKeys kernel.old (Step.Begin pid (Call.Lseek fd offset whence)) result kernel.new }
{
    let Some(key) = kernel.descs.find(pid, fd) else {
        return Reply::Fault(Errno::EBADF);
    };
    let Node::File(file) = kernel.descs.node(key) else {
        return Reply::Fault(Errno::ESPIPE);
    };
    match sought(base_of(kernel, key, file, whence), offset) {
        Ok(place) => {
            kernel.descs.set_offset(key, place);
            Reply::Offset(place)
        }
        Err(errno) => Reply::Fault(errno),
    }
}

// Where an offset is counted from (POSIX.1-2017, lseek).
fn base_of<A: Allocator + Copy>(
    kernel: &KernelState<A>,
    key: usize,
    file: usize,
    whence: Whence,
) -> u64
    requires { OpenOn kernel.now key (Node.File file) }
    ensures { OfFile kernel.now key file (λ o held. result ≡ base_of o held whence) }
{
    match whence {
        Whence::Set => 0,
        Whence::Cur => kernel.descs.offset(key),
        Whence::End => kernel.nodes.file_len(file) as u64,
    }
}
