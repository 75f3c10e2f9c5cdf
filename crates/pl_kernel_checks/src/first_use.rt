//! The kernel as a newcomer uses it.
use pl_kernel::{Kernel, NoMemory};
use pl_model::{Bytes8, Call, Reply, Step};
use pl_testing::LIMITS;
use std::alloc::{Allocator, Global};
use std::test::Fail;

/// Process 1 writes to a pipe, and reads the front of it back.
fn there_and_back<A: Allocator + Copy>(
    alloc: A,
    kernel: &mut Kernel<A>,
) -> Result<Reply<A>, NoMemory> {
    kernel.step(Step::Start)?; // Pid(1)
    kernel.step(Step::Begin(
        1,
        Call::Pipe {
            nonblock: false,
            direct: false,
        },
    ))?; // Fds(0, 1)
    let bytes = Bytes8::from_vec(Vec::from_slice(alloc, b"hello")?).unwrap();
    kernel.step(Step::Begin(1, Call::Write { fd: 1, bytes }))?; // Count { n: 5, sigpipe: false }
    kernel.step(Step::Begin(1, Call::Read { fd: 0, n: 3 })) // Bytes("hel")
}

/// Whether the front comes back, and the two bytes behind it are left.
fn front_comes_back(alloc: Global, kernel: &mut Kernel) -> bool {
    let reply = there_and_back(alloc, kernel);
    let is_front = match &reply {
        Ok(Reply::Bytes(bytes)) => bytes.as_slice() == b"hel".as_slice(),
        _ => false,
    };
    is_front && kernel.stats().segments == 1
}

#[test]
fn bytes_come_back(rt: HostRuntime) -> Result<(), Fail> {
    let mut kernel = Kernel::new(rt.alloc(), LIMITS);
    let comes_back = front_comes_back(rt.alloc(), &mut kernel);
    drop(kernel);
    assert!(rt; comes_back);
    Ok(())
}
