//! Reads and writes of regular files, at the offset that all descriptors of a description share.
ghost use Rattle.std.specs.Prelude.{◌≡◌, ◌↔◌, ◌≤◌, true, length, take, drop, IfOk, OnErr, Err};
ghost use Rattle.pl_model.specs.declared.node.Node.TheVariants as node;
ghost use Rattle.pl_state.specs.Opens.{OpenOn};
ghost use Rattle.pl_transfers.specs.Files.{OfFile, ReadsFile, WritesFile, IsFull, place_of};

use bitflags::Flags;
use pl_decisions::place_in_file;
use pl_model::{Bytes8, Node, OpenFlags};
use pl_nodes::WriteFault;
use pl_state::{KernelState, NoMemory};
use std::alloc::Allocator;

// Reads from the offset of a description on, which advances.
#[inline(never)]
pub(crate) fn read_file<A: Allocator + Copy>(
    kernel: &mut KernelState<A>,
    key: usize,
    file: usize,
    n: u32,
) -> Result<Bytes8<A>, NoMemory>
    requires { OpenOn kernel.old key (Node.File file) }
    ensures done { IfOk result (λ bytes. ReadsFile kernel.old key file n bytes kernel.new) }
    ensures undone { OnErr result (kernel.new ≡ kernel.old) }
{
    let offset = kernel.descs.offset(key);
    // A proof learns here that no file has more bytes than a read may answer.
    let _len = kernel.nodes.file_len(file);
    let bytes = kernel
        .nodes
        .read_file(file, place_in_file(offset), n as usize)?;
    kernel.descs.set_offset(key, offset + bytes.len() as u64);
    Ok(Bytes8::from_vec(bytes).unwrap())
}

// Reads from the offset of a description on into the caller's bytes; the offset advances.
#[inline(never)]
pub(crate) fn read_file_into<A: Allocator + Copy>(
    kernel: &mut KernelState<A>,
    key: usize,
    file: usize,
    into: &mut [u8],
) -> usize
    requires { OpenOn kernel.old key (Node.File file) }
    ensures done { ReadsFile kernel.old key file (length into.old) (take result into.new) kernel.new }
    ensures within { result ≤ length into.new }
    ensures rest { drop result into.new ≡ drop result into.old }
{
    let offset = kernel.descs.offset(key);
    // A proof learns here that no file has more bytes than a read may answer.
    let _len = kernel.nodes.file_len(file);
    let read = kernel
        .nodes
        .read_file_into(file, place_in_file(offset), into);
    kernel.descs.set_offset(key, offset + read as u64);
    read
}

// Where a write on a description begins: at its offset, or at the end of the file under `APPEND` (POSIX.1-2017, open).
fn place_to_write<A: Allocator + Copy>(kernel: &KernelState<A>, key: usize, file: usize) -> usize
    requires { OpenOn kernel.now key (Node.File file) }
    ensures { OfFile kernel.now key file (λ o held. result ≡ place_of o held) }
{
    if kernel.descs.flags(key).contains(OpenFlags::APPEND) {
        kernel.nodes.file_len(file)
    } else {
        place_in_file(kernel.descs.offset(key))
    }
}

// Whether no byte of a write on a description fits (POSIX.1-2017, write, EFBIG).
pub(crate) fn is_full<A: Allocator + Copy>(kernel: &KernelState<A>, key: usize, file: usize) -> bool
    requires { OpenOn kernel.now key (Node.File file) }
    ensures { (result ≡ true) ↔ IsFull kernel.now key file }
{
    kernel.limits.file_max as usize <= place_to_write(kernel, key, file)
}

// Writes bytes, not none, where a write on a description begins, and leaves the offset behind what was written.
#[inline(never)]
pub(crate) fn write_file<A: Allocator + Copy>(
    kernel: &mut KernelState<A>,
    key: usize,
    file: usize,
    bytes: &[u8],
) -> Result<usize, WriteFault>
    requires on { OpenOn kernel.old key (Node.File file) }
    requires some { 1 ≤ length bytes.now }
    ensures done { IfOk result (λ count. WritesFile kernel.old key file bytes.now count kernel.new) }
    ensures big { (result ≡ Err WriteFault.TooBig) ↔ IsFull kernel.old key file }
    ensures undone { OnErr result (kernel.new ≡ kernel.old) }
{
    let place = place_to_write(kernel, key, file);
    let count = kernel.nodes.write_file(file, place, bytes)?;
    kernel.descs.set_offset(key, (place + count) as u64);
    Ok(count)
}
