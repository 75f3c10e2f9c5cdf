//! Which steps a line says.
ghost use Rattle.std.specs.Prelude.{◌≡◌, ◌<◌, ◌^◌, All, IfSome, FitsSigned};
ghost use Rattle.std.specs.Int.{w32};
ghost use Rattle.std.specs.List.{list_all};
ghost use Rattle.pl_model.specs.Flags.{open_names, splice_names, mask_names};
ghost use Rattle.pl_model.specs.Said.{are_named, is_call_sayable, is_sayable, IsByte, CallFits, StepFits};

use bitflags::Flags;
use pl_model::{Call, OpenFlags, PollMask, SpliceFlags, Step};
use std::alloc::Allocator;

/// The bits of the flags of an open that a line may name.
const OPEN_BITS: u8 = 1 + 2 + 4 + 8 + 16;

/// The bits of the flags of a splice.
const SPLICE_BITS: u8 = 1 + 2 + 4 + 8;

/// The bits of what a mask can have. They are those of Linux, and 2 is none of them.
const MASK_BITS: u8 = 1 + 4 + 8 + 16 + 32;

fn has_open_names(flags: OpenFlags) -> bool
    ensures { result ≡ are_named open_names flags.0 }
{
    OPEN_BITS & flags.bits() == flags.bits()
}

fn has_splice_names(flags: SpliceFlags) -> bool
    ensures { result ≡ are_named splice_names flags.0 }
{
    SPLICE_BITS & flags.bits() == flags.bits()
}

fn has_mask_names(mask: PollMask) -> bool
    ensures { result ≡ are_named mask_names mask.0 }
{
    MASK_BITS & mask.bits() == mask.bits()
}

fn have_mask_names(entries: &[(i32, PollMask)]) -> bool
    ensures { result ≡ list_all (λ e. are_named mask_names e.1.0) entries.now }
{
    entries.iter().all(|entry| has_mask_names(entry.1))
}

fn is_call_sayable<A: Allocator>(call: &Call<A>) -> bool
    ensures { result ≡ is_call_sayable call.now }
{
    match call {
        Call::OpenName { flags, .. } => has_open_names(*flags),
        Call::SetFl { flags, .. } => has_open_names(*flags),
        Call::Splice { flags, .. } => has_splice_names(*flags),
        Call::Tee { flags, .. } => has_splice_names(*flags),
        Call::Poll { entries, .. } => have_mask_names(entries.as_slice()),
        _ => true,
    }
}

/// Whether a line of version 2 says the step: it doesn't if flags of the step, or what a poll asks, have a bit without a name.
#[tactic(auto, unfolding(pl_model::specs::Said::is_sayable))]
pub fn is_sayable<A: Allocator>(step: &Step<A>) -> bool
    ensures { result ≡ is_sayable step.now }
{
    match step {
        Step::Begin(_, call) => is_call_sayable(call),
        _ => true,
    }
}

// The bytes of a slice fit their type. It does nothing.
pub(crate) fn bytes_fit(bytes: &[u8])
    ensures { All IsByte bytes.now }
{}

// An offset fits its type. It does nothing.
fn offset_fits(offset: Option<u64>)
    ensures { IfSome offset (λ n. n < 2 ^ 64) }
{
    if let Some(offset) = offset {
        let _offset = offset;
    }
}

// The descriptors of a poll fit their type. It reads them, and does nothing with them.
fn entries_fit(entries: &[(i32, PollMask)])
    ensures { All (λ e. FitsSigned w32 e.0) entries.now }
{
    for entry in entries {
        let _fd = entry.0;
    }
}

// The numbers of a call fit their types. It reads them, and does nothing with them.
fn call_numbers_fit<A: Allocator>(call: &Call<A>)
    ensures { CallFits call.now }
{
    match call {
        Call::Pipe { .. } => {}
        Call::Mkfifo { name } => {
            bytes_fit(name.as_slice());
        }
        Call::OpenName { name, .. } => {
            bytes_fit(name.as_slice());
        }
        Call::Unlink { name } => {
            bytes_fit(name.as_slice());
        }
        Call::Write { fd, bytes } => {
            let _fd = *fd;
            bytes_fit(bytes.as_slice());
        }
        Call::Poll { entries, .. } => {
            entries_fit(entries.as_slice());
        }
        Call::Splice {
            from,
            from_offset,
            to,
            to_offset,
            len,
            ..
        } => {
            let _splice = (*from, *to, *len);
            offset_fits(*from_offset);
            offset_fits(*to_offset);
        }
        Call::Tee { from, to, len, .. } => {
            let _tee = (*from, *to, *len);
        }
        Call::Read { fd, n: size } => {
            let _read = (*fd, *size);
        }
        Call::SetPipeSz { fd, size } => {
            let _set_size = (*fd, *size);
        }
        Call::Dup2 { fd, target } => {
            let _dup2 = (*fd, *target);
        }
        Call::DupFd { fd, least } => {
            let _dup_fd = (*fd, *least);
        }
        Call::Lseek { fd, offset, .. } => {
            let _lseek = (*fd, *offset);
        }
        Call::Dup { fd } => {
            let _fd = *fd;
        }
        Call::Close { fd } => {
            let _fd = *fd;
        }
        Call::GetFl { fd } => {
            let _fd = *fd;
        }
        Call::SetFl { fd, .. } => {
            let _fd = *fd;
        }
        Call::GetPipeSz { fd } => {
            let _fd = *fd;
        }
        Call::Fork => {}
        Call::Exit => {}
    }
}

// The numbers of a step fit their types. It reads them, and does nothing with them.
#[tactic(auto, unfolding(pl_model::specs::Said::StepFits))]
pub(crate) fn numbers_fit<A: Allocator>(step: &Step<A>)
    ensures { StepFits step.now }
{
    match step {
        Step::Start => {}
        Step::Begin(pid, call) => {
            let _pid = *pid;
            call_numbers_fit(call)
        }
        Step::Resume(call) => {
            let _call = *call;
        }
        Step::Interrupt(call) => {
            let _call = *call;
        }
    }
}
