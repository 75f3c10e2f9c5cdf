//! A step whose reply is given twice.
ghost use Rattle.std.specs.Prelude.{◌≡◌, ◌≤◌, [], true, length, vec_capacity, IfOk, OnErr, IsOk};
ghost use Rattle.pl_model.specs.Memory.{is_frugal};
ghost use Rattle.pl_splices.specs.Shares.{SharesByStep};
ghost use Rattle.pl_state.specs.Makes.{Makes, LeavesByReply, WantsMemory};
ghost use Rattle.pl_kernel.specs.Sizes.{sizes_of};

use super::Kernel;
use crate::sizes::reply_sizes;
use crate::steps::act;
use crate::touch::touch_step;
use pl_model::{Bytes8, MaskList, PollMask, Reply, Step};
use pl_state::NoMemory;
use std::alloc::Allocator;

// The same bytes, in a list that has room for them.
fn copy_bytes<A: Allocator>(bytes: &Bytes8<A>, mut room: Vec<u8, A>) -> Bytes8<A>
    requires empty { room.items ≡ [] }
    requires room { length bytes.now ≤ vec_capacity room }
    ensures { result ≡ bytes.now }
{
    room.extend_from_slice(bytes.as_slice()).unwrap();
    Bytes8::from_vec(room).unwrap()
}

// The same masks, in a list that has room for them.
fn copy_masks<A: Allocator>(masks: &MaskList<A>, mut room: Vec<PollMask, A>) -> MaskList<A>
    requires empty { room.items ≡ [] }
    requires room { length masks.now ≤ vec_capacity room }
    ensures { result ≡ masks.now }
{
    room.extend_from_slice(masks.as_slice()).unwrap();
    MaskList::from_vec(room)
}

// The same reply, its list in one that has room for it.
#[inline(always)]
fn copy_reply<A: Allocator>(
    reply: &Reply<A>,
    bytes: Vec<u8, A>,
    masks: Vec<PollMask, A>,
) -> Reply<A>
    requires no_bytes { bytes.items ≡ [] }
    requires no_masks { masks.items ≡ [] }
    requires bytes { (sizes_of reply.now).bytes ≤ vec_capacity bytes }
    requires masks { (sizes_of reply.now).masks ≤ vec_capacity masks }
    ensures { result ≡ reply.now }
{
    match reply {
        Reply::Bytes(read) => Reply::Bytes(copy_bytes(read, bytes)),
        Reply::Masks {
            ready,
            masks: found,
        } => Reply::Masks {
            ready: *ready,
            masks: copy_masks(found, masks),
        },
        Reply::Pid(pid) => Reply::Pid(*pid),
        Reply::Fd(fd) => Reply::Fd(*fd),
        Reply::Fds(read_end, write_end) => Reply::Fds(*read_end, *write_end),
        Reply::Count { n, sigpipe } => Reply::Count {
            n: *n,
            sigpipe: *sigpipe,
        },
        Reply::Offset(offset) => Reply::Offset(*offset),
        Reply::Flags { mode, flags } => Reply::Flags {
            mode: *mode,
            flags: *flags,
        },
        Reply::Size(size) => Reply::Size(*size),
        Reply::Unit => Reply::Unit,
        Reply::Fault(errno) => Reply::Fault(*errno),
        Reply::Parked(number) => Reply::Parked(*number),
        Reply::NoProcess => Reply::NoProcess,
        Reply::NoCall => Reply::NoCall,
        Reply::CallsSpent => Reply::CallsSpent,
    }
}

impl<A: Allocator + Copy> Kernel<A> {
    /// Makes one step, as `step` does, and gives its reply twice: for a caller that keeps one and hands on the other.
    ///
    /// # Errors
    ///
    /// `NoMemory`, as of `step`. Room for the second reply is made before the step, by what it has to hold: for bytes of a Read, or masks of
    /// a Poll. No other step asks for more memory than `step` does.
    // In place in its caller, as `step` is.
    #[inline(always)]
    pub fn step_pair(&mut self, step: Step<A>) -> Result<(Reply<A>, Reply<A>), NoMemory>
        ensures made { IfOk result (λ pair. Makes self.old step pair.0 self.new) }
        ensures twice { IfOk result (λ pair. pair.1 ≡ pair.0) }
        ensures refused { IfOk result (λ pair. LeavesByReply self.old step pair.0 self.new) }
        ensures unmade { OnErr result (self.new ≡ self.old) }
        ensures wanted { OnErr result (WantsMemory {A = A} self.old step) }
        ensures frugal { is_frugal step ≡ true → IsOk result }
        ensures shares { SharesByStep {A = A} self.old step self.new }
    {
        // A proof learns here that nothing was left to settle, so that a refused step leaves the very state.
        let state = &self.state;
        let _ = &state.descs;
        let sizes = reply_sizes(state, &step);
        let bytes = Vec::with_capacity(state.alloc, sizes.bytes)?;
        let masks = Vec::with_capacity(state.alloc, sizes.masks)?;
        self.none_ready = false;
        touch_step(state, &mut self.waiters, &step);
        let made = act(&mut self.state, step);
        // The same once the step was made.
        let state = &self.state;
        let _ = &state.descs;
        self.keep_up(matches!(&made, Ok(Reply::Parked(_))), made.is_err());
        let reply = made?;
        let again = copy_reply(&reply, bytes, masks);
        Ok((reply, again))
    }
}
