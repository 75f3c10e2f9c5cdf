//! How a parked call ends.
ghost use Rattle.std.specs.Prelude.{◌≡◌, nat_eq, IsSome};
ghost use Rattle.pl_model.specs.Map.{get};
ghost use Rattle.pl_model.specs.Settle.{settle};
ghost use Rattle.pl_model.specs.Step.{without_call};
ghost use Rattle.pl_nodes.specs.Nodes.{Shrinks};
ghost use Rattle.pl_state.specs.Contents.{core_of};

use crate::last_hold::release_all;
use crate::state::KernelState;
use std::alloc::Allocator;

/// Ends a parked call, which keeps its descriptions no more.
pub fn end_call<A: Allocator + Copy>(kernel: &mut KernelState<A>, number: u64)
    requires { IsSome (get nat_eq kernel.old.calls.calls number) }
    ensures settled { core_of kernel.new ≡ settle (core_of kernel.old) (without_call (core_of kernel.old) number) }
    ensures shrinks { Shrinks kernel.old.nodes.memory kernel.new.nodes.memory }
{
    let call = kernel.parked.take(number).unwrap();
    release_all(&mut kernel.descs, &mut kernel.nodes, call.kept.as_slice());
}
