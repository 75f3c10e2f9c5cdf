//! All that a kernel holds.
ghost use Rattle.pl_model.specs.Numbers.{most_file_bytes};
ghost use Rattle.pl_state.specs.Contents.{node_limits, desc_limits};
ghost use Rattle.std.specs.Prelude.{◌≡◌, ◌≤◌};

use pl_desc::{DescLimits, Descs};
use pl_model::Limits;
use pl_nodes::{NodeLimits, Nodes};
use pl_parked::Parked;
use pl_segments::SEGMENT_SIZE;
use std::alloc::{Allocator, Global};
use std::marker::Model;

/// All that a kernel holds, in the memory of one allocator.
#[derive(Drop)]
pub struct KernelState<A: Allocator = Global> {
    pub alloc: A,
    pub limits: Limits,
    pub descs: Descs<A>,
    pub nodes: Nodes<A>,
    pub parked: Parked<A>,
}

impl<A: Allocator> Model for KernelState<A> {
    ghost use Rattle.pl_state.specs.Contents.{Contents};

    ghost Value = { Contents A };

    ghost use Rattle.pl_state.specs.KernelView.{view_of};
    ghost use Rattle.pl_state.specs.Sound.{IsSound, AreCounted};

    ghost view = { view_of };

    ghost invariant = { λ k. IsSound A (view_of k) × AreCounted A k.limits k.descs k.parked.calls };
}

// The limits of pipes and files. Of the memory that is kept for further bytes whole segments count.
fn node_limits(limits: Limits) -> NodeLimits
    ensures { result ≡ node_limits limits }
{
    NodeLimits {
        file_max: limits.file_max as usize,
        spare_max: (limits.spare_max / SEGMENT_SIZE as u64) as usize,
    }
}

// The limits of what processes open.
fn desc_limits(limits: Limits) -> DescLimits
    ensures { result ≡ desc_limits limits }
{
    DescLimits {
        descriptors: limits.descriptors(),
        descriptions: limits.descriptions(),
        processes: limits.processes(),
    }
}

impl<A: Allocator + Copy> KernelState<A> {
    ghost use Rattle.pl_model.specs.Numbered.{opening};
    ghost use Rattle.pl_state.specs.Makes.{Stands};

    /// What a kernel with no process holds. `limits.file_max` is at most 16,777,216. It takes no memory.
    pub fn new(alloc: A, limits: Limits) -> KernelState<A>
        requires { limits.file_max ≤ most_file_bytes }
        ensures { Stands result (opening {A = A} limits) }
    {
        KernelState {
            alloc,
            limits,
            descs: Descs::new(alloc, desc_limits(limits)),
            nodes: Nodes::new(alloc, node_limits(limits)),
            parked: Parked::new(alloc, limits.first_call),
        }
    }
}

impl<A: Allocator + Copy> KernelState<A> {
    ghost use Rattle.std.specs.Prelude.{◌≡◌, ◌||◌, not};
    ghost use Rattle.pl_state.specs.Contents.{lets_wait, lets_name};

    /// Whether fewer calls of the process wait than the limit of each, and fewer of all processes than the limit.
    pub fn can_wait(&self, pid: u32) -> bool
        ensures { result ≡ lets_wait self.now pid }
    {
        (self.parked.count_of(pid) as u64) < self.limits.waiting_of_each
            && (self.parked.len() as u64) < self.limits.waiting_max
    }

    /// Whether there are fewer names than the limit.
    pub fn can_name(&self) -> bool
        ensures { result ≡ lets_name self.now }
    {
        (self.nodes.name_count() as u64) < self.limits.names_max
    }

    /// Whether a call that would wait answers `EAGAIN`: it may not wait, or as many calls wait as may.
    pub fn refuses_to_wait(&self, pid: u32, nonblock: bool) -> bool
        ensures { result ≡ (nonblock || not (lets_wait self.now pid)) }
    {
        nonblock || !self.can_wait(pid)
    }
}
