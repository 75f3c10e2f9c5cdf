//! What is told of processes, pipes, files and parked calls, and of the segments of a kernel.
ghost use Rattle.std.specs.Prelude.{◌≡◌, ◌≤◌, ◌/◌};
ghost use Rattle.pl_kernel.specs.ToldSegments.{TellsUsed, TellsNone};
ghost use Rattle.pl_kernel.specs.ToldNodes.{OfFd, OfName, node_at, facts_named, TellsShape, TellsWhich};
ghost use Rattle.bindingclay.specs.Heap.{InBudget};
ghost use Rattle.bindingclay.specs.Facts.{number_of_node, number_of_call, process_answer, held_answer, fd_answer, name_answer, call_answer, process_after, node_after, call_after, IsFound, TellsOf, Holds, Finds, Names, Waits, Tells};

use super::Layer;
use pl_kernel::{CallFacts, CallKind, NodeFacts, NodeKind, ProcessFacts};
use pl_model::Errno;
use pl_numbers::{Answer, kind};

/// What is told of a process.
#[repr(C)]
#[derive(Clone, Copy)]
pub struct ToldProcess {
    /// How many of its descriptors are open.
    pub descriptors: u64,
    /// How many of its calls wait.
    pub waiting_calls: u64,
}

/// What is told of a pipe or a file.
#[repr(C)]
#[derive(Clone, Copy)]
pub struct ToldNode {
    /// Its key among the pipes or among the files.
    pub key: u64,
    /// How many bytes a pipe holds, or how many a file has.
    pub size: u64,
    /// What it is: 1 a pipe that is a byte queue, 2 a packet pipe, 3 a file.
    pub kind: u32,
}

/// What is told of a parked call.
#[repr(C)]
#[derive(Clone, Copy)]
pub struct ToldCall {
    /// What it is: 1 a read, 2 a write, 3 an open, 4 a splice, 5 a tee, 6 a poll.
    pub kind: u32,
    /// The process that began it.
    pub pid: u32,
    /// The descriptor that it was begun with, or -1.
    pub first: i32,
    /// The second one, of a splice or a tee, or -1.
    pub second: i32,
}

/// In how many segments of 4,096 bytes a kernel keeps bytes.
#[repr(C)]
#[derive(Clone, Copy)]
pub struct SegmentUse {
    /// Those that bytes of pipes and files stand in.
    pub used: u64,
    /// Those that are kept for further bytes.
    pub spare: u64,
}

fn number_of_node(kind: NodeKind) -> u32
    ensures { result ≡ number_of_node kind }
{
    match kind {
        NodeKind::Pipe => 1,
        NodeKind::PacketPipe => 2,
        NodeKind::File => 3,
    }
}

fn number_of_call(kind: CallKind) -> u32
    ensures { result ≡ number_of_call kind }
{
    match kind {
        CallKind::Read => 1,
        CallKind::Write => 2,
        CallKind::Open => 3,
        CallKind::Splice => 4,
        CallKind::Tee => 5,
        CallKind::Poll => 6,
    }
}

// Writes what is told of a process, if there is one.
fn tell_process(told: Option<ProcessFacts>, process: &mut ToldProcess)
    ensures { process.new ≡ process_after process.old told }
{
    if let Some(facts) = told {
        *process = ToldProcess {
            descriptors: facts.descriptors as u64,
            waiting_calls: facts.waiting_calls as u64,
        };
    }
}

// Writes what is told of a pipe or a file, if there is one.
fn tell_node(told: Option<NodeFacts>, node: &mut ToldNode)
    ensures { node.new ≡ node_after node.old told }
{
    if let Some(facts) = told {
        *node = ToldNode {
            key: facts.key,
            size: facts.size as u64,
            kind: number_of_node(facts.kind),
        };
    }
}

// Writes what is told of a parked call, if there is one.
fn tell_call(told: Option<CallFacts>, call: &mut ToldCall)
    ensures { call.new ≡ call_after call.old told }
{
    if let Some(facts) = told {
        *call = ToldCall {
            kind: number_of_call(facts.kind),
            pid: facts.pid,
            first: facts.first,
            second: facts.second,
        };
    }
}

// The answer of a question about a process.
fn answer_of_process(is_process: bool) -> Answer
    ensures { result ≡ process_answer is_process }
{
    if !is_process {
        return Answer::of_kind(kind::NO_PROCESS, 0);
    }
    Answer::done(0)
}

// The answer that tells how many bytes a pipe holds, if there is one.
fn answer_of_held(is_process: bool, told: Option<u32>) -> Answer
    ensures { result ≡ held_answer is_process told }
{
    if !is_process {
        return Answer::of_kind(kind::NO_PROCESS, 0);
    }
    match told {
        Some(bytes) => Answer::done(bytes as u64),
        None => Answer::fault(Errno::EBADF),
    }
}

// The answer of a question about a descriptor.
fn answer_of_fd(is_process: bool, is_open: bool) -> Answer
    ensures { result ≡ fd_answer is_process is_open }
{
    if !is_process {
        return Answer::of_kind(kind::NO_PROCESS, 0);
    }
    if !is_open {
        return Answer::fault(Errno::EBADF);
    }
    Answer::done(0)
}

// The answer of a question about a name.
fn answer_of_name(stands: bool) -> Answer
    ensures { result ≡ name_answer stands }
{
    if !stands {
        return Answer::fault(Errno::ENOENT);
    }
    Answer::done(0)
}

// The answer of a question about a parked call.
fn answer_of_call(waits: bool) -> Answer
    ensures { result ≡ call_answer waits }
{
    if !waits {
        return Answer::of_kind(kind::NO_CALL, 0);
    }
    Answer::done(0)
}

impl Layer {
    /// Tells how many descriptors and how many waiting calls a process has.
    pub fn process_facts(&self, pid: u32, process: &mut ToldProcess) -> Answer
        ensures says { IsFound self.now.kernel pid result }
        ensures process { TellsOf self.now.kernel pid process.old process.new }
    {
        let told = self.kernel.process_facts(pid);
        tell_process(told, process);
        answer_of_process(told.is_some())
    }

    /// Tells how many bytes the pipe holds that a descriptor is open on.
    pub fn held(&self, pid: u32, fd: i32) -> Answer
        ensures { Holds self.now.kernel pid fd result }
    {
        answer_of_held(self.kernel.has_process(pid), self.kernel.held(pid, fd))
    }

    /// Tells of what a descriptor stands for.
    pub fn fd_facts(&self, pid: u32, fd: i32, node: &mut ToldNode) -> Answer
        ensures says { Finds self.now.kernel pid fd result }
        ensures node { node.new ≡ node_after node.old (facts_named {A = InBudget} self.now.kernel (OfFd pid fd)) }
        ensures shape { TellsShape {A = InBudget} self.now.kernel (OfFd pid fd) (facts_named {A = InBudget} self.now.kernel (OfFd pid fd)) }
        ensures which { TellsWhich {A = InBudget} self.now.kernel (OfFd pid fd) (facts_named {A = InBudget} self.now.kernel (OfFd pid fd)) }
    {
        let told = self.kernel.fd_facts(pid, fd);
        tell_node(told, node);
        answer_of_fd(self.kernel.has_process(pid), told.is_some())
    }

    /// Tells of what a name stands for.
    pub fn name_facts(&self, name: &[u8], node: &mut ToldNode) -> Answer
        ensures says { Names self.now.kernel name.now result }
        ensures node { node.new ≡ node_after node.old (facts_named {A = InBudget} self.now.kernel (OfName name.now)) }
        ensures shape { TellsShape {A = InBudget} self.now.kernel (OfName name.now) (facts_named {A = InBudget} self.now.kernel (OfName name.now)) }
        ensures which { TellsWhich {A = InBudget} self.now.kernel (OfName name.now) (facts_named {A = InBudget} self.now.kernel (OfName name.now)) }
    {
        let told = self.kernel.name_facts(name);
        tell_node(told, node);
        answer_of_name(told.is_some())
    }

    /// Tells of the parked call of a number.
    pub fn call_facts(&self, number: u64, call: &mut ToldCall) -> Answer
        ensures says { Waits self.now.kernel number result }
        ensures call { Tells self.now.kernel number call.old call.new }
    {
        let told = self.kernel.call_facts(number);
        tell_call(told, call);
        answer_of_call(told.is_some())
    }

    /// In how many segments the kernel keeps bytes.
    pub fn segments(&self) -> SegmentUse
        ensures spare { result.spare ≤ self.now.kernel.limits.spare_max / 4096 }
        ensures used { result.used ≡ self.now.kernel.nodes.memory.segments }
        ensures named { TellsUsed {A = InBudget} self.now.kernel result.used }
        ensures none { TellsNone {A = InBudget} self.now.kernel result.used }
    {
        let stats = self.kernel.stats();
        SegmentUse {
            used: stats.segments,
            spare: stats.spare,
        }
    }
}
