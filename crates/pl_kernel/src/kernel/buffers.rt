//! Steps on the caller's own bytes and entries.
ghost use Rattle.std.specs.Prelude.{◌≡◌, ◌≢◌, ◌≤◌, ◌<◌, ◌^◌, ℕ, List, length, drop, IfOk, OnErr, IsOk, IfSome, IfNone, Ok, Some};
ghost use Rattle.pl_model.specs.Numbers.{most_bytes, most_capacity};
ghost use Rattle.pl_state.specs.Makes.{Makes, LeavesByReply, WantsMemory};
ghost use Rattle.pl_state.specs.Parking.{ReadWaits};
ghost use Rattle.pl_transfers.specs.ReadInto.{told, read_count};
ghost use Rattle.pl_transfers.specs.Readable.{gives_again};
ghost use Rattle.pl_transfers.specs.Waits.{reply_of};
ghost use Rattle.pl_polls.specs.Entries.{asked, entries_after};
ghost use Rattle.pl_polls.specs.Into.{told as poll_told};
ghost use Rattle.pl_kernel.specs.Taken.{TellsTaken};
ghost use Rattle.pl_kernel.specs.Buffers.{Parks, gives, resumed_count, IsOfOther, IsWaitingRead, ReadsAgain, Resumes, ResumesByReply};

use super::Kernel;
use crate::resuming::resume_read_into;
use crate::sizes::bytes_to_read;
use crate::steps::{
    begin_poll_into, begin_read_into, begin_write_from, refusal_of_write, try_again,
};
use crate::touch::{touch_again, touch_named};
use pl_model::{Call, Reply, Step};
use pl_polls::PollEntry;
use pl_state::{Answered, NoMemory};
use pl_transfers::{Written, bytes_to_resume, read_again};
use std::alloc::{Allocator, Global};

/// What the resumption of a call answers, where a read gives its bytes into the caller's.
#[derive(Drop, Debug)]
pub enum Resumed<A: Allocator = Global> {
    /// The parked call is a read, and this is its answer.
    Read(Answered<usize>),
    /// It is a read that gives so many bytes now, and the caller's are fewer. Nothing changed.
    Short(u32),
    /// It is another call, and this is its reply; or there is no call of the number.
    Other(Reply<A>),
}

impl<A: Allocator + Copy> Kernel<A> {
    /// Makes the step at which the process of a pid begins a Write of the caller's bytes, at most 16,777,216 of them. What
    /// `step` promises of that step holds. Where the call is parked, it keeps a copy of them all.
    ///
    /// # Errors
    ///
    /// `NoMemory`, as of `step`.
    #[inline(always)]
    pub fn write_from(
        &mut self,
        pid: u32,
        fd: i32,
        bytes: &[u8],
    ) -> Result<Answered<Written>, NoMemory>
        requires { length bytes.now ≤ most_bytes }
        ensures made { IfOk result (λ reply. Makes {A = A} self.old (Step.Begin pid (Call.Write fd bytes.now)) (reply_of reply) self.new) }
        ensures refused { IfOk result (λ reply. LeavesByReply {A = A} self.old (Step.Begin pid (Call.Write fd bytes.now)) (reply_of reply) self.new) }
        ensures unmade { OnErr result (self.new ≡ self.old) }
        ensures wanted { OnErr result (WantsMemory {A = A} self.old (Step.Begin pid (Call.Write fd bytes.now))) }
    {
        // A proof learns here that nothing was left to settle, so that a refused step leaves the very state.
        let state = &self.state;
        let _ = &state.descs;
        self.none_ready = false;
        touch_named(state, &mut self.waiters, pid, fd);
        let made = begin_write_from(&mut self.state, pid, fd, bytes);
        // The same once the step was made.
        let state = &self.state;
        let _ = &state.descs;
        self.keep_up(matches!(&made, Ok(Answered::Parked(_))), made.is_err());
        made
    }

    /// What the step at which the process of a pid begins a Write of so many bytes, not none, answers where it is refused: whatever
    /// the bytes are, it answers this and changes nothing. `None` exactly where it isn't refused, so that it may want memory.
    /// Who makes the bytes asks here before. It takes no memory.
    pub fn refusal_of_write(&self, pid: u32, fd: i32, count: usize) -> Option<Reply<A>>
        requires { count ≢ 0 }
        ensures some { IfSome result (λ reply. (bytes : List ℕ) → length bytes ≡ count → Makes {A = A} self.now (Step.Begin pid (Call.Write fd bytes)) reply self.now) }
        ensures none { IfNone result ((bytes : List ℕ) → length bytes ≡ count → WantsMemory {A = A} self.now (Step.Begin pid (Call.Write fd bytes))) }
    {
        refusal_of_write(&self.state, pid, fd, count)
    }

    /// How many bytes a Read of at most `n` gives that the process of a pid begins now. It is 0 where the Read is refused or waits, and at the end
    /// of a file. It changes nothing and takes no memory.
    pub fn bytes_to_read(&self, pid: u32, fd: i32, n: u32) -> usize
        ensures value { result ≡ gives {A = A} self.now pid fd n }
        ensures most { result ≤ n }
    {
        bytes_to_read(&self.state, pid, fd, n)
    }

    /// How many bytes the parked call of a number gives that is tried again now: at most 1,048,576. It is 0 where the call waits on or is no Read, and
    /// where there is none of the number. It changes nothing and takes no memory.
    pub fn bytes_to_resume(&self, number: u64) -> usize
        ensures value { result ≡ gives_again {A = A} self.now number }
        ensures most { result ≤ most_capacity }
    {
        bytes_to_resume(&self.state, number)
    }

    /// Makes the step at which the process of a pid begins a Read of as many bytes as the caller's are, into the first of these; the
    /// others stay as they are. What `step` promises of that step holds.
    ///
    /// # Errors
    ///
    /// `NoMemory` only where the call would be parked. It leaves the kernel and the caller's bytes as they were.
    #[inline(always)]
    pub fn read_into(
        &mut self,
        pid: u32,
        fd: i32,
        into: &mut [u8],
    ) -> Result<Answered<usize>, NoMemory>
        requires { length into.old < 2 ^ 32 }
        ensures made { IfOk result (λ reply. Makes {A = A} self.old (Step.Begin pid (Call.Read fd (length into.old))) (told reply into.new) self.new) }
        ensures refused { IfOk result (λ reply. LeavesByReply {A = A} self.old (Step.Begin pid (Call.Read fd (length into.old))) (told reply into.new) self.new) }
        ensures given { IfOk result (λ reply. read_count reply ≡ gives {A = A} self.old pid fd (length into.old)) }
        ensures within { IfOk result (λ reply. read_count reply ≤ length into.new) }
        ensures rest { IfOk result (λ reply. drop (read_count reply) into.new ≡ drop (read_count reply) into.old) }
        ensures unmade { OnErr result (self.new ≡ self.old) }
        ensures unread { OnErr result (into.new ≡ into.old) }
        ensures wanted { OnErr result (Parks {A = A} self.old (Step.Begin pid (Call.Read fd (length into.old)))) }
    {
        // A proof learns here that nothing was left to settle, so that a refused step leaves the very state.
        let state = &self.state;
        let _ = &state.descs;
        self.none_ready = false;
        touch_named(state, &mut self.waiters, pid, fd);
        let made = begin_read_into(&mut self.state, pid, fd, into);
        // The same once the step was made.
        let state = &self.state;
        let _ = &state.descs;
        self.keep_up(matches!(&made, Ok(Answered::Parked(_))), made.is_err());
        made
    }

    /// Makes the step at which the process of a pid begins a Poll of what the caller's entries ask. Where it is answered, what was found
    /// of each is noted in it; at any other answer than `Done` the entries stay as they are. What `step` promises of that step holds.
    ///
    /// # Errors
    ///
    /// `NoMemory` only where the call would be parked, which keeps a copy of what is asked. It leaves the kernel and the entries as they
    /// were.
    pub fn poll_into(
        &mut self,
        pid: u32,
        entries: &mut [PollEntry],
        wait: bool,
    ) -> Result<Answered<u32>, NoMemory>
        ensures made { IfOk result (λ reply. Makes {A = A} self.old (Step.Begin pid (Call.Poll (asked entries.old) wait)) (poll_told reply entries.new) self.new) }
        ensures refused { IfOk result (λ reply. LeavesByReply {A = A} self.old (Step.Begin pid (Call.Poll (asked entries.old) wait)) (poll_told reply entries.new) self.new) }
        ensures noted { IfOk result (λ reply. entries.new ≡ entries_after {A = A} entries.old (poll_told reply entries.new)) }
        ensures unmade { OnErr result (self.new ≡ self.old) }
        ensures unmarked { OnErr result (entries.new ≡ entries.old) }
        ensures wanted { OnErr result (Parks {A = A} self.old (Step.Begin pid (Call.Poll (asked entries.old) wait))) }
    {
        // A proof learns here that nothing was left to settle, so that a refused step leaves the very state.
        let state = &self.state;
        let _ = &state.descs;
        self.none_ready = false;
        let made = begin_poll_into(&mut self.state, pid, entries, wait);
        // The same once the step was made. It touches nothing.
        let state = &self.state;
        let _ = &state.descs;
        self.keep_up(matches!(&made, Ok(Answered::Parked(_))), made.is_err());
        made
    }

    /// Makes the step that tries the parked call of a number again, where a read gives its bytes into the first of the caller's; the
    /// others stay as they are. What `step` promises of that step holds. A read that would give more bytes than
    /// the caller has room for isn't tried, and nothing changes. It gives what its pipe holds, and no more than it asked for, so room for
    /// 1,048,576 is always enough.
    ///
    /// # Errors
    ///
    /// `NoMemory`, as of `step`, but never where the call is a read.
    pub fn resume_into(&mut self, number: u64, into: &mut [u8]) -> Result<Resumed<A>, NoMemory>
        ensures made { IfOk result (λ resumed. Resumes {A = A} self.old number (length into.old) resumed into.new self.new) }
        ensures refused { IfOk result (λ resumed. ResumesByReply {A = A} self.old number resumed into.new self.new) }
        ensures reads { (key n : ℕ) → ReadWaits {A = A} self.old number key n → IsOk result × IfOk result (ReadsAgain {A = A} self.old number (length into.old)) }
        ensures others { ((key n : ℕ) → ¬ ReadWaits {A = A} self.old number key n) → IfOk result IsOfOther }
        ensures given { IfOk result (λ resumed. resumed_count resumed ≤ gives_again {A = A} self.old number) }
        ensures within { IfOk result (λ resumed. resumed_count resumed ≤ length into.new) }
        ensures rest { IfOk result (λ resumed. drop (resumed_count resumed) into.new ≡ drop (resumed_count resumed) into.old) }
        ensures unchanged { OnErr result ((self.new ≡ self.old) × (into.new ≡ into.old)) }
        ensures wanted { OnErr result (WantsMemory {A = A} self.old (Step.Resume number)) }
    {
        let Some(resumed) = self.resume_read(number, into) else {
            // A proof learns here that nothing was left to settle, so that a refused step leaves the very state.
            let state = &self.state;
            let _ = &state.descs;
            self.none_ready = false;
            touch_again(state, &mut self.waiters, number);
            let made = try_again(&mut self.state, number);
            // The same once the step was made.
            let state = &self.state;
            let _ = &state.descs;
            return Ok(Resumed::Other(made?));
        };
        Ok(resumed)
    }

    /// Makes the step that tries the parked call of a number again, if it is a read, as `resume_into` does. It takes no memory. `None` where it
    /// is another call, or there is none of the number: then nothing changes.
    // In place in its caller, where the answer is looked at next.
    #[inline(always)]
    pub fn resume_read(&mut self, number: u64, into: &mut [u8]) -> Option<Resumed<A>>
        ensures made { IfSome result (λ resumed. Resumes {A = A} self.old number (length into.old) resumed into.new self.new) }
        ensures refused { IfSome result (λ resumed. ResumesByReply {A = A} self.old number resumed into.new self.new) }
        ensures reads { IfSome result (λ resumed. IsWaitingRead {A = A} self.old number × ReadsAgain {A = A} self.old number (length into.old) resumed) }
        ensures given { IfSome result (λ resumed. resumed_count resumed ≤ gives_again {A = A} self.old number) }
        ensures within { IfSome result (λ resumed. resumed_count resumed ≤ length into.new) }
        ensures rest { IfSome result (λ resumed. drop (resumed_count resumed) into.new ≡ drop (resumed_count resumed) into.old) }
        ensures untaken { IfSome result (λ resumed. TellsTaken {A = A} self.old number (Some 0)) }
        ensures others { IfNone result ((key n : ℕ) → ¬ ReadWaits {A = A} self.old number key n) }
        ensures unchanged { IfNone result ((self.new ≡ self.old) × (into.new ≡ into.old)) }
    {
        // A proof learns here that nothing was left to settle, so that a refused step leaves the very state.
        let state = &self.state;
        let _ = &state.descs;
        let read = read_again(state, number)?;
        if into.len() < read.count {
            return Some(Resumed::Short(read.count as u32));
        }
        self.none_ready = false;
        Some(Resumed::Read(resume_read_into(
            &mut self.state,
            &mut self.waiters,
            number,
            read,
            into,
        )))
    }
}
