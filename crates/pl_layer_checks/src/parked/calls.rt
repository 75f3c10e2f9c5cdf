//! Calls that wait, as tests name them.
use super::Answer::{self, Changed, Done, Fault, Is, Nothing, Number};
use super::Ask;
use pl_model::{Bytes8, Call, KeyList, Mode, Name, OpenFlags};
use pl_parked::{Parked, ParkedCall};
use pl_refusing::Refusing;
use std::alloc::{Allocator, Global};
use std::marker::Model;

/// A call that waits.
#[derive(Clone, Copy, Debug, PartialEq)]
pub(super) enum Kind {
    /// A read of so many bytes.
    Read(u32),
    /// A write of three bytes, which took so many.
    Write(u32),
    /// An open of the FIFO of a pipe, met or not.
    Open(usize, Mode, bool),
}

use Kind::{Open, Read, Write};

const BYTES: &[u8] = b"abc";

const NAME: &[u8] = b"fifo";

impl Kind {
    /// What becomes of it once the other end is opened.
    pub(super) fn met(self) -> Kind {
        match self {
            Open(pipe, mode, _) => Open(pipe, mode, true),
            other => other,
        }
    }

    /// The key of the description that it waits on or with.
    fn key(self) -> usize {
        match self {
            Read(_) => 3,
            Write(_) => 4,
            Open(..) => 5,
        }
    }

    fn call<A: Allocator>(self, alloc: A) -> Option<Call<A>> {
        match self {
            Read(n) => Some(Call::Read { fd: 0, n }),
            Write(_) => {
                let bytes = Vec::from_slice(alloc, BYTES).ok()?;
                let bytes = Bytes8::from_vec(bytes)?;
                Some(Call::Write { fd: 1, bytes })
            }
            Open(_, mode, _) => {
                let name = Name::from_vec(Vec::from_slice(alloc, NAME).ok()?);
                let flags = OpenFlags::CREAT;
                Some(Call::OpenName { name, mode, flags })
            }
        }
    }

    /// The call of a process, if there is memory for it.
    fn parked<A: Allocator + Copy>(self, alloc: A, pid: u32) -> Option<ParkedCall<A>> {
        let kept = Vec::from_slice(alloc, &[self.key()]).ok()?;
        let call = self.call(alloc)?;
        let (fifo, taken, met) = match self {
            Read(_) => (None, 0, false),
            Write(taken) => (None, taken, false),
            Open(pipe, _, met) => (Some(pipe), 0, met),
        };
        Some(ParkedCall {
            pid,
            call,
            kept: KeyList::from_vec(kept),
            fifo,
            taken,
            met,
        })
    }
}

/// What a call is, but for its process and what it keeps, if it is one of those that tests park.
fn kind_of<A: Allocator>(call: &ParkedCall<A>) -> Option<Kind> {
    match &call.call {
        Call::Read { fd: 0, n } if call.taken == 0 => Some(Read(*n)),
        Call::Write { fd: 1, bytes } if bytes.as_slice() == BYTES => Some(Write(call.taken)),
        Call::OpenName { name, mode, flags }
            if name.as_slice() == NAME && *flags == OpenFlags::CREAT && call.taken == 0 => {
            Some(Open(call.fifo?, *mode, call.met))
        }
        _ => None,
    }
}

/// What a call is, if it is there.
fn told<A: Allocator>(call: Option<&ParkedCall<A>>) -> Answer {
    let Some(call) = call else {
        return Nothing;
    };
    let Some(kind) = kind_of(call) else {
        return Changed;
    };
    let is_open = matches!(kind, Open(..));
    if call.kept.as_slice() != [kind.key()].as_slice()
        || call.fifo.is_some() != is_open
        || call.met && !is_open
    {
        return Changed;
    }
    Answer::Call(call.pid, kind)
}

/// Parked calls in memory of which a chosen request is refused.
#[derive(Drop)]
pub(super) struct Bench<'a, A: Allocator> {
    pub(super) heap: &'a Refusing<Global>,
    alloc: A,
    parked: Parked<A>,
}

impl<'a, A: Allocator> Model for Bench<'a, A> {
    ghost use Rattle.std.specs.Prelude.{ℕ};

    ghost Value = { ℕ };

    ghost view = { λ _. 0 };
}

impl<'a, A: Allocator + Copy> Bench<'a, A> {
    /// No calls yet, of which the first gets the number. Their memory, `alloc`, is of `heap`.
    pub(super) fn new(heap: &'a Refusing<Global>, alloc: A, first: u64) -> Self {
        Bench {
            heap,
            alloc,
            parked: Parked::new(alloc, first),
        }
    }

    /// Parks a call, where the `refused`th request for memory is refused, if that isn't 0.
    pub(super) fn park(&mut self, pid: u32, kind: Kind, refused: u64) -> Answer {
        let Some(call) = kind.parked(self.alloc, pid) else {
            return Nothing;
        };
        self.heap.refuse(refused);
        match self.parked.park(call) {
            Ok(number) => Number(number),
            Err(fault) => Fault(fault),
        }
    }

    /// Parks a call, and takes it back.
    fn take_back(&mut self, pid: u32, kind: Kind) -> Answer {
        let Some(call) = kind.parked(self.alloc, pid) else {
            return Nothing;
        };
        match self.parked.park(call) {
            Ok(number) if self.parked.get(number).is_some() => {
                told(Some(&self.parked.unpark(number)))
            }
            Ok(_) => Nothing,
            Err(fault) => Fault(fault),
        }
    }

    fn set_taken(&mut self, number: u64, taken: u32) -> Answer {
        if self.parked.get(number).is_none() {
            return Nothing;
        }
        self.parked.set_taken(number, taken);
        Done
    }

    pub(super) fn answer(&mut self, ask: Ask) -> Answer {
        // All that wait have places.
        self.parked.place_below(self.parked.next_number());
        match ask {
            Ask::Spent => Is(self.parked.spent()),
            Ask::NextNumber => Number(self.parked.next_number()),
            Ask::Park(pid, kind) => self.park(pid, kind, 0),
            Ask::TakeBack(pid, kind) => self.take_back(pid, kind),
            Ask::Get(number) => told(self.parked.get(number)),
            Ask::Take(number) => told(self.parked.take(number).as_ref()),
            Ask::NextOf(pid, from) => match self.parked.next_of_process(pid, from) {
                Some(number) => Number(number),
                None => Nothing,
            },
            Ask::SetTaken(number, taken) => self.set_taken(number, taken),
            Ask::MarkMet(pipe, mode) => {
                self.parked.mark_met(pipe, mode);
                Done
            }
        }
    }
}
