//! A kernel on which tests make their steps.
use crate::asked::{Ask, Data, Want};
use crate::buffers::reply_on_buffers;
use pl_kernel::Kernel;
use pl_model::numbers::{MAX_FILE_BYTES, USUAL_PROCESSES};
use pl_model::{Bytes8, Call, Limits, MaskList, Name, Outcome, Reply, Step};
use std::alloc::{Allocator, Global};
use std::marker::Model;
use std::test::Fail;

/// A kernel in memory of `heap`, and what a failure says of the steps that are made on it.
///
/// Contracts say nothing of it: what the kernel answers is compared as the tests run. It stands in a box, so that a test that
/// makes one proves little of its end.
#[derive(Drop)]
pub struct Bench<A: Allocator = Global> {
    name: &'static str,
    alloc: Global,
    heap: A,
    kernel: Box<Kernel<A>>,
    /// Whether steps are made on buffers of the test's where they can be.
    on_buffers: bool,
    /// How many steps were made; a failure names the last.
    made: u64,
    /// The request for memory that is refused; 0 for none.
    refused: u64,
}

impl<A: Allocator> Model for Bench<A> {
    ghost use Rattle.std.specs.Prelude.{ℕ};

    ghost Value = { ℕ };

    ghost view = { λ _. 0 };
}

/// Makes the step, and answers its reply; `None` where it finds no memory.
fn reply_to<A: Allocator + Copy>(kernel: &mut Kernel<A>, step: Step<A>) -> Option<Reply<A>> {
    kernel.step(step).ok()
}

/// Makes the steps as one run, and answers what each came to; `None` where the run itself found no memory.
fn outcomes_of<A: Allocator + Copy>(
    kernel: &mut Kernel<A>,
    steps: Vec<Step<A>, A>,
) -> Option<Vec<Outcome<A>, A>> {
    kernel.run(steps).ok()
}

/// Whether the file of the name has these bytes, or there is none where none are given; `None` where there is no memory for its bytes.
fn file_has<A: Allocator + Copy>(
    kernel: &Kernel<A>,
    name: &Name<A>,
    want: Option<&[u8]>,
) -> Option<bool> {
    let told = kernel.file_bytes(name).ok()?;
    Some(match (&told, want) {
        (Some(told), Some(want)) => told.as_slice() == want,
        (None, None) => true,
        _ => false,
    })
}

/// The reply, with its bytes in memory of `alloc`. It fails where that has none.
pub(crate) fn moved<A: Allocator>(alloc: Global, reply: Reply<A>) -> Result<Reply, Fail> {
    Ok(match reply {
        Reply::Pid(pid) => Reply::Pid(pid),
        Reply::Fd(fd) => Reply::Fd(fd),
        Reply::Fds(first, second) => Reply::Fds(first, second),
        Reply::Count { n, sigpipe } => Reply::Count { n, sigpipe },
        Reply::Bytes(bytes) => {
            let copy = Vec::from_slice(alloc, bytes.as_slice())?;
            Reply::Bytes(Bytes8::from_vec(copy).ok_or("more bytes than a call moves")?)
        }
        Reply::Offset(offset) => Reply::Offset(offset),
        Reply::Flags { mode, flags } => Reply::Flags { mode, flags },
        Reply::Size(size) => Reply::Size(size),
        Reply::Masks { ready, masks } => {
            let copy = Vec::from_slice(alloc, masks.as_slice())?;
            Reply::Masks {
                ready,
                masks: MaskList::from_vec(copy),
            }
        }
        Reply::Unit => Reply::Unit,
        Reply::Fault(errno) => Reply::Fault(errno),
        Reply::Parked(call) => Reply::Parked(call),
        Reply::NoProcess => Reply::NoProcess,
        Reply::NoCall => Reply::NoCall,
        Reply::CallsSpent => Reply::CallsSpent,
    })
}

impl<A: Allocator + Copy> Bench<A> {
    /// A new kernel within the limits, in memory of `heap`. What it is compared with is in memory of `alloc`. It fails where a file
    /// may have more bytes than any can.
    pub fn new(name: &'static str, alloc: Global, heap: A, limits: Limits) -> Result<Self, Fail> {
        if limits.file_max > MAX_FILE_BYTES {
            return Err(Fail::from("no file has so many bytes"));
        }
        Ok(Bench {
            name,
            alloc,
            heap,
            kernel: Box::new(alloc, Kernel::new(heap, limits))?,
            on_buffers: false,
            made: 0,
            refused: 0,
        })
    }

    /// Writes come from buffers of the test's from now on, and reads go into such.
    pub(crate) fn use_buffers(&mut self) {
        self.on_buffers = true;
    }

    /// A failure says from now on that this request for memory is refused.
    pub fn tell_refused(&mut self, request: u64) {
        self.refused = request;
    }

    /// What a test fails with at the last step.
    pub fn fault(&self, ask: Ask, what: &str) -> Fail {
        let (made, name, refused, kind) = (self.made, self.name, self.refused, ask.kind());
        Fail::new(format_args!(
            "step {made} of {name}, {kind}, {what}; request {refused} (0: none) is refused"
        ))
    }

    /// What a test fails with where the last step didn't come to what is wanted.
    fn other_than(&self, ask: Ask, want: &Reply, reply: &Reply) -> Fail {
        let (made, name, refused, kind) = (self.made, self.name, self.refused, ask.kind());
        Fail::new(format_args!(
            "step {made} of {name}, {kind}, answers {reply:?} and not {want:?}; request {refused} (0: none) is refused"
        ))
    }

    /// Makes the step, and answers its reply; `None` where it finds no memory.
    pub fn reply(&mut self, step: Step<A>) -> Result<Option<Reply>, Fail> {
        self.made = self.made.wrapping_add(1);
        if self.on_buffers {
            return reply_on_buffers(self.alloc, &mut self.kernel, step);
        }
        match reply_to(&mut self.kernel, step) {
            Some(reply) => Ok(Some(moved(self.alloc, reply)?)),
            None => Ok(None),
        }
    }

    /// Makes the step, which is what is asked, and answers whether it found memory. It fails where the step did, and doesn't
    /// answer what is wanted.
    pub fn makes(&mut self, ask: Ask, step: Step<A>, want: Want) -> Result<bool, Fail> {
        let Some(reply) = self.reply(step)? else {
            return Ok(false);
        };
        let want = want.reply(self.alloc)?;
        if reply == want {
            Ok(true)
        } else {
            Err(self.other_than(ask, &want, &reply))
        }
    }

    /// Makes the step, and fails where it doesn't answer what is wanted.
    pub fn answers(&mut self, ask: Ask, want: Want) -> Result<(), Fail> {
        let step = ask.step(self.heap)?;
        if self.makes(ask, step, want)? {
            Ok(())
        } else {
            Err(self.fault(ask, "finds no memory"))
        }
    }

    /// Asks for the bytes of the file of the name, and answers whether that found memory. It fails where it did, and tells other bytes
    /// than those that are wanted; `None` is that there is no such file.
    pub fn file_has(&self, name: &Name<A>, want: Option<Data>) -> Result<bool, Fail> {
        let told = match want {
            Some(data) => {
                let bytes = data.bytes(self.alloc)?;
                file_has(&self.kernel, name, Some(bytes.as_slice()))
            }
            None => file_has(&self.kernel, name, None),
        };
        match told {
            Some(false) => Err(self.file_fault("has other bytes, or is there or isn't there")),
            _ => Ok(told.is_some()),
        }
    }

    /// What a test fails with at a file that is asked for behind the last step.
    pub fn file_fault(&self, what: &str) -> Fail {
        let (made, name, refused) = (self.made, self.name, self.refused);
        Fail::new(format_args!(
            "a file behind step {made} of {name} {what}; request {refused} (0: none) is refused"
        ))
    }

    /// Asks for the bytes of the files, and fails at the first that hasn't what is wanted.
    pub fn files_have(&self, files: &[(Data, Option<Data>)]) -> Result<(), Fail> {
        for (name, want) in files {
            let name = name.name(self.heap)?;
            if !self.file_has(&name, *want)? {
                return Err(self.file_fault("finds no memory"));
            }
        }
        Ok(())
    }

    /// A process takes the names away, in order, and ends. It fails where one isn't there.
    fn unlink_all(&mut self, names: &[Data]) -> Result<(), Fail> {
        if names.is_empty() {
            return Ok(());
        }
        self.answers(Ask::Start, Want::Pid(1))?;
        for name in names {
            self.answers(Ask::Unlink(1, *name), Want::Unit)?;
        }
        self.answers(Ask::Exit(1), Want::Unit)
    }

    /// Ends every process, of which there may be no more than usual, and then takes the names away, which are all. It fails where one
    /// isn't there, and where bytes are kept in memory after that.
    pub fn ends_empty(&mut self, names: &[Data]) -> Result<(), Fail> {
        for pid in 1..=USUAL_PROCESSES as u32 {
            let _reply = reply_to(&mut self.kernel, Step::Begin(pid, Call::Exit));
        }
        self.unlink_all(names)?;
        self.has_segments(Ask::Exit(1), 0)
    }

    /// In how many segments of memory bytes are kept.
    pub fn segments(&self) -> u64 {
        self.kernel.stats().segments
    }

    /// How many segments are kept for further bytes.
    pub fn spare(&self) -> u64 {
        self.kernel.stats().spare
    }

    /// Fails where bytes are kept in another number of segments, after the step that was asked last.
    pub fn has_segments(&self, ask: Ask, want: u64) -> Result<(), Fail> {
        if self.segments() == want {
            Ok(())
        } else {
            Err(self.fault(ask, "leaves another number of segments"))
        }
    }

    /// In how many slots the bytes of the pipe of a descriptor stand, if it is open on one.
    pub fn slots(&self, pid: u32, fd: i32) -> Option<u32> {
        self.kernel.slots(pid, fd)
    }

    /// Fails where another number of slots is told of a descriptor, after the step that was asked last.
    pub fn has_slots(&self, ask: Ask, pid: u32, fd: i32, want: Option<u32>) -> Result<(), Fail> {
        if self.slots(pid, fd) == want {
            Ok(())
        } else {
            Err(self.fault(ask, "leaves another number of slots"))
        }
    }

    /// Makes the steps, in order, and fails at the first that doesn't answer what its row says.
    pub fn all_answer(&mut self, rows: &[(Ask, Want)]) -> Result<(), Fail> {
        for (ask, want) in rows {
            self.answers(*ask, *want)?;
        }
        Ok(())
    }

    /// The process makes 128 pipes, which fill its table. It fails where one has other descriptors than the next two.
    fn fill_table(&mut self, pid: u32) -> Result<(), Fail> {
        for i in 0..128u8 {
            let first = 2 * i32::from(i);
            self.answers(Ask::Pipe(pid), Want::Fds(first, first + 1))?;
        }
        Ok(())
    }

    /// So many processes start, at most 1,024, and the first `full_tables` of them fill their tables. These steps aren't counted.
    pub fn prepare(&mut self, processes: u32, full_tables: u32) -> Result<(), Fail> {
        for pid in 1..=processes {
            self.answers(Ask::Start, Want::Pid(pid))?;
        }
        for pid in 1..=full_tables {
            self.fill_table(pid)?;
        }
        self.made = 0;
        Ok(())
    }

    /// Makes the steps as one run, and answers what each came to, `None` where it found no memory; `None` for all where the run
    /// itself finds none.
    pub fn run(&mut self, steps: Vec<Step<A>, A>) -> Result<Option<Vec<Option<Reply>>>, Fail> {
        let Some(outcomes) = outcomes_of(&mut self.kernel, steps) else {
            return Ok(None);
        };
        let mut replies = Vec::new(self.alloc);
        for outcome in outcomes {
            replies.push(match outcome {
                Outcome::Replied(reply) => Some(moved(self.alloc, reply)?),
                Outcome::NoMemory => None,
            })?;
        }
        Ok(Some(replies))
    }
}
