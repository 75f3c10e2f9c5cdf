//! Scripts that run where a request for memory is refused.
use super::equal::is;
use super::trickling::{Drip, Failure, run_from};
use pl_model::Totals;
use pl_refusing::{MOST_REQUESTS, Refusing};
use pl_run::LIMITS;
use pl_script::ScriptFault;
use std::alloc::{Allocator, Global};
use std::process::Abort;
use std::test::Fail;

/// A script of seven lines, how many of them ask for a step, what it prints, what it prints where one line finds no memory, which
/// then changes nothing, and what it has printed where a line finds none for its bytes, its name or its entries.
#[derive(Clone, Copy)]
struct Run {
    script: &'static str,
    steps: u32,
    output: &'static str,
    outputs_with_nomem: &'static [&'static str],
    outputs_before_writes: &'static [&'static str],
}

const NOTHING_WAITS: Run = Run {
    script: "start\n1 pipe nonblock\n1 read 0 1\n1 write 1 70*61\n1 read 0 3\n1 write 1 70*62\n1 write 1 63\n",
    steps: 7,
    output: "pid 1\nfds 0 1\nEAGAIN\ncount 70\ndata 616161\ncount 70\ncount 1\n",
    outputs_with_nomem: &[
        "nomem\nno process\nno process\nno process\nno process\nno process\nno process\n",
        "pid 1\nnomem\nEBADF\nEBADF\nEBADF\nEBADF\nEBADF\n",
        "pid 1\nfds 0 1\nEAGAIN\nnomem\nEAGAIN\ncount 70\ncount 1\n",
        "pid 1\nfds 0 1\nEAGAIN\ncount 70\nnomem\ncount 70\ncount 1\n",
        "pid 1\nfds 0 1\nEAGAIN\ncount 70\ndata 616161\nnomem\ncount 1\n",
        "pid 1\nfds 0 1\nEAGAIN\ncount 70\ndata 616161\ncount 70\nnomem\n",
    ],
    outputs_before_writes: &[
        "pid 1\nfds 0 1\nEAGAIN\n",
        "pid 1\nfds 0 1\nEAGAIN\ncount 70\ndata 616161\n",
        "pid 1\nfds 0 1\nEAGAIN\ncount 70\ndata 616161\ncount 70\n",
    ],
};

const A_WRITE_WAITS: Run = Run {
    script: "start\n1 pipe\n1 write 1 70000*61\n1 read 0 3\nresume 1\ninterrupt 1\nresume 1\n",
    steps: 7,
    output: "pid 1\nfds 0 1\nparked 1\ndata 616161\nparked 1\ncount 65539\nno call\n",
    outputs_with_nomem: &[
        "nomem\nno process\nno process\nno process\nno call\nno call\nno call\n",
        "pid 1\nnomem\nEBADF\nEBADF\nno call\nno call\nno call\n",
        "pid 1\nfds 0 1\nnomem\nparked 1\nparked 1\nEINTR\nno call\n",
        "pid 1\nfds 0 1\nparked 1\nnomem\nparked 1\ncount 65536\nno call\n",
        "pid 1\nfds 0 1\nparked 1\ndata 616161\nnomem\ncount 65536\nno call\n",
    ],
    outputs_before_writes: &["pid 1\nfds 0 1\n"],
};

/// A line `file` is no step; where it finds no memory, the file stays as it is.
const A_FILE_IS_TOLD_OF: Run = Run {
    script: "start\n1 open f w creat\n1 write 0 6162\nfile f\n1 unlink f\nfile f\n1 lseek 0 0 cur\n",
    steps: 5,
    output: "pid 1\nfd 0\ncount 2\nfile 6162\nok\nno file\noffset 2\n",
    outputs_with_nomem: &[
        "nomem\nno process\nno process\nno file\nno process\nno file\nno process\n",
        "pid 1\nnomem\nEBADF\nno file\nENOENT\nno file\nEBADF\n",
        "pid 1\nfd 0\nnomem\nfile -\nok\nno file\noffset 0\n",
        "pid 1\nfd 0\ncount 2\nnomem\nok\nno file\noffset 2\n",
    ],
    outputs_before_writes: &[
        "pid 1\n",
        "pid 1\nfd 0\n",
        "pid 1\nfd 0\ncount 2\n",
        "pid 1\nfd 0\ncount 2\nfile 6162\n",
        "pid 1\nfd 0\ncount 2\nfile 6162\nok\n",
    ],
};

/// Where the first open finds no memory, the second waits in its place.
const AN_OPEN_WAITS: Run = Run {
    script: "start\n1 mkfifo q\n1 open q r\n1 open q w\n1 write 0 6162\nresume 1\n1 read 1 9\n",
    steps: 7,
    output: "pid 1\nok\nparked 1\nfd 0\ncount 2\nfd 1\ndata 6162\n",
    outputs_with_nomem: &[
        "nomem\nno process\nno process\nno process\nno process\nno call\nno process\n",
        "pid 1\nnomem\nENOENT\nENOENT\nEBADF\nno call\nEBADF\n",
        "pid 1\nok\nnomem\nparked 1\nEBADF\nparked 1\nEBADF\n",
        "pid 1\nok\nparked 1\nnomem\nEBADF\nparked 1\nEBADF\n",
        "pid 1\nok\nparked 1\nfd 0\nnomem\nfd 1\nparked 2\n",
        "pid 1\nok\nparked 1\nfd 0\ncount 2\nfd 1\nnomem\n",
    ],
    outputs_before_writes: &[
        "pid 1\n",
        "pid 1\nok\n",
        "pid 1\nok\nparked 1\n",
        "pid 1\nok\nparked 1\nfd 0\n",
    ],
};

/// A line that polls takes memory for its entries, too.
const A_POLL_WAITS: Run = Run {
    script: "start\n1 pipe\n1 poll wait 0:in 1:-\n1 write 1 61\nresume 1\n1 poll now 1:out 9:-\ninterrupt 1\n",
    steps: 7,
    output: "pid 1\nfds 0 1\nparked 1\ncount 1\nmasks 1 in -\nmasks 2 out nval\nno call\n",
    outputs_with_nomem: &[
        "nomem\nno process\nno process\nno process\nno call\nno process\nno call\n",
        "pid 1\nnomem\nmasks 2 nval nval\nEBADF\nno call\nmasks 2 nval nval\nno call\n",
        "pid 1\nfds 0 1\nnomem\ncount 1\nno call\nmasks 2 out nval\nno call\n",
        "pid 1\nfds 0 1\nparked 1\nnomem\nparked 1\nmasks 2 out nval\nEINTR\n",
        "pid 1\nfds 0 1\nparked 1\ncount 1\nnomem\nmasks 2 out nval\nEINTR\n",
        "pid 1\nfds 0 1\nparked 1\ncount 1\nmasks 1 in -\nnomem\nno call\n",
    ],
    outputs_before_writes: &[
        "pid 1\nfds 0 1\n",
        "pid 1\nfds 0 1\nparked 1\n",
        "pid 1\nfds 0 1\nparked 1\ncount 1\nmasks 1 in -\n",
    ],
};

/// Which request of a run is refused, and what the run printed.
#[derive(Clone, Copy)]
struct At<'a> {
    request: u64,
    is_refused: bool,
    output: &'a str,
}

/// Whether that is a front of what the run prints without a refusal, each line of it whole.
fn is_front(run: Run, output: &str) -> bool {
    let is_whole = output.is_empty() || output.ends_with('\n');
    is_whole && run.output.starts_with(output)
}

/// The run found no memory to go on, and printed the lines till then, each of them whole.
fn is_stopped(rt: &impl Abort, run: Run, at: At<'_>, fault: ScriptFault) {
    let told = (at.request, at.is_refused, fault, is_front(run, at.output));
    let wanted = (at.request, true, ScriptFault::NoMemory, true);
    is(rt, at.output, 0, told, wanted);
}

/// Whether that is what one step without memory makes of the run.
fn has_nomem(run: Run, output: &str) -> bool {
    run.outputs_with_nomem.contains(&output)
}

/// The run printed what it prints without a refusal, or what one step without memory makes of it. Answers whether a step
/// found none.
fn is_ended(rt: &impl Abort, run: Run, at: At<'_>, totals: Totals) -> bool {
    let is_nomem = at.output != run.output;
    let wanted = Totals {
        lines: 7,
        steps: run.steps,
        nomem: u32::from(is_nomem),
    };
    let is_known = !is_nomem || at.is_refused && has_nomem(run, at.output);
    let told = (at.request, totals, is_known);
    is(rt, at.output, 0, told, (at.request, wanted, true));
    is_nomem
}

/// What the runs came to, each with a later request refused than the one before.
#[derive(Clone, Copy)]
struct Seen {
    /// A run made fewer requests than the number of the one to refuse.
    has_ended: bool,
    has_printed_nomem: bool,
    /// How many of the outputs before a line that writes, polls or has a name were printed by runs that found no memory to go on.
    before_writes: usize,
}

impl Seen {
    fn stopped(self, run: Run, output: &str) -> Self {
        match run.outputs_before_writes.get(self.before_writes) {
            Some(next) if *next == output => Seen {
                before_writes: self.before_writes.saturating_add(1),
                ..self
            },
            _ => self,
        }
    }
}

/// A run in memory that can be refused.
#[derive(Drop)]
struct Subject<A: Allocator = Global> {
    alloc: A,
    heap: Refusing<A>,
    run: Run,
}

impl<A: Allocator + Copy> Subject<A> {
    fn new(alloc: A, run: Run) -> Self {
        Subject {
            alloc,
            heap: Refusing::new(alloc),
            run,
        }
    }

    /// Runs the script, and refuses the `n`th request for memory.
    fn run_without(&self, n: u64, writer: &mut Drip<A>) -> Result<Totals, ScriptFault> {
        self.heap.refuse(n);
        run_from(
            &self.heap,
            LIMITS.first_call,
            self.run.script.as_bytes(),
            writer,
        )
    }

    /// Where the `n`th request is refused and the first write fails too, the run ends by the write.
    fn fail_the_write_too(&self, rt: &impl Abort, n: u64) {
        let mut writer = Drip::failing(self.alloc, usize::MAX, 1, Failure::Nothing);
        let ended = self.run_without(n, &mut writer);
        let wanted = (n, Err(ScriptFault::Write));
        is(rt, "a write fails too", 0, (n, ended), wanted);
    }

    fn see(
        &self,
        rt: &impl Abort,
        seen: Seen,
        at: At<'_>,
        ended: Result<Totals, ScriptFault>,
    ) -> Seen {
        match ended {
            Ok(totals) => Seen {
                has_ended: !at.is_refused,
                has_printed_nomem: is_ended(rt, self.run, at, totals) || seen.has_printed_nomem,
                ..seen
            },
            Err(fault) => {
                is_stopped(rt, self.run, at, fault);
                if !at.output.is_empty() {
                    self.fail_the_write_too(rt, at.request);
                }
                seen.stopped(self.run, at.output)
            }
        }
    }

    /// Refuses the `n`th request of the run.
    fn refuse(&self, rt: &impl Abort, seen: Seen, n: u64) -> Result<Seen, Fail> {
        let mut writer = Drip::new(self.alloc, usize::MAX);
        let ended = self.run_without(n, &mut writer);
        let at = At {
            request: n,
            is_refused: self.heap.refused(),
            output: str::from_utf8(writer.taken())?,
        };
        Ok(self.see(rt, seen, at, ended))
    }

    /// Refuses each request of the run in turn.
    fn refuse_each(&self, rt: &impl Abort) -> Result<Seen, Fail> {
        let mut seen = Seen {
            has_ended: false,
            has_printed_nomem: false,
            before_writes: 0,
        };
        for n in 1..MOST_REQUESTS {
            seen = self.refuse(rt, seen, n)?;
            if seen.has_ended {
                break;
            }
        }
        Ok(seen)
    }
}

/// A step found no memory in some run, and each output before a line that writes, polls or has a name was printed by some run
/// that found none to go on.
fn are_seen(rt: &impl Abort, run: Run, seen: Seen) {
    let told = (seen.has_printed_nomem, seen.before_writes);
    let wanted = (true, run.outputs_before_writes.len());
    is(rt, run.output, 0, told, wanted);
}

/// Each request is refused. Where a line finds no memory for its bytes, its name or its entries, the lines before it are printed.
fn each_is_refused<A: Allocator + Copy>(rt: &impl Abort, alloc: A, run: Run) -> Result<(), Fail> {
    let subject = Subject::new(alloc, run);
    let seen = subject.refuse_each(rt)?;
    let requests = subject.heap.requests();
    is(
        rt,
        run.output,
        0,
        (seen.has_ended, requests > 0),
        (true, true),
    );
    are_seen(rt, run, seen);
    Ok(())
}

const RUNS: &[Run] = &[
    NOTHING_WAITS,
    A_WRITE_WAITS,
    A_FILE_IS_TOLD_OF,
    AN_OPEN_WAITS,
    A_POLL_WAITS,
];

#[test]
fn each_request_is_refused(rt: HostRuntime) -> Result<(), Fail> {
    for run in RUNS {
        each_is_refused(&rt, rt.alloc(), *run)?;
    }
    Ok(())
}

/// How many requests for memory the run of a script makes.
fn requests_of<A: Allocator + Copy>(alloc: A, script: &str) -> Result<u64, ScriptFault> {
    let heap = Refusing::new(alloc);
    let mut writer = Drip::new(alloc, usize::MAX);
    run_from(&heap, LIMITS.first_call, script.as_bytes(), &mut writer)?;
    Ok(heap.requests())
}

const READS_ARE_REFUSED: &str =
    "start\n1 pipe nonblock\n1 pipe nonblock\n1 write 3 65536*61\n    1 read 0 16777216\n    1 read 9 16777216\n    2 read 0 16777216\n";

/// As long as the other, and answered the same.
const WRITES_ARE_REFUSED: &str =
    "start\n1 pipe nonblock\n1 pipe nonblock\n1 write 3 65536*61\n1 write 3 16777216*61\n1 write 9 16777216*61\n2 write 3 16777216*61\n";

/// A write that is refused asks for no more memory than a read that is: its bytes aren't made.
#[test]
fn a_refused_write_makes_no_bytes(rt: HostRuntime) {
    let reads = requests_of(rt.alloc(), READS_ARE_REFUSED);
    let writes = requests_of(rt.alloc(), WRITES_ARE_REFUSED);
    is(
        &rt,
        WRITES_ARE_REFUSED,
        0,
        (reads.is_ok(), writes),
        (true, reads),
    );
}
