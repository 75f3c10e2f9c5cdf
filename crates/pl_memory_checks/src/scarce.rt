//! A bench in memory of which a chosen request is refused.
use pl_model::{Limits, Reply};
use pl_refusing::Refusing;
use pl_testing::LIMITS;
use pl_testing::asked::{Ask, Data, Want, steps_of};
use pl_testing::bench::Bench;
use pl_testing::wanting::takes_no_memory;
use std::alloc::Global;
use std::marker::Model;
use std::test::Fail;

/// A kernel in memory of `heap`. The bytes of what it is asked are in that memory too, and are no requests for it.
#[derive(Drop)]
pub(crate) struct Scarce<'a> {
    heap: &'a Refusing<Global>,
    bench: Bench<&'a Refusing<Global>>,
}

impl<'a> Model for Scarce<'a> {
    ghost use Rattle.std.specs.Prelude.{ℕ};

    ghost Value = { ℕ };

    ghost view = { λ _. 0 };
}

impl<'a> Scarce<'a> {
    /// A new kernel, whose calls are numbered from `first_call`; no request of it is refused.
    pub(crate) fn new(
        name: &'static str,
        first_call: u64,
        alloc: Global,
        heap: &'a Refusing<Global>,
    ) -> Result<Self, Fail> {
        let limits = Limits {
            first_call,
            ..LIMITS
        };
        heap.refuse(0);
        let bench = Bench::new(name, alloc, heap, limits)?;
        Ok(Scarce { heap, bench })
    }

    /// So many processes start, and the first `full_tables` of them fill their tables.
    pub(crate) fn prepare(&mut self, processes: u32, full_tables: u32) -> Result<(), Fail> {
        self.bench.prepare(processes, full_tables)
    }

    /// From now on the `n`th request is refused, and the count begins anew.
    pub(crate) fn refuse(&mut self, n: u64) {
        self.heap.refuse(n);
        self.bench.tell_refused(n);
    }

    /// Makes the step, and answers whether it found memory.
    fn reaches(&mut self, ask: Ask, want: Want) -> Result<bool, Fail> {
        let counted = self.heap.pause();
        let step = ask.step(self.heap)?;
        self.heap.go_on(counted);
        self.bench.makes(ask, step, want)
    }

    /// Makes the step, and answers whether it found memory: it finds none just where a request that it makes is refused. It
    /// fails where that isn't so, where the step is to take no memory and asks for some, and where it doesn't answer what is
    /// wanted.
    pub(crate) fn makes(&mut self, ask: Ask, want: Want) -> Result<bool, Fail> {
        let (requests, refused) = (self.heap.requests(), self.heap.refused());
        let found = self.reaches(ask, want)?;
        if found == (self.heap.refused() != refused) {
            return Err(self.fault(ask, "finds memory, or none, against what is refused"));
        }
        if takes_no_memory(ask, want) && self.heap.requests() != requests {
            return Err(self.fault(ask, "asks for memory"));
        }
        Ok(found)
    }

    /// Asks for the bytes of the file, and answers whether that found memory.
    fn reaches_file(&mut self, name: Data, want: Option<Data>) -> Result<bool, Fail> {
        let counted = self.heap.pause();
        let name = name.name(self.heap)?;
        self.heap.go_on(counted);
        self.bench.file_has(&name, want)
    }

    /// Asks for the bytes of the file, and answers whether that found memory: it finds none just where a request that it makes is
    /// refused, and makes none where there is no such file. It fails where that isn't so, and where it tells other bytes than those
    /// that are wanted.
    pub(crate) fn file_has(&mut self, name: Data, want: Option<Data>) -> Result<bool, Fail> {
        let (requests, refused) = (self.heap.requests(), self.heap.refused());
        let found = self.reaches_file(name, want)?;
        if found == (self.heap.refused() != refused) {
            return Err(self.file_fault("finds memory, or none, against what is refused"));
        }
        if want.is_none() && self.heap.requests() != requests {
            return Err(self.file_fault("isn't there, and asks for memory"));
        }
        Ok(found)
    }

    /// Makes the steps as one run, and answers what each came to, `None` where it found no memory; `None` where the run itself
    /// found none.
    pub(crate) fn run(&mut self, rows: &[(Ask, Want)]) -> Result<Option<Vec<Option<Reply>>>, Fail> {
        let counted = self.heap.pause();
        let steps = steps_of(self.heap, rows)?;
        self.heap.go_on(counted);
        self.bench.run(steps)
    }

    /// Makes the steps, of which each answers what its row says; no request for memory is refused.
    pub(crate) fn all_answer(&mut self, rows: &[(Ask, Want)]) -> Result<(), Fail> {
        let counted = self.heap.pause();
        self.bench.all_answer(rows)?;
        self.heap.go_on(counted);
        Ok(())
    }

    /// Ends every process, and takes the names away, which are all; no request for memory is refused. It fails where one
    /// isn't there, and where bytes are kept after that.
    pub(crate) fn ends_empty(&mut self, names: &[Data]) -> Result<(), Fail> {
        let counted = self.heap.pause();
        self.bench.ends_empty(names)?;
        self.heap.go_on(counted);
        Ok(())
    }

    /// In how many segments of memory bytes are kept.
    pub(crate) fn segments(&self) -> u64 {
        self.bench.segments()
    }

    /// In how many slots the bytes of the pipe of a descriptor stand, if it is open on one.
    pub(crate) fn slots(&self, pid: u32, fd: i32) -> Option<u32> {
        self.bench.slots(pid, fd)
    }

    /// What a test fails with at a file that is asked for behind the last step.
    pub(crate) fn file_fault(&self, what: &str) -> Fail {
        self.bench.file_fault(what)
    }

    /// What a test fails with at the last step.
    pub(crate) fn fault(&self, ask: Ask, what: &str) -> Fail {
        self.bench.fault(ask, what)
    }
}
