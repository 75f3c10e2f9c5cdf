//! Hundreds of operations, drawn from tables.
use crate::fault::Fault;
use crate::operation::MOST;
use crate::operation::Operation::{
    self, Copy, InUse, IsDense, Pass, Pop, Push, Put, Read, Reset, SetCapacity, Skip, Take, Tee,
    Truncate, Turn, Write,
};
use crate::watched::{Draws, Watched};
use std::alloc::{Allocator, Global};
use std::marker;
use std::test::Fail;

/// Operations that are drawn from rows. As they are made, they are cut to what there is and what fits, and their
/// places are drawn, below those that stand there.
#[derive(Clone, Copy)]
pub(crate) struct Drawing {
    /// What a failure calls it.
    pub(crate) name: &'static str,
    /// How many bytes the rings may hold.
    pub(crate) capacities: (usize, usize),
    /// How many bytes the file may have.
    pub(crate) most: usize,
    /// What is made first.
    pub(crate) first: &'static [Operation],
    pub(crate) rows: &'static [Operation],
    /// How many operations are made.
    pub(crate) made: u32,
    /// What is made after each.
    pub(crate) then: Operation,
}

const OF_RINGS: &[Drawing] = &[Drawing {
    name: "rings",
    capacities: (65_536, 8_192),
    most: 0,
    first: &[],
    rows: RINGS,
    made: 600,
    then: InUse(0, MOST),
}];

const OF_A_FILE: &[Drawing] = &[
    Drawing {
        name: "writes",
        capacities: (4_096, 4_096),
        most: MOST,
        first: &[],
        rows: WRITES,
        made: 400,
        then: IsDense,
    },
    Drawing {
        name: "writes, copies and truncations",
        capacities: (4_096, 4_096),
        most: MOST,
        first: &[],
        rows: FILES,
        made: 400,
        then: InUse(0, MOST),
    },
];

const OF_ALL: &[Drawing] = &[Drawing {
    name: "all",
    capacities: (65_536, 16_384),
    most: 24_576,
    first: &[],
    rows: ALL,
    made: 600,
    then: InUse(0, MOST),
}];

/// Operations of rings.
const RINGS: &[Operation] = &[
    Push(1),
    Push(1),
    Push(63),
    Push(63),
    Push(1_000),
    Push(4_095),
    Push(4_096),
    Push(4_097),
    Push(4_097),
    Push(8_192),
    Push(70_000),
    Tee(1),
    Tee(63),
    Tee(1_000),
    Tee(4_095),
    Tee(4_096),
    Tee(4_097),
    Tee(20_000),
    Tee(1_048_576),
    Pass(1),
    Pass(4_095),
    Pass(4_097),
    Pass(20_000),
    Pass(1_048_576),
    Pop(1),
    Pop(63),
    Pop(4_095),
    Pop(4_096),
    Pop(4_097),
    Pop(10_000),
    Skip(1),
    Skip(63),
    Skip(4_095),
    Skip(4_096),
    Skip(4_097),
    Reset,
    SetCapacity(4_096),
    SetCapacity(8_192),
    SetCapacity(65_536),
    SetCapacity(262_144),
    SetCapacity(1_048_576),
    Turn,
    Turn,
    Turn,
    Turn,
];

const WRITES: &[Operation] = &[
    Write(30_000, 1),
    Write(30_000, 63),
    Write(30_000, 4_095),
    Write(30_000, 4_096),
    Write(30_000, 4_097),
    Write(30_000, 9_000),
];

const FILES: &[Operation] = &[
    Write(30_000, 1),
    Write(30_000, 63),
    Write(30_000, 4_095),
    Write(30_000, 4_096),
    Write(30_000, 4_097),
    Write(30_000, 9_000),
    Copy(30_000, 1, 30_000),
    Copy(30_000, 63, 30_000),
    Copy(30_000, 4_095, 30_000),
    Copy(30_000, 4_096, 30_000),
    Copy(30_000, 4_097, 30_000),
    Copy(30_000, 9_000, 30_000),
    Truncate,
];

/// Operations of all kinds.
const ALL: &[Operation] = &[
    Push(1),
    Write(25_000, 1),
    Take(25_000, 1),
    Put(1, 25_000),
    Tee(1),
    Pass(1),
    Pop(1),
    Copy(25_000, 1, 25_000),
    Skip(1),
    Read(25_000, 1),
    Push(63),
    Write(25_000, 63),
    Take(25_000, 63),
    Put(63, 25_000),
    Tee(63),
    Pop(63),
    Copy(25_000, 63, 25_000),
    Skip(63),
    Read(25_000, 63),
    Push(4_095),
    Write(25_000, 4_095),
    Take(25_000, 4_095),
    Put(4_095, 25_000),
    Tee(4_095),
    Pop(4_095),
    Copy(25_000, 4_095, 25_000),
    Skip(4_095),
    Read(25_000, 4_095),
    Push(4_096),
    Write(25_000, 4_096),
    Take(25_000, 4_096),
    Put(4_096, 25_000),
    Tee(4_096),
    Pass(4_096),
    Pop(4_096),
    Copy(25_000, 4_096, 25_000),
    Skip(4_096),
    Read(25_000, 4_096),
    Push(4_097),
    Write(25_000, 4_097),
    Take(25_000, 4_097),
    Put(4_097, 25_000),
    Tee(4_097),
    Pop(4_097),
    Copy(25_000, 4_097, 25_000),
    Skip(4_097),
    Read(25_000, 4_097),
    Push(9_000),
    Write(25_000, 9_000),
    Take(25_000, 9_000),
    Put(9_000, 25_000),
    Tee(9_000),
    Pass(9_000),
    Pop(9_000),
    Copy(25_000, 9_000, 25_000),
    Skip(9_000),
    Read(25_000, 9_000),
    Pop(20_000),
    Reset,
    Truncate,
    SetCapacity(4_096),
    SetCapacity(65_536),
    SetCapacity(8_192),
    SetCapacity(16_384),
    Turn,
    Turn,
    Turn,
    Turn,
    Turn,
    Turn,
];

/// Makes operations of the drawing.
fn draw<A: Allocator + marker::Copy>(
    watched: &mut Watched<A>,
    drawing: &Drawing,
) -> Result<(), Fault> {
    for operation in drawing.first {
        watched.make(*operation)?;
    }
    let mut draws = Draws::new();
    for _ in 0..drawing.made {
        let row = draws.below(drawing.rows.len());
        let operation = drawing.rows.get(row).ok_or(Fault::Unfit)?;
        let operation = watched.fitting(*operation, &mut draws);
        watched.step(operation)?;
        watched.make(drawing.then)?;
    }
    Ok(())
}

/// All bytes go.
fn let_all_go<A: Allocator + marker::Copy>(watched: &mut Watched<A>) -> Result<(), Fault> {
    for operation in LAST {
        watched.step(*operation)?;
    }
    Ok(())
}

const LAST: &[Operation] = &[Reset, Turn, Reset, Truncate, InUse(0, 0)];

/// Makes operations of the drawing, and then lets all go.
fn draw_and_let_go<A: Allocator + marker::Copy>(
    watched: &mut Watched<A>,
    drawing: &Drawing,
) -> Result<(), Fault> {
    draw(watched, drawing).and(let_all_go(watched))
}

/// The drawing goes as the lists say.
fn goes<A: Allocator + marker::Copy>(
    alloc: Global,
    heap: A,
    drawing: &Drawing,
) -> Result<(), Fault> {
    let mut watched = Watched::new(alloc, heap, drawing.capacities, drawing.most)?;
    draw_and_let_go(&mut watched, drawing)
}

/// Each drawing goes as the lists say.
pub(crate) fn all_drawn(alloc: Global, drawings: &[Drawing]) -> Result<(), Fail> {
    for drawing in drawings {
        if let Err(fault) = goes(alloc, alloc, drawing) {
            let name = drawing.name;
            return Err(Fail::new(format_args!("{fault:?} among {name}")));
        }
    }
    Ok(())
}

#[test]
fn many_operations_of_rings(rt: HostRuntime) -> Result<(), Fail> {
    all_drawn(rt.alloc(), OF_RINGS)
}

#[test]
fn many_operations_of_a_file(rt: HostRuntime) -> Result<(), Fail> {
    all_drawn(rt.alloc(), OF_A_FILE)
}

#[test]
fn many_operations_of_all(rt: HostRuntime) -> Result<(), Fail> {
    all_drawn(rt.alloc(), OF_ALL)
}
