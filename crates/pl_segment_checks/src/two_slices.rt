//! Slices of a store.
use crate::fault::Fault;
use crate::plain::{part, same_bytes};
use pl_refusing::Refusing;
use pl_segments::AppendFault::{self, NoRoom, NotAtEnd};
use pl_segments::{Slice, Store};
use std::alloc::{Allocator, Global};
use std::marker::Model;
use std::test::Fail;

/// Two slices that hold segments of a store.
#[derive(Drop)]
struct TwoSlices<A: Allocator = Global> {
    store: Store<A>,
    first: Slice,
    second: Slice,
}

impl<A: Allocator> Model for TwoSlices<A> {
    ghost use Rattle.std.specs.Prelude.{ℕ, [], ◌∷◌};
    ghost use Rattle.pl_segments.specs.Segments.{segment_at};
    ghost use Rattle.pl_segments.specs.Turns.{Holds};

    ghost Value = { ℕ };

    ghost view = { λ _. 0 };

    ghost invariant = { λ k. Holds (segment_at k.store) (k.first ∷ k.second ∷ []) };
}

const AB: &[u8] = b"ab";

impl<A: Allocator + Copy> TwoSlices<A> {
    /// Two slices of one segment, which is made of two bytes.
    fn new(alloc: A) -> Result<TwoSlices<A>, Fault> {
        let mut store = Store::new(alloc);
        let slice = store.make(AB)?;
        store.hold(slice);
        Ok(TwoSlices {
            store,
            first: slice,
            second: slice,
        })
    }

    /// They read these bytes, and one segment is held.
    fn read(&self, first: &[u8], second: &[u8]) -> Result<(), Fault> {
        same_bytes(self.store.bytes(self.first), first)?;
        same_bytes(self.store.bytes(self.second), second)?;
        if self.store.in_use() != 1 {
            return Err(Fault::OtherSegments);
        }
        Ok(())
    }

    /// Appends bytes to the first slice.
    fn append_first(&mut self, bytes: &[u8]) -> Result<(), AppendFault> {
        let longer = self.store.try_append(self.first, bytes)?;
        self.first = longer;
        Ok(())
    }

    /// Appends bytes to the second slice.
    fn append_second(&mut self, bytes: &[u8]) -> Result<(), AppendFault> {
        let longer = self.store.try_append(self.second, bytes)?;
        self.second = longer;
        Ok(())
    }

    /// Gives up both slices, the second one first, and answers how many segments are held.
    fn release_both(self) -> usize {
        let TwoSlices {
            mut store,
            first,
            second,
        } = self;
        store.release(second);
        store.release(first);
        store.in_use()
    }
}

/// What is appended to one of two slices.
#[derive(Clone, Copy)]
enum Row {
    /// So many bytes are appended to the first slice, or not.
    First(usize, Result<(), AppendFault>),
    /// So many bytes are appended to the second slice, or not.
    Second(usize, Result<(), AppendFault>),
}

/// What is appended to two slices of one segment of two bytes. What one holder appends, the other doesn't see; only the one that ends
/// where the segment is filled to can append; and a segment has at most 4,096 bytes.
const ROWS: &[&[Row]] = &[
    &[Row::Second(1, Ok(())), Row::First(1, Err(NotAtEnd))],
    &[
        Row::Second(1, Ok(())),
        Row::Second(4_094, Err(NoRoom)),
        Row::Second(4_093, Ok(())),
        Row::Second(1, Err(NoRoom)),
        Row::First(1, Err(NotAtEnd)),
    ],
    &[
        Row::First(4_094, Ok(())),
        Row::Second(1, Err(NotAtEnd)),
        Row::First(1, Err(NoRoom)),
    ],
];

/// What two slices are to read.
#[derive(Drop)]
struct Lists {
    first: Vec<u8>,
    second: Vec<u8>,
}

/// Appends bytes to the list of a slice, where the slice's answer is that it has them. The answer is the wanted one.
fn grow(
    list: &mut Vec<u8>,
    bytes: &[u8],
    answer: Result<(), AppendFault>,
    wanted: Result<(), AppendFault>,
) -> Result<(), Fault> {
    if answer != wanted {
        return Err(Fault::OtherSizes);
    }
    if answer.is_ok() {
        list.extend_from_slice(bytes)?;
    }
    Ok(())
}

/// Appends bytes to a slice, and looks at both.
fn append<A: Allocator + Copy>(
    alloc: Global,
    slices: &mut TwoSlices<A>,
    lists: &mut Lists,
    row: Row,
) -> Result<(), Fault> {
    match row {
        Row::First(count, wanted) => {
            let bytes = part(alloc, 0, count)?;
            let answer = slices.append_first(&bytes);
            grow(&mut lists.first, &bytes, answer, wanted)?;
        }
        Row::Second(count, wanted) => {
            let bytes = part(alloc, 0, count)?;
            let answer = slices.append_second(&bytes);
            grow(&mut lists.second, &bytes, answer, wanted)?;
        }
    }
    slices.read(&lists.first, &lists.second)
}

/// Appends to both slices what the rows say.
fn append_each<A: Allocator + Copy>(
    alloc: Global,
    slices: &mut TwoSlices<A>,
    rows: &[Row],
) -> Result<(), Fault> {
    let mut lists = Lists {
        first: Vec::from_slice(alloc, AB)?,
        second: Vec::from_slice(alloc, AB)?,
    };
    slices.read(AB, AB)?;
    for row in rows {
        append(alloc, slices, &mut lists, *row)?;
    }
    Ok(())
}

/// Makes two slices in `memory`, appends to them, and gives them up, so that no segment is left.
fn goes<A: Allocator + Copy>(alloc: Global, memory: A, rows: &[Row]) -> Result<(), Fault> {
    let mut slices = TwoSlices::new(memory)?;
    append_each(alloc, &mut slices, rows)?;
    if slices.release_both() != 0 {
        return Err(Fault::OtherSegments);
    }
    Ok(())
}

#[test]
fn a_segment_with_two_holders(rt: HostRuntime) -> Result<(), Fail> {
    for rows in ROWS {
        goes(rt.alloc(), rt.alloc(), rows)?;
    }
    Ok(())
}

/// Makes a segment, or not, and the store holds no other. It answers whether it is made.
fn make<A: Allocator + Copy>(store: &mut Store<A>) -> Result<bool, Fault> {
    let is_made = store.make(AB).is_ok();
    if store.in_use() != usize::from(is_made) {
        return Err(Fault::OtherSegments);
    }
    Ok(is_made)
}

/// Makes a segment where a request for memory may be refused, and answers whether it was. One that finds no memory can be made once
/// there is some.
fn make_again<A: Allocator + Copy>(
    heap: &Refusing<Global>,
    store: &mut Store<A>,
) -> Result<bool, Fault> {
    let is_made = make(store)?;
    let was_refused = heap.refused();
    if is_made == was_refused || was_refused && !make(store)? {
        return Err(Fault::OtherSegments);
    }
    Ok(was_refused)
}

/// More requests for memory than one segment takes.
const MOST_REQUESTS: u64 = 10;

#[test]
fn a_want_of_memory_makes_no_segment(rt: HostRuntime) -> Result<(), Fail> {
    let heap = Refusing::new(rt.alloc());
    let mut refusals = 0u32;
    for n in 1..MOST_REQUESTS {
        heap.refuse(n);
        if !make_again(&heap, &mut Store::new(&heap))? {
            break;
        }
        refusals = refusals.saturating_add(1);
    }
    assert!(rt; 0 < refusals && !heap.refused());
    Ok(())
}
