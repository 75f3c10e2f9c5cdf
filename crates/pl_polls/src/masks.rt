//! What a poll finds.
ghost use Rattle.std.specs.Prelude.{◌≡◌, ◌∷◌, ◌+◌, ◌<◌, ◌≤◌, ℤ, List, length, IfOk, IfSome, IsSome, option_and_then, option_map};
ghost use Rattle.std.specs.List.{list_any};
ghost use Rattle.pl_model.specs.declared.flags.PollMask.{PollMask as Mask};
ghost use Rattle.pl_model.specs.Numbers.{most_descriptors};
ghost use Rattle.pl_model.specs.State.{described};
ghost use Rattle.pl_model.specs.Poll.{mask_of as machine_mask, polled as machine_polled, mask_at as machine_mask_at, is_ready as is_mask_ready, masks_reply as machine_reply};
ghost use Rattle.std.specs.Option.{option_copied};
ghost use Rattle.pl_desc.specs.Rows.{at, row_in, rows_in};
ghost use Rattle.pl_state.specs.Contents.{core_of, node_of, description_of};
ghost use Rattle.pl_polls.specs.Masks.{AreCurrent, masks_from, masks_of};

use bitflags::Flags;
use pl_decisions::mask_of;
use pl_desc::Table;
use pl_model::{MaskList, Mode, Node, PollMask, Polled, Reply};
use pl_state::{KernelState, NoMemory};
use std::alloc::Allocator;

/// The descriptions that a poll looks at.
#[derive(Clone, Copy)]
pub(crate) enum Descriptions<'a, A: Allocator> {
    /// Those that the descriptors of a process name, in its table if there is such a process.
    Named {
        pid: u32,
        table: Option<&'a Table<A>>,
    },
    /// Those that the poll keeps, one for each entry whose descriptor isn't negative.
    Kept(&'a [usize]),
}

// The mask of a description. Of the end of a pipe it looks at just what its mode lets a mask show.
#[inline(always)]
fn mask_of_key<A: Allocator + Copy>(
    kernel: &KernelState<A>,
    key: usize,
    asked: PollMask,
) -> PollMask
    requires { IsSome (at kernel.now.opened key) }
    ensures { IfSome (at kernel.now.opened key) (λ o. result ≡ machine_mask (machine_polled (core_of {A = A} kernel.now) (description_of o) (node_of o.node)) asked) }
{
    let node = kernel.descs.node(key);
    let Node::Pipe(pipe) = node else {
        return mask_of(Polled::File, asked);
    };
    match kernel.descs.mode(key) {
        Mode::Read => mask_of(
            Polled::Pipe {
                mode: Mode::Read,
                held: kernel.nodes.held(pipe),
                room: 0,
                has_reader: true,
                hung: kernel.nodes.is_hung(pipe),
            },
            asked,
        ),
        Mode::Write => mask_of(
            Polled::Pipe {
                mode: Mode::Write,
                held: 0,
                room: kernel.nodes.room(pipe),
                has_reader: kernel.descs.readers(node) > 0,
                hung: false,
            },
            asked,
        ),
        Mode::Both => mask_of(
            Polled::Pipe {
                mode: Mode::Both,
                held: kernel.nodes.held(pipe),
                room: kernel.nodes.room(pipe),
                has_reader: kernel.descs.readers(node) > 0,
                hung: kernel.nodes.is_hung(pipe),
            },
            asked,
        ),
    }
}

// The mask of what a descriptor names: `NVAL` where it isn't open (POSIX.1-2017, poll, POLLNVAL).
#[inline(always)]
fn mask_at<A: Allocator + Copy>(
    kernel: &KernelState<A>,
    key: Option<usize>,
    asked: PollMask,
) -> PollMask
    requires { IfSome key (λ d. IsSome (at kernel.now.opened d)) }
    ensures { result ≡ machine_mask_at (core_of {A = A} kernel.now) (option_and_then (described (core_of {A = A} kernel.now)) key) asked }
{
    match key {
        Some(key) => mask_of_key(kernel, key, asked),
        None => PollMask::NVAL,
    }
}

// The key that a descriptor names in a table, if there is one.
#[inline(always)]
fn key_in<A: Allocator>(table: Option<&Table<A>>, fd: i32) -> Option<usize>
    ensures { result ≡ row_in (rows_in (option_map (λ t. t.names) (option_copied table.entry))) fd }
{
    table?.find(fd)
}

/// The mask of an entry before which so many had descriptors that aren't negative.
#[inline(always)]
pub(crate) fn next_mask<A: Allocator + Copy>(
    kernel: &KernelState<A>,
    descriptions: Descriptions<'_, A>,
    fd: i32,
    asked: PollMask,
    before: &mut usize,
) -> PollMask
    requires current { AreCurrent kernel.now descriptions }
    requires few { before.old < most_descriptors }
    ensures mask { (entries : List (ℤ × Mask)) → masks_from {A = A} kernel.now descriptions.entry before.old ((fd, asked) ∷ entries) ≡ result ∷ masks_from {A = A} kernel.now descriptions.entry before.new entries }
    ensures one { before.new ≤ before.old + 1 }
{
    // A proof learns here what holds of the kernel.
    let _ = &kernel.descs;
    if fd < 0 {
        return PollMask::empty();
    }
    let key = match descriptions {
        Descriptions::Named { table, .. } => key_in(table, fd),
        Descriptions::Kept(keys) => keys.get(*before).copied(),
    };
    *before += 1;
    mask_at(kernel, key, asked)
}

/// Whether a mask of the entries isn't empty. It takes no memory, so that a poll which waits, or for which no number is left, asks for
/// none in vain.
pub(crate) fn is_ready<A: Allocator + Copy>(
    kernel: &KernelState<A>,
    descriptions: Descriptions<'_, A>,
    entries: &[(i32, PollMask)],
) -> bool
    requires current { AreCurrent kernel.now descriptions }
    requires few { length entries.now ≤ most_descriptors }
    ensures { result ≡ list_any is_mask_ready (masks_of {A = A} kernel.now descriptions.entry entries.now) }
{
    let mut before = 0;
    for (fd, asked) in entries {
        if !next_mask(kernel, descriptions, *fd, *asked, &mut before).is_empty() {
            return true;
        }
    }
    false
}

// The masks of the entries, in order.
fn masks<A: Allocator + Copy>(
    kernel: &KernelState<A>,
    descriptions: Descriptions<'_, A>,
    entries: &[(i32, PollMask)],
) -> Result<Vec<PollMask, A>, NoMemory>
    requires current { AreCurrent kernel.now descriptions }
    requires few { length entries.now ≤ most_descriptors }
    ensures ok { IfOk result (λ found. found.items ≡ masks_of {A = A} kernel.now descriptions.entry entries.now) }
    ensures few { IfOk result (λ found. length found.items ≤ most_descriptors) }
{
    let mut found = Vec::with_capacity(kernel.alloc, entries.len())?;
    let mut before = 0;
    for (fd, asked) in entries {
        let mask = next_mask(kernel, descriptions, *fd, *asked, &mut before);
        found.push_reserved(mask);
    }
    Ok(found)
}

/// The reply of a poll that doesn't wait: how many of the masks of its entries aren't empty, and all masks (POSIX.1-2017, poll).
///
/// The only error is want of memory.
pub(crate) fn masks_reply<A: Allocator + Copy>(
    kernel: &KernelState<A>,
    descriptions: Descriptions<'_, A>,
    entries: &[(i32, PollMask)],
) -> Result<Reply<A>, NoMemory>
    requires current { AreCurrent kernel.now descriptions }
    requires few { length entries.now ≤ most_descriptors }
    ensures { IfOk result (λ reply. reply ≡ machine_reply (masks_of {A = A} kernel.now descriptions.entry entries.now)) }
{
    let masks = masks(kernel, descriptions, entries)?;
    let ready = masks.iter().filter(|mask| !mask.is_empty()).count();
    Ok(Reply::Masks {
        ready: ready as u32,
        masks: MaskList::from_vec(masks),
    })
}
