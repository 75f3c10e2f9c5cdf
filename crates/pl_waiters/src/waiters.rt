//! The index of calls that wait.
ghost use Rattle.pl_waiters.specs.Places.{HavePlaces};

use crate::marks::Marks;
use crate::queue::Queues;
use crate::waiter::Waiter;
use pl_least::Least;
use std::alloc::{AllocError, Allocator, Global};

/// No call stands before this one.
const FIRST: Waiter = Waiter {
    node: 0,
    queue: 0,
    number: 0,
};

/// An index of calls that wait: the queues in which they stand, at the nodes at which they wait. It keeps for each node the least number of a
/// call that was found able to make progress there, and the nodes that were touched since they were asked. Only to add a call takes memory.
#[derive(Drop)]
pub struct Waiters<A: Allocator = Global> {
    pub(crate) queues: Queues<A>,
    /// The nodes that are still to be asked.
    pub(crate) touched: Marks<A>,
    /// By the key of a node, the least number of those that could make progress when it was asked.
    pub(crate) least: Least<A>,
    /// All calls below this number were looked at.
    pub(crate) looked: u64,
    /// Where the sweep goes on.
    pub(crate) swept: Waiter,
    ghost kept: { HavePlaces queues touched least },
}

impl<A: Allocator + Copy> Waiters<A> {
    ghost use Rattle.std.specs.Prelude.{◌≡◌, ℕ, ◌||◌, false, None, OnOk, OnErr};
    ghost use Rattle.pl_waiters.specs.Marks.{has_room};
    ghost use Rattle.pl_waiters.specs.Queue.{is_waiter};
    ghost use Rattle.pl_waiters.specs.Queues.{has_place as has_queues};
    ghost use Rattle.pl_waiters.specs.Seen.{stands, is_touched, least, SameQueues, SameMarks, SameNumbers, SameKnown};

    /// No call stands in a queue, and none was looked at. It takes no memory.
    pub fn new(alloc: A) -> Self
        ensures queues { (key : Waiter) → stands result key ≡ false }
        ensures touched { (node : ℕ) → is_touched result node ≡ false }
        ensures least { (node : ℕ) → least result node ≡ None }
        ensures looked { result.looked ≡ 0 }
    {
        Waiters {
            queues: Queues::new(alloc),
            touched: Marks::new(alloc),
            least: Least::new(alloc),
            looked: 0,
            swept: FIRST,
        }
    }

    /// A call stands in a queue too.
    ///
    /// # Errors
    ///
    /// `AllocError` where there is no memory for it. Then it stands in no more queues than before.
    pub fn add(&mut self, call: Waiter) -> Result<(), AllocError>
        ensures added { OnOk result ((key : Waiter) → stands self.new key ≡ (is_waiter call key || stands self.old key)) }
        ensures err { OnErr result (SameQueues self.old self.new) }
        ensures touched { SameMarks self.old self.new }
        ensures least { SameNumbers self.old self.new }
        ensures looked { self.new.looked ≡ self.old.looked }
    {
        self.reserve(call.node)?;
        self.queues.add(call)
    }

    // Makes a place for a node.
    fn reserve(&mut self, node: usize) -> Result<(), AllocError>
        ensures ok { OnOk result (has_room self.new.touched node) }
        ensures place { OnOk result (has_queues self.new.queues node) }
        ensures queues { SameQueues self.old self.new }
        ensures touched { SameMarks self.old self.new }
        ensures least { SameNumbers self.old self.new }
        ensures known { SameKnown self.old self.new }
    {
        let places = node.checked_add(1).ok_or(AllocError)?;
        self.least.reserve(places)?;
        self.touched.reserve(places)?;
        self.queues.reserve(places)
    }
}

impl<A: Allocator> Waiters<A> {
    ghost use Rattle.std.specs.Prelude.{◌≡◌, ◌≢◌, ℕ, ◌+◌, ◌&&◌, ◌<◌, length, min, not, true, false, IfSome, IfNone, None, Some, nat_eq, if◌then◌else◌};
    ghost use Rattle.pl_least.specs.None.{none};
    ghost use Rattle.pl_least.specs.Numbers.{has_place};
    ghost use Rattle.pl_waiters.specs.Seen.{stands, is_touched, least, further, is_further, one_at, IsFirst, SameQueues, SameTouched, SameLeast, SameKnown};
    ghost use Rattle.pl_waiters.specs.Queue.{waiter, is_waiter, IsBehind};

    /// How many calls stand in queues beside the one of each node. A call that stands in several is one in each.
    pub fn len(&self) -> usize
        ensures { result ≡ further self.now }
    {
        self.queues.len()
    }

    /// All calls below this number were looked at.
    pub fn looked(&self) -> u64
        ensures { result ≡ self.now.looked }
    {
        self.looked
    }

    /// All calls below this number were looked at.
    pub fn look_to(&mut self, number: u64)
        ensures queues { SameQueues self.old self.new }
        ensures touched { SameTouched self.old self.new }
        ensures least { SameLeast self.old self.new }
        ensures looked { self.new.looked ≡ number }
    {
        self.looked = number;
    }

    /// A node is to be asked again. It takes no memory, and no longer the more calls wait there.
    pub fn touch(&mut self, node: usize)
        ensures here { (key : Waiter) → key.node ≡ node → stands self.old key ≡ true → is_touched self.new node ≡ true }
        ensures more { (other : ℕ) → is_touched self.old other ≡ true → is_touched self.new other ≡ true }
        ensures others { (other : ℕ) → other ≢ node → is_touched self.new other ≡ is_touched self.old other }
        ensures queues { SameQueues self.old self.new }
        ensures least { SameLeast self.old self.new }
        ensures known { SameKnown self.old self.new }
    {
        if node < self.touched.room() {
            self.touched.mark(node);
        }
    }

    /// A node that is to be asked, which from now on it isn't.
    pub fn take_touched(&mut self) -> Option<usize>
        ensures place { IfSome result (has_place self.new.least) }
        ensures taken { IfSome result (λ node. (is_touched self.old node ≡ true) × (is_touched self.new node ≡ false)) }
        ensures others { IfSome result (λ node. (other : ℕ) → other ≢ node → is_touched self.new other ≡ is_touched self.old other) }
        ensures none { IfNone result ((other : ℕ) → is_touched self.new other ≡ false) }
        ensures same { IfNone result ((other : ℕ) → is_touched self.old other ≡ false) }
        ensures fewer { IfSome result (λ node. length self.new.touched.nodes.items < length self.old.touched.nodes.items) }
        ensures queues { SameQueues self.old self.new }
        ensures least { SameLeast self.old self.new }
        ensures known { SameKnown self.old self.new }
    {
        self.touched.take()
    }

    /// Says which is the least number of those at a node that can make progress, if any can.
    pub fn set_least(&mut self, node: usize, number: Option<u64>)
        requires place { has_place self.old.least node }
        requires number { IfSome number (λ n. n < none) }
        ensures least { (other : ℕ) → least self.new other ≡ (if nat_eq other node then number else least self.old other) }
        ensures queues { SameQueues self.old self.new }
        ensures touched { SameTouched self.old self.new }
        ensures known { SameKnown self.old self.new }
    {
        self.least.set(node, number);
    }

    /// The first call at the node of this one that doesn't stand before it: of its queue with its number or above, else of a later queue. It
    /// costs at most the logarithm of how many calls there are.
    pub fn first_from(&self, least: &Waiter) -> Option<Waiter>
        ensures some { IfSome result (λ key. (key.node ≡ least.now.node) × (stands self.now key ≡ true) × IsBehind least.now key) }
        ensures first { IfSome result (λ key. (other : Waiter) → other.node ≡ least.now.node → stands self.now other ≡ true → IsBehind least.now other → IsBehind key other) }
        ensures none { IfNone result ((other : Waiter) → other.node ≡ least.now.node → IsBehind least.now other → stands self.now other ≡ false) }
    {
        self.queues.first_from(least)
    }

    /// The call that has the plain place of a node, which mostly is the only one there. Where none has it, others may stand at the node.
    pub fn one_at(&self, node: usize) -> Option<Waiter>
        ensures { result ≡ one_at self.now node }
    {
        self.queues.one_at(node)
    }

    /// The next call of a sweep through those that aren't the only one of their node, or `None` at its end, after which it begins again.
    pub fn sweep(&mut self) -> Option<Waiter>
        ensures some { IfSome result (λ key. (is_further self.old key ≡ true) × IsBehind self.old.swept key) }
        ensures first { IfSome result (λ key. (other : Waiter) → is_further self.old other ≡ true → IsBehind self.old.swept other → IsBehind key other) }
        ensures none { IfNone result ((other : Waiter) → IsBehind self.old.swept other → is_further self.old other ≡ false) }
        ensures on { IfSome result (λ key. self.new.swept ≡ waiter key.node key.queue (min (key.number + 1) 18446744073709551615)) }
        ensures again { IfNone result (self.new.swept ≡ waiter 0 0 0) }
        ensures queues { SameQueues self.old self.new }
        ensures touched { SameTouched self.old self.new }
        ensures least { SameLeast self.old self.new }
        ensures known { SameKnown self.old self.new }
    {
        let Some(next) = self.queues.further_from(&self.swept) else {
            self.swept = FIRST;
            return None;
        };
        self.swept = Waiter {
            number: next.number.saturating_add(1),
            ..next
        };
        Some(next)
    }

    /// A call stands in a queue no more. It takes no memory.
    pub fn remove(&mut self, call: &Waiter)
        ensures queues { (key : Waiter) → stands self.new key ≡ (not (is_waiter call.now key) && stands self.old key) }
        ensures touched { SameTouched self.old self.new }
        ensures least { SameLeast self.old self.new }
        ensures known { SameKnown self.old self.new }
    {
        self.queues.remove(call);
    }

    /// The node with the least number of all.
    pub fn first_node(&self) -> Option<usize>
        ensures some { IfSome result (IsFirst self.now) }
        ensures place { IfSome result (has_place self.now.least) }
        ensures none { IfNone result ((node : ℕ) → least self.now node ≡ None) }
    {
        self.least.first()
    }

    /// How many nodes there are places for: at each that has a number, the key is below this.
    pub fn nodes(&self) -> usize
        ensures value { result ≡ self.now.least.places }
        ensures most { (node number : ℕ) → least self.now node ≡ Some number → node < result }
    {
        self.least.places()
    }

    /// The least number that was found at a node.
    pub fn least_at(&self, node: usize) -> Option<u64>
        ensures { result ≡ least self.now node }
    {
        self.least.get(node)
    }
}
