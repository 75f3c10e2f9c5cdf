//! Calls in the queues in which they wait.
ghost use Rattle.std.specs.Prelude.{◌≡◌};
ghost use Rattle.pl_waiters.specs.Queue.{may_stand, later, ArePlaced};

use crate::waiter::{Waiter, earlier, is_same, not_before, of_node};
use std::alloc::{AllocError, Allocator};
use std::collections::BTreeSet;

/// The calls at a node: mostly one, which has a plain place, so that nothing is searched for it.
#[derive(Clone, Copy)]
pub(crate) struct Place {
    pub(crate) one: Option<Waiter>,
    /// The last queue in which further ones may stand in the set, if any may: in later queues none do.
    pub(crate) last: Option<u64>,
}

/// No call stands there.
const EMPTY: Place = Place {
    one: None,
    last: None,
};

// Whether further calls of a node may stand in a queue or after it, by the last queue of its place.
fn may_stand(last: Option<u64>, queue: u64) -> bool
    ensures { result ≡ may_stand last queue }
{
    match last {
        Some(last) => queue <= last,
        None => false,
    }
}

// The later one of a queue and of the last queue of a place, if that has one.
fn later(last: Option<u64>, queue: u64) -> u64
    ensures { result ≡ later last queue }
{
    match last {
        Some(last) => last.max(queue),
        None => queue,
    }
}

/// Calls in the queues in which they wait. A call may be in several.
#[derive(Drop)]
pub(crate) struct Queues<A: Allocator> {
    /// By the key of a node.
    pub(crate) places: Vec<Place, A>,
    /// The further calls of nodes.
    pub(crate) more: BTreeSet<Waiter, A>,
    ghost kept: { ArePlaced places.items more },
}

impl<A: Allocator + Copy> Queues<A> {
    ghost use Rattle.std.specs.Prelude.{◌≡◌, ℕ, ◌<◌, ◌||◌, false, OnOk, OnErr};
    ghost use Rattle.pl_waiters.specs.Queue.{is_waiter};
    ghost use Rattle.pl_waiters.specs.Queues.{has_waiter, has_place};

    /// No calls. It takes no memory.
    pub(crate) fn new(alloc: A) -> Queues<A>
        ensures { (key : Waiter) → has_waiter result key ≡ false }
    {
        Queues {
            places: Vec::new(alloc),
            more: BTreeSet::new(alloc),
        }
    }

    /// Makes places for the nodes with keys below a number.
    ///
    /// # Errors
    ///
    /// `AllocError` where there are fewer, and no memory for more.
    pub(crate) fn reserve(&mut self, nodes: usize) -> Result<(), AllocError>
        ensures ok { OnOk result ((node : ℕ) → node < nodes → has_place self.new node) }
        ensures same { (key : Waiter) → has_waiter self.new key ≡ has_waiter self.old key }
    {
        if nodes <= self.places.len() {
            return Ok(());
        }
        self.places.resize(nodes, EMPTY)
    }

    /// Adds a call to a queue of a node that has a place.
    ///
    /// # Errors
    ///
    /// `AllocError` where another call stands at the node, and there is no memory for one call more.
    pub(crate) fn add(&mut self, call: Waiter) -> Result<(), AllocError>
        requires { has_place self.old call.node }
        ensures ok { OnOk result ((key : Waiter) → has_waiter self.new key ≡ (is_waiter call key || has_waiter self.old key)) }
        ensures err { OnErr result ((key : Waiter) → has_waiter self.new key ≡ has_waiter self.old key) }
    {
        let place = self.place(call.node);
        if place.one.is_none() {
            self.places[call.node] = Place {
                one: Some(call),
                ..place
            };
            return Ok(());
        }
        self.more.insert(call)?;
        self.places[call.node] = Place {
            last: Some(later(place.last, call.queue)),
            ..place
        };
        Ok(())
    }
}

impl<A: Allocator> Queues<A> {
    ghost use Rattle.std.specs.Prelude.{◌≡◌, ℕ, ◌&&◌, not, false, true, IfSome, IfNone};
    ghost use Rattle.std.specs.BTreeSet.{btree_set_len, contains};
    ghost use Rattle.pl_waiters.specs.Queue.{waiter_order, is_waiter, place_at, IsBehind};
    ghost use Rattle.pl_waiters.specs.Queues.{has_one, has_waiter};

    /// How many calls stand in the set. A call that is in several queues is one in each.
    pub(crate) fn len(&self) -> usize
        ensures { result ≡ btree_set_len self.now.more }
    {
        self.more.len()
    }

    // The place of a node, which is empty where it has none.
    fn place(&self, node: usize) -> Place
        ensures { result ≡ place_at self.now.places.items node }
    {
        if node < self.places.len() {
            self.places[node]
        } else {
            EMPTY
        }
    }

    /// The call at a node that has its plain place, if one has.
    pub(crate) fn one_at(&self, node: usize) -> Option<Waiter>
        ensures { result ≡ (place_at self.now.places.items node).one }
    {
        self.place(node).one
    }

    /// The first call of the set that doesn't stand before this one, of whatever node.
    pub(crate) fn further_from(&self, least: &Waiter) -> Option<Waiter>
        ensures some { IfSome result (λ key. (contains waiter_order self.now.more key ≡ true) × IsBehind least.now key) }
        ensures first { IfSome result (λ key. (other : Waiter) → contains waiter_order self.now.more other ≡ true → IsBehind least.now other → IsBehind key other) }
        ensures none { IfNone result ((other : Waiter) → IsBehind least.now other → contains waiter_order self.now.more other ≡ false) }
    {
        self.more.range(*least..).next().copied()
    }

    /// Removes a call from a queue. It takes no memory.
    pub(crate) fn remove(&mut self, call: &Waiter)
        ensures { (key : Waiter) → has_waiter self.new key ≡ (not (is_waiter call.now key) && has_waiter self.old key) }
    {
        self.remove_one(call);
        self.remove_further(call);
    }

    // Removes it from the plain place of its node, if it has that.
    fn remove_one(&mut self, call: &Waiter)
        ensures one { (key : Waiter) → has_one self.new key ≡ (not (is_waiter call.now key) && has_one self.old key) }
        ensures more { self.new.more ≡ self.old.more }
    {
        let place = self.place(call.node);
        if is_same(place.one, call) {
            self.places[call.node] = Place { one: None, ..place };
        }
    }

    // Removes it from the set, if it stands there.
    fn remove_further(&mut self, call: &Waiter)
        ensures one { (key : Waiter) → has_one self.new key ≡ has_one self.old key }
        ensures more { (key : Waiter) → contains waiter_order self.new.more key ≡ (not (is_waiter call.now key) && contains waiter_order self.old.more key) }
    {
        let place = self.place(call.node);
        if !may_stand(place.last, call.queue) {
            return;
        }
        self.more.remove(call);
        // While another call has the plain place, nobody looks whether it is the only one: that would be a search for each that goes.
        if place.one.is_none() && !self.has_further(call.node) {
            self.places[call.node] = EMPTY;
        }
    }

    // Whether a call of a node stands in the set.
    fn has_further(&self, node: usize) -> bool
        ensures { result ≡ false → (key : Waiter) → key.node ≡ node → contains waiter_order self.now.more key ≡ false }
    {
        let least = Waiter {
            node,
            queue: 0,
            number: 0,
        };
        of_node(self.further_from(&least), node).is_some()
    }

    /// The first call at the node of this one that doesn't stand before it: of its queue with its number or above, else of a later queue. It
    /// costs at most the logarithm of how many calls there are.
    pub(crate) fn first_from(&self, least: &Waiter) -> Option<Waiter>
        ensures some { IfSome result (λ key. (key.node ≡ least.now.node) × (has_waiter self.now key ≡ true) × IsBehind least.now key) }
        ensures first { IfSome result (λ key. (other : Waiter) → other.node ≡ least.now.node → has_waiter self.now other ≡ true → IsBehind least.now other → IsBehind key other) }
        ensures none { IfNone result ((other : Waiter) → other.node ≡ least.now.node → IsBehind least.now other → has_waiter self.now other ≡ false) }
    {
        let place = self.place(least.node);
        let one = not_before(place.one, least);
        if !may_stand(place.last, least.queue) {
            return one;
        }
        earlier(one, of_node(self.further_from(least), least.node))
    }
}
