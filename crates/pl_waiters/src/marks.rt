//! Nodes that are marked, each once.
ghost use Rattle.std.specs.Prelude.{vec_capacity};
ghost use Rattle.std.proofs.Props.{props};
ghost use Rattle.pl_waiters.specs.MarkLists.{AreMarked};

use std::alloc::{AllocError, Allocator};

/// Nodes of those for which there is room, in any order, each at most once.
#[derive(Drop)]
pub(crate) struct Marks<A: Allocator> {
    /// By the key of a node, whether it is in `nodes`.
    pub(crate) marked: Vec<bool, A>,
    pub(crate) nodes: Vec<usize, A>,
    ghost kept: { AreMarked marked.items nodes.items (vec_capacity nodes) } by { Prim.hlevel props },
}

impl<A: Allocator + Copy> Marks<A> {
    ghost use Rattle.std.specs.Prelude.{◌≡◌, ℕ, ◌<◌, ◌≤◌, false, OnOk};
    ghost use Rattle.pl_waiters.specs.Marks.{is_marked, has_room};

    /// None, and room for none. It takes no memory.
    pub(crate) fn new(alloc: A) -> Self
        ensures marks { (node : ℕ) → is_marked result node ≡ false }
        ensures room { (node : ℕ) → ¬ has_room result node }
    {
        Marks {
            marked: Vec::new(alloc),
            nodes: Vec::new(alloc),
        }
    }

    /// Makes room for the nodes with keys below a number.
    ///
    /// # Errors
    ///
    /// `AllocError` where there is neither room nor memory. No mark changes then either.
    pub(crate) fn reserve(&mut self, nodes: usize) -> Result<(), AllocError>
        ensures ok { OnOk result ((node : ℕ) → node < nodes → has_room self.new node) }
        ensures more { (node : ℕ) → has_room self.old node → has_room self.new node }
        ensures most { (node : ℕ) → has_room self.new node → nodes ≤ node → has_room self.old node }
        ensures same { (node : ℕ) → is_marked self.new node ≡ is_marked self.old node }
    {
        if nodes <= self.marked.len() {
            return Ok(());
        }
        self.nodes
            .try_reserve(nodes.saturating_sub(self.nodes.len()))?;
        self.marked.resize(nodes, false)
    }
}

impl<A: Allocator> Marks<A> {
    ghost use Rattle.std.specs.Prelude.{◌≡◌, ◌≢◌, ◌<◌, ℕ, ◌||◌, true, false, nat_eq, length, IfSome, IfNone};
    ghost use Rattle.pl_waiters.specs.Marks.{is_marked, has_room};

    /// There is room for the nodes with keys below this.
    pub(crate) fn room(&self) -> usize
        ensures { result ≡ length self.now.marked.items }
    {
        self.marked.len()
    }

    /// Marks a node for which there is room.
    pub(crate) fn mark(&mut self, node: usize)
        requires { has_room self.old node }
        ensures room { length self.new.marked.items ≡ length self.old.marked.items }
        ensures marks { (other : ℕ) → is_marked self.new other ≡ (nat_eq node other || is_marked self.old other) }
    {
        if self.marked[node] {
            return;
        }
        self.marked[node] = true;
        self.nodes.push_reserved(node);
    }

    /// Takes the mark of a node away, if there is one.
    pub(crate) fn take(&mut self) -> Option<usize>
        ensures room { length self.new.marked.items ≡ length self.old.marked.items }
        ensures some { IfSome result (λ node. has_room self.new node × (is_marked self.old node ≡ true) × (is_marked self.new node ≡ false)) }
        ensures others { IfSome result (λ node. (other : ℕ) → other ≢ node → is_marked self.new other ≡ is_marked self.old other) }
        ensures none { IfNone result ((other : ℕ) → is_marked self.new other ≡ false) }
        ensures same { IfNone result ((other : ℕ) → is_marked self.old other ≡ false) }
        ensures fewer { IfSome result (λ node. length self.new.nodes.items < length self.old.nodes.items) }
    {
        let node = self.nodes.pop()?;
        self.marked[node] = false;
        Some(node)
    }
}
