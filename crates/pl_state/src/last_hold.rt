//! What goes as the last hold of a description goes.
ghost use Rattle.std.specs.Prelude.{ℕ, ◌≡◌, ◌≤◌, ◌<◌, ◌||◌, if◌then◌else◌, true, false, IsSome, IfSome, None, nat_eq, option_map};
ghost use Rattle.pl_model.specs.Map.{set_at, kept_if};
ghost use Rattle.pl_model.specs.Nodes.{has_name};
ghost use Rattle.pl_desc.specs.Rows.{at, count_at, change_count, one_less};
ghost use Rattle.pl_desc.specs.Descs.{IsTidy, last_hold};
ghost use Rattle.pl_nodes.specs.Nodes.{Shrinks, memory_of};
ghost use Rattle.pl_state.specs.Contents.{IsThere, nodes_of};
ghost use Rattle.pl_state.specs.LastHold.{with_these_ends, Leaves, ReleasesAll};
ghost use Rattle.pl_state.specs.Sound.{AreThere, times};

use pl_decisions::hung_after_close;
use pl_desc::{Descs, Released};
use pl_model::Node;
use pl_nodes::Nodes;
use std::alloc::Allocator;

// Leaves a pipe with these ends. One without ends goes, or has nothing left where it has a name; one is hung once its last
// writer left (POSIX.1-2017, close; poll, POLLHUP). It takes no memory.
#[inline(always)]
fn leave_pipe<A: Allocator + Copy>(
    nodes: &mut Nodes<A>,
    pipe: usize,
    has_reader: bool,
    has_writer: bool,
    had_writer: bool,
)
    requires { IsSome (at nodes.old.pipes pipe) }
    ensures pipes { at nodes.new.pipes ≡ set_at nat_eq (at nodes.old.pipes) pipe (option_map (with_these_ends has_reader has_writer had_writer) (kept_if ((has_reader || has_writer) || has_name nodes.old.names (Node.Pipe pipe)) (at nodes.old.pipes pipe))) }
    ensures files { at nodes.new.files ≡ at nodes.old.files }
    ensures names { nodes.new.names ≡ nodes.old.names }
    ensures limits { nodes.new.limits ≡ nodes.old.limits }
    ensures shrinks { Shrinks (memory_of nodes.old) (memory_of nodes.new) }
{
    let was_hung = nodes.is_hung(pipe);
    match hung_after_close(has_reader, has_writer, was_hung, had_writer) {
        Some(hung) => nodes.set_hung(pipe, hung),
        None => {
            if nodes.has_name(Node::Pipe(pipe)) {
                nodes.reset_pipe(pipe);
            } else {
                nodes.discard_pipe(pipe);
            }
        }
    }
}

// Leaves a file to what has it open still. It goes where nothing has, and it has no name (POSIX.1-2017, close and unlink). It
// takes no memory.
fn leave_file<A: Allocator + Copy>(
    nodes: &mut Nodes<A>,
    file: usize,
    has_reader: bool,
    has_writer: bool,
)
    requires { IsSome (at nodes.old.files file) }
    ensures files { at nodes.new.files ≡ set_at nat_eq (at nodes.old.files) file (kept_if ((has_reader || has_writer) || has_name nodes.old.names (Node.File file)) (at nodes.old.files file)) }
    ensures pipes { at nodes.new.pipes ≡ at nodes.old.pipes }
    ensures names { nodes.new.names ≡ nodes.old.names }
    ensures limits { nodes.new.limits ≡ nodes.old.limits }
    ensures shrinks { Shrinks (memory_of nodes.old) (memory_of nodes.new) }
{
    if has_reader || has_writer || nodes.has_name(Node::File(file)) {
        return;
    }
    nodes.discard_file(file);
}

/// Leaves a node to what has it open still, as a name of it was taken away. It goes where nothing has it open, and it has no other
/// name (POSIX.1-2017, unlink). It takes no memory.
pub fn leave_unnamed<A: Allocator + Copy>(descs: &Descs<A>, nodes: &mut Nodes<A>, node: Node)
    requires { IsThere (nodes_of nodes.old) node }
    ensures { Leaves descs.now.opened descs.now.opened (nodes_of nodes.old) (nodes_of nodes.new) node }
{
    let has_reader = descs.readers(node) > 0;
    let has_writer = descs.writers(node) > 0;
    match node {
        Node::Pipe(pipe) => leave_pipe(nodes, pipe, has_reader, has_writer, has_writer),
        Node::File(file) => leave_file(nodes, file, has_reader, has_writer),
    }
}

/// Gives up a loose hold of a description, which is gone where that was its last holder. Its pipe goes with its last end, and
/// is hung once its last writer left; its file goes where nothing else has it open, and it has no name (POSIX.1-2017, close and
/// unlink; poll, POLLHUP). It takes no memory.
pub fn release<A: Allocator + Copy>(descs: &mut Descs<A>, nodes: &mut Nodes<A>, key: usize)
    requires held { 0 < count_at descs.old.loose key }
    requires there { IfSome (at descs.old.opened key) (λ o. IsThere (nodes_of nodes.old) o.node) }
    requires tidy { IsTidy descs.old }
    ensures opened { at descs.new.opened ≡ (if last_hold descs.old key then set_at nat_eq (at descs.old.opened) key None else at descs.old.opened) }
    ensures loose { count_at descs.new.loose ≡ change_count key one_less (count_at descs.old.loose) }
    ensures tables { descs.new.tables ≡ descs.old.tables }
    ensures limits { descs.new.limits ≡ descs.old.limits }
    ensures tidy { IsTidy descs.new }
    ensures shrinks { Shrinks (memory_of nodes.old) (memory_of nodes.new) }
    ensures stays { last_hold descs.old key ≡ false → nodes.new ≡ nodes.old }
    ensures leaves { last_hold descs.old key ≡ true → IfSome (at descs.old.opened key) (λ o. Leaves descs.old.opened descs.new.opened (nodes_of nodes.old) (nodes_of nodes.new) o.node) }
{
    let Released::Gone {
        node,
        mode,
        readers,
        writers,
    } = descs.release(key)
    else {
        return;
    };
    let has_reader = readers > 0;
    let has_writer = writers > 0;
    let had_writer = has_writer || mode.writes();
    match node {
        Node::Pipe(pipe) => leave_pipe(nodes, pipe, has_reader, has_writer, had_writer),
        Node::File(file) => leave_file(nodes, file, has_reader, has_writer),
    }
}

/// Gives up a loose hold of each of these descriptions, one after another. It takes no memory.
pub fn release_all<A: Allocator + Copy>(descs: &mut Descs<A>, nodes: &mut Nodes<A>, keys: &[usize])
    requires held { (key : ℕ) → times keys.now key ≤ count_at descs.old.loose key }
    requires there { AreThere (at descs.old.opened) (nodes_of nodes.old) }
    requires tidy { IsTidy descs.old }
    ensures { ReleasesAll keys.now descs.old descs.new (nodes_of nodes.old) (nodes_of nodes.new) }
{
    for place in 0..keys.len() {
        release(descs, nodes, keys[place]);
    }
}
