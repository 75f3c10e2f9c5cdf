//! How a descriptor comes to name a new description.
ghost use Rattle.std.specs.Prelude.{◌≡◌, ◌+◌, ◌<◌, IsTrue, Some, None, nat_eq};
ghost use Rattle.pl_model.specs.Map.{set_at};
ghost use Rattle.pl_desc.specs.Rows.{at, is_pid, row_at, rows_at, with_row, count_at};
ghost use Rattle.pl_desc.specs.Descs.{HasRoom, IsNoLess, IsTidy, fresh, live_count};

use pl_desc::Descs;
use pl_model::{Mode, Node, OpenFlags};
use std::alloc::Allocator;

/// Opens a description, for which there is room, at a free descriptor of a process, which is within the limit and has a row. It takes no
/// memory.
pub fn open_at<A: Allocator + Copy>(
    descs: &mut Descs<A>,
    pid: u32,
    fd: usize,
    node: Node,
    mode: Mode,
    flags: OpenFlags,
) -> usize
    requires process { IsTrue (is_pid descs.old.tables pid) }
    requires place { fd < descs.old.limits.descriptors }
    requires row { fd < rows_at descs.old.room.rows pid }
    requires free { row_at descs.old.tables pid fd ≡ None }
    requires room { HasRoom descs.old.room node 1 }
    requires few { live_count descs.old.opened < descs.old.limits.descriptions }
    ensures vacant { at descs.old.opened result ≡ None }
    ensures opened { at descs.new.opened ≡ set_at nat_eq (at descs.old.opened) result (Some (fresh node mode flags)) }
    ensures live { live_count descs.new.opened ≡ live_count descs.old.opened + 1 }
    ensures rows { row_at descs.new.tables ≡ with_row (row_at descs.old.tables) pid fd (Some result) }
    ensures pids { is_pid descs.new.tables ≡ is_pid descs.old.tables }
    ensures loose { count_at descs.new.loose ≡ count_at descs.old.loose }
    ensures limits { descs.new.limits ≡ descs.old.limits }
    ensures room { IsNoLess descs.old.room descs.new.room 1 }
    ensures tidy { IsTidy descs.new }
{
    let key = descs.open_reserved(node, mode, flags);
    descs.install(pid, fd, key);
    key
}
