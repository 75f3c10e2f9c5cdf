//! The plain types of the pipe layer, and the definitions that say what it does.
//!
//! The types are here in `src/`. The definitions, which the contracts of all crates cite, are in `specs/`: a machine
//! whose pipes are flat byte queues and whose ends are open because something names them. `laws` has what is proved of
//! the machine itself, and `worked` what it answers in the worked examples.
#![tactic(auto)]

pub mod bytes;
pub mod calls;
pub mod cases;
mod fault;
pub mod flags;
pub mod history;
pub mod keys;
pub mod laws;
pub mod name;
pub mod node;
pub mod numbers;
pub mod polls;
pub mod replies;
pub mod script;
pub mod worked;

pub use bytes::Bytes8;
pub use calls::{Call, Limits, Mode, Step, Whence};
pub use cases::{MoveCase, Polled, ReadCase, Source, Target, WriteCase};
pub use fault::NoMemory;
pub use flags::{OpenFlags, PollMask, SpliceFlags};
pub use history::Entry;
pub use keys::KeyList;
pub use name::Name;
pub use node::Node;
pub use polls::{MaskList, PollList};
pub use replies::{Errno, Outcome, Reply};
pub use script::{Line, Totals, Version};
