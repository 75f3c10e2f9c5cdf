//! One kernel for many threads: a lock, a journal of every step, and a token for each caller.
//!
//! `Locked::attempt` makes one step under the lock, and `Locked::call` a whole call, which waits without it. Each step stands in
//! the journal with its reply. `Locked::hand_out` gives the entries so far, and the layer keeps those from then on alone; `Locked::close`
//! gives the last of them and the kernel. `Journal::replay` makes the whole journal again.
//! `Locked::glance` tells how many steps there are, without the lock. What a caller made and has seen is known from its token,
//! `Caller`, in the contracts alone.
#![tactic(auto)]

mod books;
mod caller;
mod count;
mod desk;
mod fault;
mod ground;
mod journal;
mod locked;
mod log;
mod made;
mod numbering;
mod recorded;
mod same;
mod wait_queue;
mod waiting;

pub use caller::Caller;
pub use fault::{CallFault, OpenFault, StepFault};
pub use ground::Ground;
pub use journal::{Journal, JournalPart};
pub use locked::{CallerMissing, Locked};
pub use pl_history::Layer;
pub use pl_kernel::NoMemory;
