//! A recorder: it writes the record of a run, step by step, and hands it out while the run goes on.
//!
//! A record is a script that asks for each step that was made, and tells each reply in a comment: `specs/Record.antt` of `pl_recording`. What a
//! recorder has written and not handed out is `unread` of `specs/Unread.antt`. The line of a step is written before the step is made, and the
//! comment behind it before the next one. So nothing that follows a step takes memory.
#![tactic(auto)]

mod reading;
mod recorder;

pub use recorder::{Most, Recorder};
