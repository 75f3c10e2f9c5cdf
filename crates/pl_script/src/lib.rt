//! Scripts: lists of lines that ask for steps of a kernel or for what a file holds, and the text of what they are answered.
//!
//! `run_script` runs a whole script from a reader to a writer; `parse_line`, `show` and `show_file`, of `pl_lines`, are one line
//! of it in version 1, and `parse_line_2`, `show_2` and `show_file_2` one in version 2. What a script prints is defined in `pl_model`,
//! in `specs/Script.antt`.
#![tactic(auto)]

mod checking;
mod comparing;
mod explaining;
mod fault;
mod header;
mod live;
mod live_lines;
mod misspelt;
mod peer;
mod reading;
mod running;
mod streams;
mod telling;
mod writing;

pub use checking::{check_script, check_script_explained};
pub use comparing::Checked;
pub use fault::ScriptFault;
pub use header::header_limits;
pub use live::{MAX_LIVE_READS, run_live, run_live_explained};
pub use live_lines::MAX_LINE_BYTES;
pub use peer::{LiveFault, LiveTotals, Peer};
pub use pl_lines::{
    Explanation, LineFault, Reason, Wanted, parse_line, parse_line_2, show, show_2, show_file,
    show_file_2,
};
pub use pl_model::numbers::{MAX_READS, MAX_SCRIPT_BYTES};
pub use pl_model::{Line, Totals, Version};
pub use running::{run_script, run_script_explained};
pub use streams::{Reads, Sink, Source, Writes};
pub use writing::write_whole;
