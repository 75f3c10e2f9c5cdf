//! The lines of a script: what one asks, and the text of what it is answered.
//!
//! `parse_line_of` reads one line, and `repeated_write` one that writes a byte many times, without its bytes. `next_line` parts the lines
//! of a text, and `split_version` leaves out the one that names its version. `push_line` gives the line of an outcome, and `push_file_line`
//! that of a file's bytes. `parse_line`, `show` and `show_file` are one line, one outcome and one file of version 1, and `parse_line_2`,
//! `show_2` and `show_file_2` those of version 2. `push_step` gives the line that says a step, and `push_write` and `push_read` those of a
//! write and a read of which there is no step. `is_sayable` tells whether a line says a step. `push_reply_2`, `push_number` and
//! `keep_if_pushed` are parts of other lines. `explain_line` tells what is wrong with a bad line, as `specs/Explained.antt` defines it.
//! What a line asks and what it is answered is defined in `pl_model`, in `specs/Lines.antt` and `specs/Shown.antt`, and the line that says
//! a step in `specs/Said.antt`. The words of a line are read by `pl_words`, whose `LineFault` is given on.
//!
//! The lines are `start`, `resume C`, `interrupt C`, `file NAME`, `P pipe`, `P pipe nonblock` (in version 2 `P pipe FLAGS`),
//! `P mkfifo NAME`, `P open NAME MODE`, `P open NAME MODE FLAGS`, `P read FD N`, `P write FD BYTES`, `P splice FD OFF FD OFF LEN`,
//! `P splice FD OFF FD OFF LEN FLAGS`, `P tee FD FD LEN`, `P tee FD FD LEN FLAGS`, `P poll now ENTRY ..`, `P poll wait ENTRY ..`,
//! `P lseek FD OFFSET WHENCE`, `P unlink NAME`, `P dup FD`, `P dup2 FD FD`, `P dupfd FD N`, `P close FD`, `P getfl FD`,
//! `P setfl FD FLAGS`, `P getsz FD`, `P setsz FD N`, `P fork` and `P exit`, and those that ask nothing: blank ones and comments, which
//! begin with `#`.
#![tactic(auto)]

mod calls;
mod digits;
mod explain;
mod kinds;
pub mod laws;
mod lines;
mod parse;
mod runs;
mod said_words;
mod sayable;
mod saying;
mod text;

pub use explain::{Explanation, explain_line};
pub use lines::{names_version_2, next_line, split_version};
pub use parse::{RepeatedWrite, parse_line, parse_line_2, parse_line_of, repeated_write};
pub use pl_words::{LineFault, Reason, Wanted};
pub use sayable::is_sayable;
pub use saying::{push_read, push_step, push_write};
pub use text::{
    keep_if_pushed, push_file_line, push_line, push_number, push_reply_2, show, show_2, show_file,
    show_file_2,
};
