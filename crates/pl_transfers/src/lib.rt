//! Reads, writes, seeks and the capacities of pipes, and calls that wait.
#![tactic(auto)]

mod capacities;
mod files;
mod offsets;
mod parking;
mod progress;
mod readable;
mod reading;
mod refused;
mod transfers;
mod waiting;

pub use capacities::{get_pipe_sz, set_pipe_sz, slots};
pub use offsets::lseek;
pub use progress::{read_can_progress, write_can_progress};
pub use readable::{ReadAgain, bytes_to_read, bytes_to_resume, read_again};
pub use reading::{read, read_into};
pub use refused::refused_write;
pub use transfers::{Written, open_for, pipe, reply_of_write, write, write_from};
pub use waiting::{
    WaitingRead, give_again, interrupt, refusal_to_wait, resume_open, resume_read,
    resume_read_into, resume_write, waiting_read,
};
