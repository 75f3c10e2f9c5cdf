//! What lines ask, what scripts print, what the words of a command line ask for, and how a run ends where a read, a write or a
//! request for memory fails.
#![tactic(auto)]

#[cfg(test)]
mod cuts;
#[cfg(test)]
mod equal;
#[cfg(test)]
mod faults;
#[cfg(test)]
mod fifo_lines;
#[cfg(test)]
mod file_lines;
#[cfg(test)]
mod lines;
#[cfg(test)]
mod many_calls;
#[cfg(test)]
mod memory;
#[cfg(test)]
mod poll_lines;
#[cfg(test)]
mod programs;
#[cfg(test)]
mod recorded;
#[cfg(test)]
mod records;
#[cfg(test)]
mod refused;
#[cfg(test)]
mod replies;
#[cfg(test)]
mod runs;
#[cfg(test)]
mod said_lines;
#[cfg(test)]
mod session;
#[cfg(test)]
mod sessions;
#[cfg(test)]
mod shared_lines;
#[cfg(test)]
mod single_lines;
#[cfg(test)]
mod size_lines;
#[cfg(test)]
mod splice_lines;
#[cfg(test)]
mod streams;
#[cfg(test)]
mod trickling;
#[cfg(test)]
mod version_2;
#[cfg(test)]
mod words;
