//! What the kernel answers where no script can say it: packets, large bytes and files of few bytes, a hundred rounds, what memory bytes
//! take, runs and each front of one, an exit with two hundred calls that wait, replies that are given twice, which calls are alike, and the
//! kernel as a newcomer uses it.
#![tactic(auto)]

#[cfg(test)]
mod alike;
#[cfg(test)]
mod first_use;
#[cfg(test)]
mod large;
#[cfg(test)]
mod many_calls;
#[cfg(test)]
mod packet_ends;
#[cfg(test)]
mod packets;
#[cfg(test)]
mod pairs;
#[cfg(test)]
mod rounds;
#[cfg(test)]
mod runs;
#[cfg(test)]
mod segments;
#[cfg(test)]
mod small_files;
