//! Tests of shared segments, and of the rings and files over them: two rings and a file over one store beside plain lists of bytes,
//! with memory and without.
#![tactic(auto)]

#[cfg(test)]
mod again;
#[cfg(test)]
mod chunks;
#[cfg(test)]
mod drawn;
#[cfg(test)]
mod fault;
#[cfg(test)]
mod long;
#[cfg(test)]
mod one_store;
#[cfg(test)]
mod operation;
#[cfg(test)]
mod plain;
#[cfg(test)]
mod reading;
#[cfg(test)]
mod sessions;
#[cfg(test)]
mod two_slices;
#[cfg(test)]
mod watched;
#[cfg(test)]
mod without;
