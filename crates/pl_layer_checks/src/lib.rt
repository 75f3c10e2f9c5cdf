//! Tests of the layers below the kernel, with memory and without: parked calls, open file descriptions, and pipes and files over
//! one store.
#![tactic(auto)]

#[cfg(test)]
mod descs;
#[cfg(test)]
mod ends;
#[cfg(test)]
mod equal;
#[cfg(test)]
mod nodes;
#[cfg(test)]
mod packets;
#[cfg(test)]
mod parked;
#[cfg(test)]
mod refusing;
