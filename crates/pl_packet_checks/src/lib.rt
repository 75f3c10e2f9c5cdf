//! Tests of a ring of packets, with memory and where the Nth request for memory is refused.
#![tactic(auto)]

#[cfg(test)]
mod kept;
#[cfg(test)]
mod sessions;
