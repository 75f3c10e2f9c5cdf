//! The packets of one pipe: slices of shared segments, one for each, seen with their store as a list of packets.
#![tactic(auto)]

mod ring;

pub use ring::PacketRing;
