//! A packet pipe of the nodes.
use crate::ends::weight;
use crate::equal::is;
use pl_nodes::{NodeLimits, Nodes};
use pl_segments::NoMemory;
use std::alloc::Allocator;

/// The packet that a read of nine bytes gets of a pipe to which two were written.
fn packet_of_two<A: Allocator + Copy>(alloc: A) -> Result<Vec<u8, A>, NoMemory> {
    let limits = NodeLimits {
        file_max: 16,
        spare_max: 1,
    };
    let mut nodes = Nodes::new(alloc, limits);
    let pipe = nodes.make_packet_pipe()?;
    nodes.write_packets(pipe, b"ab")?;
    nodes.read_packet(pipe, 9)
}

#[test]
fn a_packet_is_read_whole(rt: HostRuntime) {
    let told = match packet_of_two(rt.alloc()) {
        Ok(packet) => weight(packet.as_slice()),
        Err(NoMemory) => 0,
    };
    // "ab"
    is(&rt, "the packet", told, 97 * 257 + 98);
}
