//! A place among slots that stand in chunks.

/// A slot, by its chunk and its place there; behind the last slot, the chunk behind the last one and the place 0.
#[derive(Clone, Copy, Debug, PartialEq, Eq)]
pub(crate) struct Spot {
    pub(crate) chunk: usize,
    pub(crate) at: usize,
}
