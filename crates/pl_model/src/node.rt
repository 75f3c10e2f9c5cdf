//! What a description is open on, as the code keys it.

/// What an open file description is open on, by the key under which it is held.
#[derive(Clone, Copy, Debug, PartialEq, Eq)]
pub enum Node {
    /// The pipe of this key.
    Pipe(usize),
    /// The regular file of this key.
    File(usize),
}

impl Node {
    ghost use Rattle.std.specs.Prelude.{◌≡◌};
    ghost use Rattle.pl_model.specs.Nodes.{key_of};

    /// The key under which it is held.
    pub fn key(self) -> usize
        ensures { result ≡ key_of self }
    {
        match self {
            Node::Pipe(key) | Node::File(key) => key,
        }
    }
}
