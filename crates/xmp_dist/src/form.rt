// The forms of a distribution, and why one is refused.

use thiserror::Error;

/// The lengths of the chunks of a `Gblock`, one for each node. The first `count` are meant.
#[derive(Clone, Copy, PartialEq, Eq, Debug)]
pub struct Lengths {
    pub values: [u32; 16],
    pub count: u32,
}

/// How the positions of a dimension are dealt out to its nodes.
#[derive(Clone, Copy, PartialEq, Eq, Debug)]
pub enum Dist {
    /// `*`: undistributed, one node has all.
    Whole,
    /// `block`: equal chunks, as long as it takes for all nodes to have at most one.
    Block,
    /// `cyclic(width)`: chunks of this width, dealt out in turn.
    Cyclic(u32),
    /// `gblock({..})`: chunks of these lengths, one for each node, end to end.
    Gblock(Lengths),
}

/// Why `Dim::new` refuses.
#[derive(Clone, Copy, PartialEq, Eq, Debug, Error)]
pub enum DimError {
    #[error("a size or a number of nodes is out of range")]
    BadSize,
    #[error("a width is out of range")]
    BadChunk,
    #[error("the lengths do not make up the size")]
    BadSum,
}
