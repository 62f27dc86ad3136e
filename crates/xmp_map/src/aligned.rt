// One dimension of an array, and what it is aligned with.

/// What a dimension of an array is aligned with: subscript `x` lies at position `x + offset` of
/// dimension `dim` of the template. Where there is no `dim`, the dimension is whole at each node.
#[derive(Clone, Copy, PartialEq, Eq, Debug)]
pub struct Target {
    pub dim: Option<u32>,
    pub offset: i32,
}

/// A dimension of an array: its target, how many subscripts it has, and how many positions its
/// shadow reaches below and above a chunk.
#[derive(Clone, Copy, PartialEq, Eq, Debug)]
pub struct AlignedDim {
    pub target: Target,
    pub extent: u32,
    pub low: u32,
    pub high: u32,
}
