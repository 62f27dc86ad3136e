// One dimension of a template over a grid.

ghost use Rattle.std.specs.Prelude.{◌<◌};

use xmp_dist::{Dim, Dist};

/// A dimension of a template, and the axis of the grid that it lies on where it is distributed.
#[derive(Clone, Copy, PartialEq, Eq, Debug)]
pub struct SpreadDim {
    pub dim: Dim,
    pub axis: u32,
    ghost small: { axis < 3 },
}

impl SpreadDim {
    ghost use Rattle.std.specs.Prelude.{◌≡◌, ◌==◌};
    ghost use Rattle.xmp_dist.specs.Owner.{owner};
    ghost use Rattle.xmp_map.specs.Spread.{node_along};

    // The number, along this dimension, of the node that stands at `at` in the grid.
    pub(crate) fn node_along(&self, at: &[u32; 3]) -> u32
        ensures { result ≡ node_along at.now self.now }
    {
        match self.dim.dist() {
            Dist::Whole => 0,
            _ => at[self.axis as usize],
        }
    }

    // Whether that node is the owner of `g`.
    pub(crate) fn owns(&self, at: &[u32; 3], g: i64) -> bool
        ensures { result ≡ (owner self.now.dim g == node_along at.now self.now) }
    {
        self.dim.owner(g) == self.node_along(at)
    }
}
