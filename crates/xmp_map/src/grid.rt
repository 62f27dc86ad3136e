// The nodes of a grid, and boxes of them.

ghost use Rattle.std.specs.Prelude.{IsTrue, drop, ◌==◌, ◌≤◌};
ghost use Rattle.std.specs.List.{list_all};
ghost use Rattle.xmp_map.specs.Nodes.{is_grid};

use crate::fault::MapError;
use crate::numbers::{is_grid, lies_in, product, unravel};

/// A grid of nodes of one to three dimensions, its axes. Nodes are numbered with the last axis fastest.
#[derive(Clone, Copy, PartialEq, Eq, Debug)]
pub struct Grid {
    /// The sizes of the axes; those from `dims` on are 1.
    pub sizes: [u32; 3],
    pub dims: u32,
    ghost valid: { IsTrue (is_grid sizes) },
    ghost most: { dims ≤ 3 },
    ghost rest: { IsTrue (list_all (λ s. s == 1) (drop dims sizes)) },
}

impl Grid {
    ghost use Rattle.std.specs.Prelude.{◌≡◌, MatchResult, IfOk, length, false};
    ghost use Rattle.xmp_map.specs.RowMajor.{product};
    ghost use Rattle.xmp_map.specs.Nodes.{makes_grid, filled};

    /// The grid with these sizes, one to three, for at most 16 nodes.
    #[tactic(auto, unfolding(crate::specs::RowMajor::product))]
    pub fn new(sizes: &[u32]) -> Result<Grid, MapError>
        ensures parts { IfOk result (λ g. (g.sizes ≡ filled 1 sizes.now) × (g.dims ≡ length sizes.now)) }
        ensures cause { MatchResult result
            (λ _. IsTrue (makes_grid sizes.now))
            (λ e. (makes_grid sizes.now ≡ false) × (e ≡ MapError.Nodes)) }
    {
        let all = match sizes {
            [a] => [*a, 1, 1],
            [a, b] => [*a, *b, 1],
            [a, b, c] => [*a, *b, *c],
            _ => return Err(MapError::Nodes),
        };
        if is_grid(all[0], all[1], all[2]) {
            Ok(Grid {
                sizes: all,
                dims: sizes.len() as u32,
            })
        } else {
            Err(MapError::Nodes)
        }
    }

    /// How many nodes there are: 1 to 16.
    #[tactic(auto, using(crate::proofs::GridLaws::grid_pair))]
    pub fn count(&self) -> u32
        ensures { result ≡ product self.now.sizes }
    {
        product(&self.sizes)
    }
}

/// A box of nodes: in each dimension those from `first` on, `many` of them. Unused dimensions have 0 and 1.
#[derive(Clone, Copy, PartialEq, Eq, Debug)]
pub struct NodeSet {
    pub first: [u32; 3],
    pub many: [u32; 3],
}

impl NodeSet {
    ghost use Rattle.std.specs.Prelude.{◌<◌, ◌↔◌, IsTrue};
    ghost use Rattle.xmp_map.specs.RowMajor.{product, unravel};
    ghost use Rattle.xmp_map.specs.Nodes.{in_box};

    /// Whether a node of the grid lies in the box.
    pub fn has(&self, grid: &Grid, node: u32) -> bool
        requires { node < product grid.now.sizes }
        ensures { IsTrue result
            ↔ IsTrue (in_box self.now.first self.now.many (unravel grid.now.sizes node)) }
    {
        let [x, y, z] = unravel(&grid.sizes, node);
        let [first_x, first_y, first_z] = self.first;
        let [many_x, many_y, many_z] = self.many;
        lies_in(x, first_x, many_x) && lies_in(y, first_y, many_y) && lies_in(z, first_z, many_z)
    }
}
