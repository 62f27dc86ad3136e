// Templates: how their dimensions lie on a grid.

ghost use Rattle.std.specs.List.{list_all};
ghost use Rattle.std.specs.Prelude.{IsTrue, drop, ◌≡◌, ◌≤◌, map};
ghost use Rattle.xmp_map.specs.Spread.{is_whole, lies_over, spreads};

use crate::fault::MapError;
use crate::grid::Grid;
use crate::numbers::unravel;
use crate::spread_dim::SpreadDim;
use crate::spreads::{filled_dists, filled_sizes, owns_three, spread_dims, spreads};
use xmp_dist::{Dim, Dist};

/// A template of one to three dimensions, distributed over a grid.
#[derive(Clone, Copy, PartialEq, Eq, Debug)]
pub struct Template {
    pub grid: Grid,
    /// The dimensions; those from `dims` on are undistributed.
    pub spread: [SpreadDim; 3],
    pub dims: u32,
    ghost most: { dims ≤ 3 },
    ghost rest: { IsTrue (list_all (λ s. is_whole s.dim.dist) (drop dims spread)) },
    ghost lies: { IsTrue (lies_over spread grid.sizes 0) },
    ghost covers: { spreads (map (λ s. s.dim.dist) spread) ≡ grid.dims },
}

impl Template {
    ghost use Rattle.std.specs.Prelude.{◌<◌, ◌↔◌, MatchResult, IfOk, IfSome, Some, None, slice_get, length};
    ghost use Rattle.xmp_dist.specs.declared.form.Dist.TheVariants.{Whole};
    ghost use Rattle.xmp_map.specs.RowMajor.{product, unravel};
    ghost use Rattle.xmp_map.specs.Nodes.{filled};
    ghost use Rattle.xmp_map.specs.Spread.{template_fault, node_along, owns_point};

    /// The template with these sizes and forms. Its distributed dimensions lie, in order, on the axes
    /// of the grid.
    #[tactic(auto, using(crate::proofs::SpreadLaws::fault_of))]
    pub fn new(grid: &Grid, sizes: &[u32], dists: &[Dist]) -> Result<Template, MapError>
        ensures parts { IfOk result (λ t. (t.grid ≡ grid.now) × (t.dims ≡ length sizes.now)
            × (map (λ s. s.dim.size) t.spread ≡ filled 1 sizes.now)
            × (map (λ s. s.dim.dist) t.spread ≡ filled Whole dists.now)) }
        ensures cause { MatchResult result
            (λ _. template_fault grid.now.dims grid.now.sizes sizes.now dists.now ≡ None)
            (λ e. template_fault grid.now.dims grid.now.sizes sizes.now dists.now ≡ Some e) }
    {
        let Some((s0, s1, s2)) = filled_sizes(sizes) else {
            return Err(MapError::Size);
        };
        if dists.len() != sizes.len() || spreads(dists) != grid.dims {
            return Err(MapError::Spread);
        }
        let (d0, d1, d2) = filled_dists(dists);
        match spread_dims(grid, s0, s1, s2, d0, d1, d2) {
            Ok(spread) => Ok(Template {
                grid: *grid,
                spread,
                dims: sizes.len() as u32,
            }),
            Err(fault) => Err(fault),
        }
    }

    /// How many dimensions there are: 1 to 3.
    pub fn dims(&self) -> u32
        ensures { result ≡ self.now.dims }
    {
        self.dims
    }

    /// One of the dimensions.
    pub fn dim(&self, d: u32) -> &Dim
        requires { d < self.now.dims }
        ensures { IfSome (slice_get self.now.spread d) (λ s. result.now ≡ s.dim) }
    {
        &self.spread[d as usize].dim
    }

    /// The number of a node along dimension `d`, 0 where that is undistributed.
    pub fn at(&self, node: u32, d: u32) -> u32
        requires node { node < product self.now.grid.sizes }
        requires dimension { d < self.now.dims }
        ensures { IfSome (slice_get self.now.spread d)
            (λ s. result ≡ node_along (unravel self.now.grid.sizes node) s) }
    {
        self.spread[d as usize].node_along(&unravel(&self.grid.sizes, node))
    }

    /// Whether a node owns a point of the template, which has one position for each dimension.
    /// A position outside is owned as the nearest one inside is.
    pub fn owns(&self, node: u32, point: &[i64]) -> bool
        requires node { node < product self.now.grid.sizes }
        requires positions { length point.now ≡ self.now.dims }
        ensures { IsTrue result
            ↔ IsTrue (owns_point (unravel self.now.grid.sizes node) self.now.spread point.now) }
    {
        let at = unravel(&self.grid.sizes, node);
        let [a, b, c] = &self.spread;
        owns_three(a, b, c, &at, point)
    }
}
