// The dimensions of a template, made and asked one by one.

ghost use Rattle.std.specs.Prelude.{◌≡◌, ◌≤◌, ◌<◌, IsTrue, true, false, MatchResult, MatchOption, IfOk, length, map, slice_index, ◌∷◌, [], ◌&&◌};
ghost use Rattle.xmp_dist.specs.declared.form.Dist.TheVariants.{Whole};
ghost use Rattle.xmp_dist.specs.Valid.{is_extent};
ghost use Rattle.xmp_map.specs.Nodes.{filled};
ghost use Rattle.xmp_map.specs.Spread.{is_whole, spread, spreads, chunk_fits, chunks_fit, sizes_fit, lies_over, owns_point};

use crate::fault::MapError;
use crate::grid::Grid;
use crate::spread_dim::SpreadDim;
use xmp_base::SIZE_LIMIT;
use xmp_dist::{Dim, Dist};

fn spread(dist: Dist) -> u32
    ensures { result ≡ spread dist }
{
    match dist {
        Dist::Whole => 0,
        _ => 1,
    }
}

// How many dimensions are distributed.
pub fn spreads(dists: &[Dist]) -> u32
    requires { length dists.now ≤ 3 }
    ensures { result ≡ spreads dists.now }
{
    match dists {
        [] => 0,
        [a] => spread(*a),
        [a, b] => spread(*a) + spread(*b),
        [a, b, c, ..] => spread(*a) + spread(*b) + spread(*c),
    }
}

fn is_extent(n: u32) -> bool
    ensures { result ≡ is_extent n }
{
    1 <= n && n <= SIZE_LIMIT
}

// One to three sizes, filled up to three by 1.
pub fn filled_sizes(sizes: &[u32]) -> Option<(u32, u32, u32)>
    ensures { MatchOption result
        (sizes_fit sizes.now ≡ false)
        (λ t. (sizes_fit sizes.now ≡ true) × (filled 1 sizes.now ≡ t.0 ∷ t.1 ∷ t.2 ∷ [])
        × (is_extent t.0 ≡ true) × (is_extent t.1 ≡ true) × (is_extent t.2 ≡ true)) }
{
    match sizes {
        [a] if is_extent(*a) => Some((*a, 1, 1)),
        [a, b] if is_extent(*a) && is_extent(*b) => Some((*a, *b, 1)),
        [a, b, c] if is_extent(*a) && is_extent(*b) && is_extent(*c) => Some((*a, *b, *c)),
        _ => None,
    }
}

// At most three forms, filled up to three by `Whole`.
pub fn filled_dists(dists: &[Dist]) -> (Dist, Dist, Dist)
    ensures { filled Whole dists.now ≡ result.0 ∷ result.1 ∷ result.2 ∷ [] }
{
    match dists {
        [] => (Dist::Whole, Dist::Whole, Dist::Whole),
        [a] => (*a, Dist::Whole, Dist::Whole),
        [a, b] => (*a, *b, Dist::Whole),
        [a, b, c, ..] => (*a, *b, *c),
    }
}

fn spread_dim(grid: &Grid, size: u32, dist: Dist, axis: u32) -> Result<SpreadDim, MapError>
    requires axis { axis < 3 }
    requires size { IsTrue (is_extent size) }
    ensures ok { IfOk result (λ s. (s.axis ≡ axis) × (s.dim.size ≡ size) × (s.dim.dist ≡ dist)
        × (is_whole dist ≡ false → s.dim.nodes ≡ slice_index grid.now.sizes axis)) }
    ensures fault { MatchResult result
        (λ s. chunk_fits dist size (slice_index grid.now.sizes axis) ≡ true)
        (λ e. (chunk_fits dist size (slice_index grid.now.sizes axis) ≡ false) × (e ≡ MapError.Chunk)) }
{
    let nodes = match dist {
        Dist::Whole => 1,
        _ => grid.sizes[axis as usize],
    };
    match Dim::new(size, nodes, dist) {
        Ok(dim) => Ok(SpreadDim { dim, axis }),
        Err(_) => Err(MapError::Chunk),
    }
}

// Three dimensions, of which the distributed ones lie, in order, on the axes of the grid.
pub fn spread_dims(
    grid: &Grid,
    s0: u32,
    s1: u32,
    s2: u32,
    d0: Dist,
    d1: Dist,
    d2: Dist,
) -> Result<[SpreadDim; 3], MapError>
    requires first { IsTrue (is_extent s0) }
    requires second { IsTrue (is_extent s1) }
    requires third { IsTrue (is_extent s2) }
    ensures lie { IfOk result (λ s. IsTrue (lies_over s grid.now.sizes 0)) }
    ensures sizes { IfOk result (λ s. map (λ t. t.dim.size) s ≡ s0 ∷ s1 ∷ s2 ∷ []) }
    ensures dists { IfOk result (λ s. map (λ t. t.dim.dist) s ≡ d0 ∷ d1 ∷ d2 ∷ []) }
    ensures fault { MatchResult result
        (λ s. chunks_fit (s0 ∷ s1 ∷ s2 ∷ []) (d0 ∷ d1 ∷ d2 ∷ []) grid.now.sizes 0 ≡ true)
        (λ e. (chunks_fit (s0 ∷ s1 ∷ s2 ∷ []) (d0 ∷ d1 ∷ d2 ∷ []) grid.now.sizes 0 ≡ false)
        × (e ≡ MapError.Chunk)) }
{
    let second = spread(d0);
    let third = second + spread(d1);
    match (
        spread_dim(grid, s0, d0, 0),
        spread_dim(grid, s1, d1, second),
        spread_dim(grid, s2, d2, third),
    ) {
        (Ok(a), Ok(b), Ok(c)) => Ok([a, b, c]),
        _ => Err(MapError::Chunk),
    }
}

fn both(p: bool, q: bool) -> bool
    ensures { result ≡ (p && q) }
{
    p && q
}

// Whether the node that stands at `at` in the grid owns each position of a point.
pub fn owns_three(a: &SpreadDim, b: &SpreadDim, c: &SpreadDim, at: &[u32; 3], point: &[i64]) -> bool
    ensures { result ≡ owns_point at.now (a.now ∷ b.now ∷ c.now ∷ []) point.now }
{
    match point {
        [] => true,
        [x, rest @ ..] => both(a.owns(at, *x), owns_two(b, c, at, rest)),
    }
}

fn owns_two(b: &SpreadDim, c: &SpreadDim, at: &[u32; 3], point: &[i64]) -> bool
    ensures { result ≡ owns_point at.now (b.now ∷ c.now ∷ []) point.now }
{
    match point {
        [] => true,
        [x, rest @ ..] => both(b.owns(at, *x), owns_one(c, at, rest)),
    }
}

fn owns_one(c: &SpreadDim, at: &[u32; 3], point: &[i64]) -> bool
    ensures { result ≡ owns_point at.now (c.now ∷ []) point.now }
{
    match point {
        [] => true,
        [x, ..] => both(c.owns(at, *x), true),
    }
}
