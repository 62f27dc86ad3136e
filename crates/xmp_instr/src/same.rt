// Whether two maps are the same, part by part.
ghost use Rattle.std.specs.Prelude.{◌≡◌, ◌↔◌, IsTrue};

use xmp_dist::{Dim, Dist, Lengths};
use xmp_map::{AlignedDim, ArrayMap, Grid, SpreadDim, Target, Template};

pub fn is_same_list(a: &[u32], b: &[u32]) -> bool
    ensures { IsTrue result ↔ (a.now ≡ b.now) }
{
    a == b
}

pub fn is_same_grid(a: &Grid, b: &Grid) -> bool
    ensures { IsTrue result ↔ (a.now ≡ b.now) }
{
    is_same_list(&a.sizes, &b.sizes) && a.dims == b.dims
}

fn are_same_lengths(a: &Lengths, b: &Lengths) -> bool
    ensures { IsTrue result ↔ (a.now ≡ b.now) }
{
    is_same_list(&a.values, &b.values) && a.count == b.count
}

fn is_same_dist(a: &Dist, b: &Dist) -> bool
    ensures { IsTrue result ↔ (a.now ≡ b.now) }
{
    match (a, b) {
        (Dist::Whole, Dist::Whole) => true,
        (Dist::Block, Dist::Block) => true,
        (Dist::Cyclic(width), Dist::Cyclic(other)) => *width == *other,
        (Dist::Gblock(lengths), Dist::Gblock(other)) => are_same_lengths(lengths, other),
        _ => false,
    }
}

fn is_same_dim(a: &Dim, b: &Dim) -> bool
    ensures { IsTrue result ↔ (a.now ≡ b.now) }
{
    a.size == b.size && a.nodes == b.nodes && is_same_dist(&a.dist, &b.dist)
}

fn is_same_spread_dim(a: &SpreadDim, b: &SpreadDim) -> bool
    ensures { IsTrue result ↔ (a.now ≡ b.now) }
{
    is_same_dim(&a.dim, &b.dim) && a.axis == b.axis
}

fn is_same_spread(a: &[SpreadDim; 3], b: &[SpreadDim; 3]) -> bool
    ensures { IsTrue result ↔ (a.now ≡ b.now) }
{
    let [a0, a1, a2] = a;
    let [b0, b1, b2] = b;
    is_same_spread_dim(a0, b0) && is_same_spread_dim(a1, b1) && is_same_spread_dim(a2, b2)
}

fn is_same_template(a: &Template, b: &Template) -> bool
    ensures { IsTrue result ↔ (a.now ≡ b.now) }
{
    is_same_grid(&a.grid, &b.grid) && is_same_spread(&a.spread, &b.spread) && a.dims == b.dims
}

fn is_same_target(a: Target, b: Target) -> bool
    ensures { IsTrue result ↔ (a ≡ b) }
{
    let same = match (a.dim, b.dim) {
        (None, None) => true,
        (Some(d), Some(e)) => d == e,
        _ => false,
    };
    same && a.offset == b.offset
}

fn is_same_aligned(a: &AlignedDim, b: &AlignedDim) -> bool
    ensures { IsTrue result ↔ (a.now ≡ b.now) }
{
    a.extent == b.extent && is_same_target(a.target, b.target) && a.low == b.low && a.high == b.high
}

fn are_same_aligned(a: &[AlignedDim; 3], b: &[AlignedDim; 3]) -> bool
    ensures { IsTrue result ↔ (a.now ≡ b.now) }
{
    let [a0, a1, a2] = a;
    let [b0, b1, b2] = b;
    is_same_aligned(a0, b0) && is_same_aligned(a1, b1) && is_same_aligned(a2, b2)
}

pub fn is_same_map(a: &ArrayMap, b: &ArrayMap) -> bool
    ensures { IsTrue result ↔ (a.now ≡ b.now) }
{
    is_same_template(&a.template, &b.template)
        && are_same_aligned(&a.aligned, &b.aligned)
        && a.dims == b.dims
}
