// The dimensions of the sides of a transfer at a node.
ghost use Rattle.std.specs.Prelude.{◌≡◌, ◌≤◌, ◌<◌, true, drop, IfSome, slice_get};
ghost use Rattle.xmp_base.specs.Limits.{cell_limit};
ghost use Rattle.xmp_map.specs.Nodes.{filled};
ghost use Rattle.xmp_map.specs.RowMajor.{product, unravel};
ghost use Rattle.xmp_map.specs.Held.{holds_on, node_count, owns_on};
ghost use Rattle.xmp_move.specs.Axes.{AxesFit, AxisFits, extents};
ghost use Rattle.xmp_move.specs.Ends.{HomeFits, IsAxes, IsAxis, held_tests, count_of, owned_tests, weighted};

use crate::axis::Axis;
use crate::pick::Pick;
use crate::reach::{Reach, held_on, owned_on};
use xmp_map::ArrayMap;
use xmp_prog::Home;

/// The extents of three dimensions; those that an array doesn't have are 1.
pub fn three_extents(extents: &[u32]) -> [u32; 3]
    ensures { result ≡ filled 1 extents.now }
{
    match extents {
        [] => [1, 1, 1],
        [a] => [*a, 1, 1],
        [a, b] => [*a, *b, 1],
        [a, b, c, ..] => [*a, *b, *c],
    }
}

/// A dimension that each node has whole.
fn whole(extent: u32, pick: Pick) -> Axis
    ensures { IsAxis result extent pick (λ _. true) }
{
    Axis {
        extent,
        pick,
        reach: Reach::Span {
            from: 0,
            to: extent,
        },
        weight: 0,
    }
}

/// A dimension of a distributed array, with the subscripts that a node owns.
fn owned_axis(map: &ArrayMap, node: u32, d: u32, pick: Pick) -> Axis
    requires node { node < node_count map.now }
    requires dimension { d < 3 }
    ensures { IfSome (slice_get map.now.aligned d)
        (λ l. IsAxis result l.extent pick (owns_on map.now.template.spread (unravel map.now.template.grid.sizes node) l)) }
{
    let dim = &map.aligned[d as usize];
    Axis {
        extent: dim.extent,
        pick,
        reach: owned_on(&map.template, dim, node),
        weight: 0,
    }
}

/// The same with the subscripts that it holds.
fn held_axis(map: &ArrayMap, node: u32, d: u32, pick: Pick) -> Axis
    requires node { node < node_count map.now }
    requires dimension { d < 3 }
    ensures { IfSome (slice_get map.now.aligned d)
        (λ l. IsAxis result l.extent pick (holds_on map.now.template.spread (unravel map.now.template.grid.sizes node) l)) }
{
    let dim = &map.aligned[d as usize];
    Axis {
        extent: dim.extent,
        pick,
        reach: held_on(&map.template, dim, node),
        weight: 0,
    }
}

/// The dimensions of a side, with the subscripts that a node owns.
pub fn owned_axes(home: &Home, extents: &[u32; 3], picks: &[Pick; 3], node: u32) -> [Axis; 3]
    requires { HomeFits home.now extents.now node }
    ensures { IsAxes result extents.now picks.now (owned_tests home.now node) }
{
    match home {
        Home::Spread(_, map) => {
            let _three = map.aligned[2];
            [
                owned_axis(map, node, 0, picks[0]),
                owned_axis(map, node, 1, picks[1]),
                owned_axis(map, node, 2, picks[2]),
            ]
        }
        _ => [
            whole(extents[0], picks[0]),
            whole(extents[1], picks[1]),
            whole(extents[2], picks[2]),
        ],
    }
}

/// The same with the subscripts that it holds.
pub fn held_axes(home: &Home, extents: &[u32; 3], picks: &[Pick; 3], node: u32) -> [Axis; 3]
    requires { HomeFits home.now extents.now node }
    ensures { IsAxes result extents.now picks.now (held_tests home.now node) }
{
    match home {
        Home::Spread(_, map) => {
            let _three = map.aligned[2];
            [
                held_axis(map, node, 0, picks[0]),
                held_axis(map, node, 1, picks[1]),
                held_axis(map, node, 2, picks[2]),
            ]
        }
        _ => [
            whole(extents[0], picks[0]),
            whole(extents[1], picks[1]),
            whole(extents[2], picks[2]),
        ],
    }
}

/// How many subscripts of a dimension pass.
fn count(axis: &Axis) -> u32
    requires { AxisFits axis.now }
    ensures { result ≡ count_of axis.now }
{
    axis.reach.position(axis.extent, axis.extent)
}

/// A dimension with what each smaller subscript adds to a slot.
fn weigh(axis: &Axis, weight: u32) -> Axis
    ensures { result ≡ record axis.now { weight = weight } }
{
    Axis {
        extent: axis.extent,
        pick: axis.pick,
        reach: axis.reach,
        weight,
    }
}

/// Three dimensions with what they add to the slot of a cell among those that pass in each.
pub fn weighted(axes: &[Axis; 3]) -> [Axis; 3]
    requires fits { AxesFit axes.now }
    requires small { product (drop 1 (extents axes.now)) ≤ cell_limit }
    ensures { result ≡ weighted axes.now }
{
    let columns = count(&axes[2]);
    let rows = count(&axes[1]);
    [
        weigh(&axes[0], rows * columns),
        weigh(&axes[1], columns),
        weigh(&axes[2], 1),
    ]
}
