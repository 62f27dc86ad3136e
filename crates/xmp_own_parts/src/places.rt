// Where a node stands in a grid, and which points it owns.
ghost use Rattle.std.specs.Prelude.{◌≡◌, ◌≢◌, ◌<◌, ℕ, true, map, slice_get, Some, IsTrue, IfSome, ℤ};
ghost use Rattle.xmp_dist.specs.Owner.{owner};
ghost use Rattle.xmp_map.specs.RowMajor.{unravel};
ghost use Rattle.xmp_map.specs.Spread.{node_along, owns_point};
ghost use Rattle.xmp_prog.specs.Statements.{indices_of};
ghost use Rattle.xmp_meaning_laws.specs.Tuples.{position_in, value_in};
ghost use Rattle.xmp_own_parts.specs.Nests.{chosen_or};

use crate::axis::Axis;
use crate::lists::split;
use xmp_dist::Dist;
use xmp_map::{Grid, SpreadDim};
use xmp_prog::{LoopHead, Point};

/// Where a node stands in a grid.
pub fn stands_at(grid: &Grid, node: u32) -> [u32; 3]
    ensures { result ≡ unravel grid.now.sizes node }
{
    let [_, rows, columns] = grid.sizes;
    let rest = node % (rows * columns);
    [node / (rows * columns), rest / columns, rest % columns]
}

/// The number of that node along a dimension.
fn number_along(at: &[u32; 3], spread: &SpreadDim) -> u32
    ensures { result ≡ node_along at.now spread.now }
{
    match spread.dim.dist() {
        Dist::Whole => 0,
        _ => at[spread.axis as usize],
    }
}

/// The value of an index in a tuple.
pub fn value_in(heads: &[LoopHead], tuple: &[i32], slot: u32) -> i32
    ensures { result ≡ value_in (indices_of heads.now) tuple.now slot }
{
    match (split(heads), split(tuple)) {
        (Some((head, heads)), Some((value, tuple))) => {
            if head.index.number == slot {
                *value
            } else {
                value_in(heads, tuple, slot)
            }
        }
        _ => 0,
    }
}

/// A value, or the innermost that is chosen for an index.
pub fn chosen_or(heads: &[LoopHead], chosen: &[i32], old: i64, slot: u32) -> i64
    ensures { result ≡ chosen_or (indices_of heads.now) chosen.now old slot }
{
    match (split(heads), split(chosen)) {
        (Some((head, heads)), Some((value, chosen))) => {
            let value = if slot == head.index.number {
                i64::from(*value)
            } else {
                old
            };
            chosen_or(heads, chosen, value, slot)
        }
        _ => old,
    }
}

/// A position of a tuple's point.
fn position_in(heads: &[LoopHead], tuple: &[i32], point: &Point) -> i64
    ensures { result ≡ position_in (indices_of heads.now) tuple.now point.now }
{
    match point {
        Point::Any => 0,
        Point::Index { slot, offset } => {
            i64::from(value_in(heads, tuple, *slot)) + i64::from(*offset)
        }
    }
}

/// Whether the node that stands at `at` owns the point of a tuple.
pub fn owns(
    at: &[u32; 3],
    spread: &[SpreadDim],
    points: &[Point],
    heads: &[LoopHead],
    tuple: &[i32],
) -> bool
    ensures { result ≡ owns_point at.now spread.now (map (position_in (indices_of heads.now) tuple.now) points.now) }
{
    match (split(spread), split(points)) {
        (Some((first, spread)), Some((point, points))) => {
            first.dim.owner(position_in(heads, tuple, point)) == number_along(at, first)
                && owns(at, spread, points, heads, tuple)
        }
        _ => true,
    }
}

/// The first dimension whose position goes by an index.
pub fn axis_of<'a>(
    at: &[u32; 3],
    spread: &'a [SpreadDim],
    points: &[Point],
    index: u32,
) -> Option<Axis<'a>>
    ensures { IfSome result (λ axis. (position : Point → ℤ) → IsTrue (owns_point at.now spread.now (map position points.now)) → owner axis.dim.now (position (Point.Index index axis.offset)) ≡ axis.node) }
{
    let (first, spread) = split(spread)?;
    let (point, points) = split(points)?;
    match point {
        Point::Index { slot, offset } if *slot == index => Some(Axis {
            dim: &first.dim,
            node: number_along(at, first),
            offset: *offset,
        }),
        _ => axis_of(at, spread, points, index),
    }
}

/// Whether none of the first loops of a nest has an index.
pub fn is_apart(heads: &[LoopHead], many: usize, index: u32) -> bool
    ensures { result ≡ true → (k : ℕ) → k < many → (head : LoopHead) → slice_get heads.now k ≡ Some head → head.index.number ≢ index }
{
    'heads: for (k, head) in heads.iter().enumerate() {
        if k < many && head.index.number == index {
            return false;
        }
    }
    true
}
