// What a node owns and holds of one dimension of an array.

ghost use Rattle.std.specs.Prelude.{◌≡◌, ◌≤◌, ◌<◌, ◌+◌, IsTrue, Some, None, if◌then◌else◌, ◌&&◌};
ghost use Rattle.xmp_dist.specs.Count.{count_below};
ghost use Rattle.xmp_dist.specs.Valid.{is_extent};
ghost use Rattle.xmp_map.specs.Boxes.{IsInside};
ghost use Rattle.xmp_map.specs.Align.{is_target, is_shadow};
ghost use Rattle.xmp_map.specs.Held.{offset_of, holds_on};
ghost use Rattle.xmp_map.specs.Axes.{owner_on};

use crate::align::under;
use crate::aligned::{AlignedDim, Target};
use crate::reach::{held_below, local_of};
use crate::template::Template;
use xmp_dist::Dist;

// The offset of a target, which is never negative where it names a dimension.
fn offset(target: &Target) -> u32
    ensures { result ≡ offset_of target.now.offset }
{
    if target.offset < 0 {
        0
    } else {
        target.offset as u32
    }
}

// How many subscripts of the dimension the node that stands at `at` in the grid holds.
pub fn held(template: &Template, dim: &AlignedDim, at: &[u32; 3]) -> u32
    requires target { IsTrue (is_target template.now.dims template.now.spread dim.now) }
    requires shadow { IsTrue (is_shadow template.now.spread dim.now) }
    requires extent { IsTrue (is_extent dim.now.extent) }
    requires node { IsInside at.now template.now.grid.sizes }
    ensures held { result ≡ count_below (holds_on template.now.spread at.now dim.now) dim.now.extent }
    ensures most { result ≤ dim.now.extent }
{
    match under(template, dim) {
        None => dim.extent,
        Some(spread) => held_below(
            &spread.dim,
            spread.node_along(at),
            dim.low,
            dim.high,
            offset(&dim.target),
            dim.extent,
        ),
    }
}

// The local position of subscript `x` at that node, or `None` where it does not hold `x`.
pub fn local(template: &Template, dim: &AlignedDim, at: &[u32; 3], x: u32) -> Option<u32>
    requires target { IsTrue (is_target template.now.dims template.now.spread dim.now) }
    requires shadow { IsTrue (is_shadow template.now.spread dim.now) }
    requires extent { IsTrue (is_extent dim.now.extent) }
    requires node { IsInside at.now template.now.grid.sizes }
    requires inside { x < dim.now.extent }
    ensures { result ≡ (if holds_on template.now.spread at.now dim.now x
        then Some (count_below (holds_on template.now.spread at.now dim.now) x)
        else None) }
{
    match under(template, dim) {
        None => Some(x),
        Some(spread) => local_of(
            &spread.dim,
            spread.node_along(at),
            dim.low,
            dim.high,
            offset(&dim.target),
            x,
        ),
    }
}

// The owner of subscript `x` along an axis of the grid, where the dimension lies on that axis.
pub fn owner_on(template: &Template, dim: &AlignedDim, x: u32, axis: u32) -> Option<u32>
    requires target { IsTrue (is_target template.now.dims template.now.spread dim.now) }
    requires extent { IsTrue (is_extent dim.now.extent) }
    requires inside { x < dim.now.extent }
    ensures { result ≡ owner_on template.now.spread dim.now x axis }
{
    let spread = under(template, dim)?;
    match spread.dim.dist() {
        Dist::Whole => None,
        _ if spread.axis == axis => Some(spread.dim.owner((x + offset(&dim.target)) as i64)),
        _ => None,
    }
}
