// Which subscripts of a dimension a node has.
ghost use Rattle.std.specs.Prelude.{◌≡◌, ◌≤◌, ◌<◌, ◌+◌, ◌-◌, ◌*◌, ◌/◌, ◌%◌, ◌==◌, ◌⊎◌, ℕ, true, false, IsTrue, IfSome};
ghost use Rattle.xmp_base.specs.Limits.{size_limit, node_limit};
ghost use Rattle.xmp_dist.specs.Count.{count_below};
ghost use Rattle.xmp_dist.specs.Owner.{owner_inside};
ghost use Rattle.xmp_dist.specs.Valid.{is_extent};
ghost use Rattle.xmp_map.specs.RowMajor.{product, unravel};
ghost use Rattle.xmp_map.specs.Align.{is_shadow, is_target, under};
ghost use Rattle.xmp_map.specs.Spread.{node_along};
ghost use Rattle.xmp_map.specs.Shadow.{has_shadow, holds_at};
ghost use Rattle.xmp_map.specs.Held.{holds_on, offset_of, owns_on};
ghost use Rattle.xmp_move.specs.Reaches.{IsReach, ReachFits, position_in, reaches};

use xmp_dist::{Dim, Dist};
use xmp_map::{AlignedDim, SpreadDim, Target, Template};

/// An interval from the first number to before the second, or what a cyclic form deals out to a node: subscript `x` stands at
/// position `x + offset`.
#[derive(Clone, Copy)]
pub enum Reach {
    Span {
        from: u32,
        to: u32,
    },
    Rounds {
        width: u32,
        nodes: u32,
        node: u32,
        offset: u32,
    },
}

/// How many positions below `g` a cyclic form of this width deals out to a node.
fn dealt(width: u32, nodes: u32, node: u32, g: u32) -> u32
    requires some { 1 ≤ width }
    requires width { width ≤ size_limit }
    requires node { node < nodes }
    requires nodes { nodes ≤ node_limit }
    requires small { g ≤ size_limit }
    ensures { result ≡ count_below (λ x. ((x / width) % nodes) == node) g }
{
    let round = nodes * width;
    g / round * width + width.min((g % round).saturating_sub(node * width))
}

/// How far the chunks of a node are from a position; 0 where it lies in one.
fn to_chunk(width: u32, nodes: u32, node: u32, g: u32) -> u32
    requires some { 1 ≤ width }
    requires width { width ≤ size_limit }
    requires node { node < nodes }
    requires nodes { nodes ≤ node_limit }
    ensures none { (d : ℕ) → d < result → ((((g + d) / width) % nodes) == node) ≡ false }
    ensures small { result ≤ 2 * (node_limit * size_limit) }
{
    let round = nodes * width;
    let chunk = node * width;
    let place = g % round;
    if place < chunk {
        chunk - place
    } else if place < chunk + width {
        0
    } else {
        round - place + chunk
    }
}

impl Reach {
    /// Whether it has a subscript.
    pub fn has(&self, extent: u32, x: u32) -> bool
        requires fits { ReachFits self.now extent }
        requires inside { x < extent }
        ensures { result ≡ reaches self.now x }
    {
        match *self {
            Reach::Span { from, to } => from <= x && x < to,
            Reach::Rounds {
                width,
                nodes,
                node,
                offset,
            } => (x + offset) / width % nodes == node,
        }
    }

    /// How many subscripts below one it has.
    pub fn position(&self, extent: u32, x: u32) -> u32
        requires fits { ReachFits self.now extent }
        requires inside { x ≤ extent }
        ensures { result ≡ position_in self.now x }
    {
        match *self {
            Reach::Span { from, to } => x.min(to) - x.min(from),
            Reach::Rounds {
                width,
                nodes,
                node,
                offset,
            } => dealt(width, nodes, node, x + offset) - dealt(width, nodes, node, offset),
        }
    }

    /// How many subscripts from one on it surely hasn't: of a cyclic form those before the node's next chunk.
    pub fn missing(&self, extent: u32, x: u32) -> u32
        requires fits { ReachFits self.now extent }
        requires inside { x < extent }
        ensures none { (d : ℕ) → d < result → reaches self.now (x + d) ≡ false }
        ensures small { result ≤ 2 * (node_limit * size_limit) }
    {
        match *self {
            Reach::Span { .. } => 0,
            Reach::Rounds {
                width,
                nodes,
                node,
                offset,
            } => to_chunk(width, nodes, node, x + offset),
        }
    }

    /// After how many subscripts a cyclic form deals to the same node again; 0 for an interval.
    pub fn round(&self, extent: u32) -> u32
        requires fits { ReachFits self.now extent }
        ensures { (result ≡ 0) ⊎ ((m x : ℕ) → reaches self.now (x + m * result) ≡ reaches self.now x) }
    {
        match *self {
            Reach::Span { .. } => 0,
            Reach::Rounds { width, nodes, .. } => nodes * width,
        }
    }
}

/// The subscripts that a node of a dimension owns.
fn owned(dim: &Dim, node: u32, offset: u32, extent: u32) -> Reach
    requires node { node < dim.now.nodes }
    requires inside { extent + offset ≤ dim.now.size }
    ensures { IsReach result extent (λ x. owner_inside dim.now (x + offset) == node) }
{
    match dim.dist() {
        Dist::Cyclic(width) => Reach::Rounds {
            width,
            nodes: dim.nodes(),
            node,
            offset,
        },
        _ => {
            let (start, end) = dim.interval(node);
            Reach::Span {
                from: start.saturating_sub(offset),
                to: end.saturating_sub(offset),
            }
        }
    }
}

/// The interval from `start` to before `end`, with a shadow of these widths where it isn't empty.
fn widened(start: u32, end: u32, low: u32, high: u32, offset: u32) -> (u32, u32)
    requires start { start ≤ size_limit }
    requires end { end ≤ size_limit }
    requires low { low ≤ size_limit }
    requires high { high ≤ size_limit }
    requires offset { offset ≤ size_limit }
    ensures full { start < end → (result.0 ≡ start - (low + offset)) × (result.1 ≡ end + high - offset) }
    ensures empty { end ≤ start → (result.0 ≡ 0) × (result.1 ≡ 0) }
{
    if start < end {
        (
            start.saturating_sub(low + offset),
            (end + high).saturating_sub(offset),
        )
    } else {
        (0, 0)
    }
}

/// The subscripts that it holds, with a shadow of these widths.
fn held(dim: &Dim, node: u32, low: u32, high: u32, offset: u32, extent: u32) -> Reach
    requires node { node < dim.now.nodes }
    requires inside { extent + offset ≤ dim.now.size }
    requires low_fits { low ≤ size_limit }
    requires high_fits { high ≤ size_limit }
    requires shadow { (has_shadow dim.now.dist ≡ true) ⊎ ((low ≡ 0) × (high ≡ 0)) }
    ensures { IsReach result extent (λ x. holds_at dim.now node low high (x + offset)) }
{
    match dim.dist() {
        Dist::Cyclic(width) => Reach::Rounds {
            width,
            nodes: dim.nodes(),
            node,
            offset,
        },
        _ => {
            let (start, end) = dim.interval(node);
            let (from, to) = widened(start, end, low, high, offset);
            Reach::Span { from, to }
        }
    }
}

/// The dimension of a template under a dimension of an array.
fn under(template: &Template, dim: &AlignedDim) -> Option<SpreadDim>
    ensures { result ≡ under template.now.spread dim.now.target.dim }
{
    let _three = template.spread[2];
    match dim.target.dim {
        Some(d) if d < 3 => Some(template.spread[d as usize]),
        _ => None,
    }
}

/// The offset of a target, which is never negative where it names a dimension.
fn offset(target: &Target) -> u32
    ensures { result ≡ offset_of target.now.offset }
{
    if target.offset < 0 {
        0
    } else {
        target.offset as u32
    }
}

/// A node's number along the dimension under one of an array.
fn along(template: &Template, dim: &AlignedDim, node: u32) -> u32
    requires target { IsTrue (is_target template.now.dims template.now.spread dim.now) }
    requires node { node < product template.now.grid.sizes }
    ensures { IfSome (under template.now.spread dim.now.target.dim)
        (λ s. result ≡ node_along (unravel template.now.grid.sizes node) s) }
{
    match dim.target.dim {
        Some(d) if d < template.dims => template.at(node, d),
        _ => 0,
    }
}

/// The subscripts of a dimension of an array that a node owns.
pub fn owned_on(template: &Template, dim: &AlignedDim, node: u32) -> Reach
    requires target { IsTrue (is_target template.now.dims template.now.spread dim.now) }
    requires extent { IsTrue (is_extent dim.now.extent) }
    requires node { node < product template.now.grid.sizes }
    ensures { IsReach result dim.now.extent (owns_on template.now.spread (unravel template.now.grid.sizes node) dim.now) }
{
    let _three = template.grid.sizes[2];
    match under(template, dim) {
        None => Reach::Span {
            from: 0,
            to: dim.extent,
        },
        Some(spread) => owned(
            &spread.dim,
            along(template, dim, node),
            offset(&dim.target),
            dim.extent,
        ),
    }
}

/// The subscripts that it holds.
pub fn held_on(template: &Template, dim: &AlignedDim, node: u32) -> Reach
    requires target { IsTrue (is_target template.now.dims template.now.spread dim.now) }
    requires shadow { IsTrue (is_shadow template.now.spread dim.now) }
    requires extent { IsTrue (is_extent dim.now.extent) }
    requires node { node < product template.now.grid.sizes }
    ensures { IsReach result dim.now.extent (holds_on template.now.spread (unravel template.now.grid.sizes node) dim.now) }
{
    let _three = template.grid.sizes[2];
    match under(template, dim) {
        None => Reach::Span {
            from: 0,
            to: dim.extent,
        },
        Some(spread) => held(
            &spread.dim,
            along(template, dim, node),
            dim.low,
            dim.high,
            offset(&dim.target),
            dim.extent,
        ),
    }
}
