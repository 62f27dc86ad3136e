// Layouts of the cells that a node holds.
ghost use Rattle.std.specs.Prelude.{◌≡◌, ◌<◌, ◌++◌, ◌∷◌, [], Some, IfOk, IfSome, OnOk, drop, length, slice_index};
ghost use Rattle.xmp_dist.specs.Count.{count_below};
ghost use Rattle.xmp_map.specs.Held.{extents, holds_in, tests};
ghost use Rattle.xmp_meaning.specs.Layouts.{Packed, axes_of, packed_axis};
ghost use Rattle.xmp_serial.specs.Lines.{AddsAxes, AreLines, IsAxis, IsLine, IsSpreadLine, Places};

use crate::declared::cell_count;
use crate::laying::{push_line, whole_line, whole_lines};
use crate::layout::Layout;
use crate::lines::{Axis, Line, Reach};
use crate::lists::split;
use crate::located::Located;
use sqlite_items::Items;
use std::alloc::Global;
use xmp_base::NoMemory;
use xmp_map::ArrayMap;
use xmp_prog::{Array, Home, ProgParts};

/// Where the subscripts that a node holds would begin, were they an interval: at the first position that it owns, less the shadow and
/// the offset.
fn first_held(at: &Located) -> u32 {
    let target = at.map.target(at.dimension);
    let template = at.map.template();
    let Some(k) = target.dim else {
        return 0;
    };
    if k >= template.dims() {
        return 0;
    }
    let dim = template.dim(k);
    let along = template.at(at.node, k);
    if along >= dim.nodes() || dim.count(along) == 0 {
        return 0;
    }
    let (low, _) = at.map.shadow(at.dimension);
    let offset = u32::try_from(target.offset).unwrap_or(0);
    dim.global(along, 0)
        .saturating_sub(low)
        .saturating_sub(offset)
}

/// The interval of the subscripts that a node holds, so many of them, where they are one: the first has position 0, and the last that of the last.
fn interval(at: &Located, held: u32) -> Option<Reach>
    requires { held ≡ count_below (holds_in at.now.map at.now.node at.now.dimension) (slice_index (extents at.now.map) at.now.dimension) }
    ensures { IfSome result (λ reach. Places reach (holds_in at.now.map at.now.node at.now.dimension) (slice_index (extents at.now.map) at.now.dimension)) }
{
    let Some(more) = held.checked_sub(1) else {
        return Some(Reach::Chunk(0, 0));
    };
    let first = first_held(at);
    let last = first.checked_add(more)?;
    if last >= at.map.extent(at.dimension) {
        return None;
    }
    let low = at.map.local(at.node, at.dimension, first)?;
    let high = at.map.local(at.node, at.dimension, last)?;
    if low == 0 && high == more {
        Some(Reach::Chunk(first, last + 1))
    } else {
        None
    }
}

/// How a dimension's subscripts become positions at a node.
fn reach_of(at: &Located, held: u32) -> Reach
    requires { held ≡ count_below (holds_in at.now.map at.now.node at.now.dimension) (slice_index (extents at.now.map) at.now.dimension) }
    ensures { Places result (holds_in at.now.map at.now.node at.now.dimension) (slice_index (extents at.now.map) at.now.dimension) }
{
    if held == at.map.extent(at.dimension) {
        return Reach::All;
    }
    match interval(at, held) {
        Some(reach) => reach,
        None => Reach::Asked(*at),
    }
}

/// The axis of a dimension at a node. Want of memory is answered also where the array's map has another extent, no such dimension or no such
/// node, which no program has that fits.
fn packed_axis(m: &ArrayMap, node: u32, d: u32, extent: u32) -> Result<Axis, NoMemory>
    ensures axis { IfOk result (λ axis. IsAxis axis extent (packed_axis (holds_in m.now node d) extent)) }
    ensures there { IfOk result (λ axis. d < length (extents m.now)) }
    ensures few { IfOk result (λ axis. d < 3) }
{
    if extent == 0 || node >= m.template().grid.count() || d >= m.dims() {
        return Err(NoMemory);
    }
    if m.extent(d) != extent {
        return Err(NoMemory);
    }
    let held = m.held(node, d);
    let at = Located {
        map: *m,
        node,
        dimension: d,
    };
    Ok(Axis {
        extent,
        held,
        reach: reach_of(&at, held),
    })
}

fn push_axis(axes: &mut Items<Axis>, axis: Axis) -> Result<(), NoMemory>
    ensures { OnOk result (axes.new ≡ axes.old ++ axis ∷ []) }
{
    axes.push(axis).map_err(|_| NoMemory)
}

/// The axes of the dimensions from `d` on.
fn push_axes(
    m: &ArrayMap,
    node: u32,
    d: u32,
    extents: &[u32],
    axes: &mut Items<Axis>,
) -> Result<(), NoMemory>
    ensures { OnOk result (AddsAxes axes.old axes.new extents.now (axes_of (drop d (tests m.now node)) extents.now)) }
{
    match split(extents) {
        None => Ok(()),
        Some((extent, rest)) => {
            let axis = packed_axis(m, node, d, *extent)?;
            push_axis(axes, axis)?;
            push_axes(m, node, d + 1, rest, axes)
        }
    }
}

/// A row of the cells of a distributed array that a node holds.
fn spread_line(alloc: Global, m: &ArrayMap, node: u32, extents: &[u32]) -> Result<Line, NoMemory>
    ensures { IfOk result (λ line. IsSpreadLine m.now node line extents.now) }
{
    if node >= m.template().grid.count() {
        return Err(NoMemory);
    }
    let Some(cells) = cell_count(extents) else {
        return Err(NoMemory);
    };
    let mut axes = Items::new(alloc);
    push_axes(m, node, 0, extents, &mut axes)?;
    Ok(Line {
        axes,
        length: m.words(node) as usize,
        of_images: false,
        cells,
    })
}

/// A row of an array: of a distributed one the cells that a node holds, of any other all.
fn packed_line(alloc: Global, p: &ProgParts, node: u32, a: &Array) -> Result<Line, NoMemory>
    ensures { IfOk result (λ line. IsLine (Packed node) p.now line a.now) }
{
    match &a.home {
        Home::Spread(_, m) => spread_line(alloc, m, node, a.extents.as_slice()),
        Home::Copy => whole_line(alloc, p, a),
        Home::Image => whole_line(alloc, p, a),
    }
}

/// The rows of all arrays.
fn packed_lines(alloc: Global, p: &ProgParts, node: u32) -> Result<Vec<Line>, NoMemory>
    ensures { IfOk result (λ lines. AreLines (Packed node) p.now lines.items p.now.arrays) }
{
    let mut lines = Vec::new(alloc);
    let arrays = p.arrays.as_slice();
    'arrays: for (_k, a) in arrays.iter().enumerate() {
        let line = packed_line(alloc, p, node, a)?;
        push_line(&mut lines, line)?;
    }
    Ok(lines)
}

impl<'a> Layout<'a> {
    /// Of distributed arrays the cells that a node holds, in the order of their row-major numbers, and whole rows of the others. Want of memory
    /// is answered also where 64 bits don't hold a number of cells, or a map doesn't fit its array or has no such node.
    pub fn packed(alloc: Global, program: &'a ProgParts, node: u32) -> Result<Layout<'a>, NoMemory>
        ensures program { IfOk result (λ layout. layout.program.now ≡ program.now) }
        ensures packed { IfOk result (λ layout. layout.packed ≡ Some node) }
    {
        let lines = packed_lines(alloc, program, node)?;
        let whole = whole_lines(alloc, program)?;
        Ok(Layout {
            program,
            packed: Some(node),
            lines,
            whole,
        })
    }
}
