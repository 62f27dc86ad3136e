// Layouts from programs.
ghost use Rattle.std.specs.Prelude.{◌≡◌, [], ◌∷◌, ◌++◌, None, IfOk, IfSome, OnOk, if◌then◌else◌};
ghost use Rattle.xmp_prog.specs.Fits.{node_count};
ghost use Rattle.xmp_prog.specs.Tests.{is_image};
ghost use Rattle.xmp_meaning.specs.Layouts.{Whole, axes_of, cell_count};
ghost use Rattle.xmp_serial.specs.Lines.{AreAxes, AreLines, IsLine};

use crate::declared::{cell_count, is_image, node_count};
use crate::layout::Layout;
use crate::lines::{Axis, Line, Reach};
use sqlite_items::Items;
use std::alloc::Global;
use xmp_base::NoMemory;
use xmp_prog::{Array, ProgParts};

/// How many cells an array has, those of all images together, where 64 bits hold the number.
fn cells_of(p: &ProgParts, a: &Array) -> Option<usize>
    ensures { IfSome result (λ n. n ≡ cell_count p.now a.now) }
{
    let images = images_of(p, a);
    let cells = cell_count(a.extents.as_slice())?;
    images.checked_mul(cells)
}

fn images_of(p: &ProgParts, a: &Array) -> usize
    ensures { result ≡ (if is_image a.now.home then node_count p.now else 1) }
{
    if is_image(&a.home) {
        node_count(p) as usize
    } else {
        1
    }
}

/// Axes that keep every subscript.
fn whole_axes(alloc: Global, extents: &[u32]) -> Result<Items<Axis>, NoMemory>
    ensures { IfOk result (λ axes. AreAxes axes extents.now (axes_of [] extents.now)) }
{
    let mut axes = Items::new(alloc);
    'extents: for extent in extents {
        let axis = Axis {
            extent: *extent,
            held: *extent,
            reach: Reach::All,
        };
        if axes.push(axis).is_err() {
            return Err(NoMemory);
        }
    }
    Ok(axes)
}

/// A row of all cells.
pub fn whole_line(alloc: Global, p: &ProgParts, a: &Array) -> Result<Line, NoMemory>
    ensures { IfOk result (λ line. IsLine Whole p.now line a.now) }
{
    let Some(length) = cells_of(p, a) else {
        return Err(NoMemory);
    };
    let Some(cells) = cell_count(a.extents.as_slice()) else {
        return Err(NoMemory);
    };
    let axes = whole_axes(alloc, a.extents.as_slice())?;
    Ok(Line {
        axes,
        length,
        of_images: is_image(&a.home),
        cells,
    })
}

/// The rows of all arrays, each with all cells.
pub fn whole_lines(alloc: Global, p: &ProgParts) -> Result<Vec<Line>, NoMemory>
    ensures { IfOk result (λ lines. AreLines Whole p.now lines.items p.now.arrays) }
{
    let mut lines = Vec::new(alloc);
    let arrays = p.arrays.as_slice();
    'arrays: for (_k, a) in arrays.iter().enumerate() {
        let line = whole_line(alloc, p, a)?;
        push_line(&mut lines, line)?;
    }
    Ok(lines)
}

pub fn push_line(lines: &mut Vec<Line>, line: Line) -> Result<(), NoMemory>
    ensures { OnOk result (lines.new.items ≡ lines.old.items ++ line ∷ []) }
{
    lines.push(line).map_err(|_| NoMemory)
}

impl<'a> Layout<'a> {
    /// Whole rows.
    pub fn whole(alloc: Global, program: &'a ProgParts) -> Result<Layout<'a>, NoMemory>
        ensures program { IfOk result (λ layout. layout.program.now ≡ program.now) }
        ensures whole { IfOk result (λ layout. layout.packed ≡ None) }
    {
        let lines = whole_lines(alloc, program)?;
        let whole = whole_lines(alloc, program)?;
        Ok(Layout {
            program,
            packed: None,
            lines,
            whole,
        })
    }
}
