// The rules of aligns.
ghost use Rattle.std.specs.Prelude.{◌≡◌, ◌++◌, ◌&&◌, ◌-ℤ◌, IfOk, OnOk, option_copied, slice_get};
ghost use Rattle.xmp_names.specs.Sizes.{extents_in, is_small, lower_at};
ghost use Rattle.xmp_mapping_rules.specs.MappingRules.{align_of, align_right, align_rule, align_rules, aligned, all_different, dimension_in, dimensions_in, distributed, distributes, dummies_right, point_fits, point_right, points_right, reaches};

use crate::lines::Lines;
use crate::nodes_rules::{judge, one_to_three};
use crate::numbers::{Numbers, is_at};
use crate::template_rules::distributes;
use sqlite_items::Items;
use std::alloc::{AllocError, Global};
use xmp_names::{Align, AlignPoint, Broken, Form, Rule, extents_in, is_small, lower_at};

/// Adds the dimension of an array that stands in a point.
pub(crate) fn add_dimension(dimensions: &mut Numbers, point: AlignPoint) -> Result<(), AllocError>
    ensures { OnOk result (dimensions.new ≡ dimensions.old ++ dimension_in point) }
{
    match point {
        AlignPoint::Star => Ok(()),
        AlignPoint::Dummy { dimension, .. } => dimensions.push(dimension),
    }
}

fn dimensions_in(alloc: Global, points: &[AlignPoint]) -> Result<Numbers, AllocError>
    ensures { IfOk result (λ ns. ns ≡ dimensions_in points.now) }
{
    let mut dimensions = Numbers::new(alloc);
    'points: for point in points {
        add_dimension(&mut dimensions, *point)?;
    }
    Ok(dimensions)
}

fn all_different(dimensions: &Numbers) -> bool
    ensures { result ≡ all_different dimensions.now }
{
    let list = dimensions.as_slice();
    'list: for (i, dimension) in list.iter().enumerate() {
        if !is_at(i, dimensions.first_place(*dimension)) {
            return false;
        }
    }
    true
}

fn dummies_right(dummies: &[bool], dimensions: &Numbers) -> bool
    ensures { result ≡ dummies_right dummies.now dimensions.now }
{
    'dummies: for (i, dummy) in dummies.iter().enumerate() {
        if *dummy && dimensions.first_place(i).is_none() {
            return false;
        }
    }
    true
}

fn reaches(size: i64, position: i128, extent: Option<u32>) -> bool
    ensures { result ≡ reaches size position extent }
{
    match extent {
        Some(extent) => { 0 <= position && position <= i128::from(size) - i128::from(extent) }
        None => false,
    }
}

// Where a constant puts subscript 0 of an array: at the coordinate less the lower bound.
fn position_of(lower: i64, c: i64) -> i128
    ensures { result ≡ c -ℤ lower }
{
    i128::from(c) - i128::from(lower)
}

fn extent_at(extents: &[u32], dimension: usize) -> Option<u32>
    ensures { result ≡ slice_get extents.now dimension }
{
    extents.get(dimension).copied()
}

fn size_at(sizes: &[i64], dimension: usize) -> Option<i64>
    ensures { result ≡ slice_get sizes.now dimension }
{
    sizes.get(dimension).copied()
}

fn point_right(extents: &[u32], spread: bool, lower: i64, size: i64, point: AlignPoint) -> bool
    ensures { result ≡ point_right extents.now spread lower size point }
{
    match point {
        AlignPoint::Star => !spread,
        AlignPoint::Dummy { dimension, offset } => {
            let extent = extent_at(extents, dimension);
            is_small(offset) && reaches(size, position_of(lower, offset), extent)
        }
    }
}

fn point_fits(
    extents: &[u32],
    spread: bool,
    lower: i64,
    size: Option<i64>,
    point: AlignPoint,
) -> bool
    ensures { result ≡ point_fits extents.now spread lower size point }
{
    match size {
        Some(size) => point_right(extents, spread, lower, size, point),
        None => false,
    }
}

// The point of the i-th dimension of the template.
fn point_at(
    extents: &[u32],
    forms: &[Form],
    lowers: &[i64],
    sizes: &[i64],
    i: usize,
    point: AlignPoint,
) -> bool
    ensures { result ≡ point_fits extents.now (distributes (slice_get forms.now i)) (lower_at lowers.now i) (slice_get sizes.now i) point }
{
    let spread = distributes(forms, i);
    let lower = lower_at(lowers, i);
    let size = size_at(sizes, i);
    point_fits(extents, spread, lower, size, point)
}

fn points_right(
    extents: &[u32],
    forms: &[Form],
    lowers: &[i64],
    sizes: &[i64],
    points: &[AlignPoint],
) -> bool
    ensures { result ≡ points_right extents.now forms.now lowers.now sizes.now points.now }
{
    'points: for (i, point) in points.iter().enumerate() {
        if !point_at(extents, forms, lowers, sizes, i, *point) {
            return false;
        }
    }
    true
}

// Whether the points name no dimension twice, and each one with a dummy.
fn names_right(alloc: Global, line: &Align) -> Result<bool, AllocError>
    ensures { IfOk result (λ r. r ≡ (all_different (dimensions_in line.now.points) && dummies_right line.now.dummies (dimensions_in line.now.points))) }
{
    let dimensions = dimensions_in(alloc, line.points.as_slice())?;
    Ok(all_different(&dimensions) && dummies_right(line.dummies.as_slice(), &dimensions))
}

fn align_right(alloc: Global, lines: &Lines, line: &Align) -> Result<bool, AllocError>
    ensures { IfOk result (λ r. r ≡ align_right lines.now line.now) }
{
    let points = line.points.as_slice();
    let extents = extents_in(lines.world(), line.array);
    let forms = lines.forms_of(line.template as usize);
    let lowers = lines.template_lowers(line.template);
    let sizes = lines.template_sizes(line.template);
    let numbers = line.dummies.len() == extents.len()
        && (one_to_three(points.len()) && points.len() == sizes.len());
    let names = names_right(alloc, line)?;
    Ok(numbers && (names && points_right(extents, forms, lowers, sizes, points)))
}

fn align_rule(
    alloc: Global,
    lines: &Lines,
    broken: &mut Items<Broken>,
    i: usize,
    line: &Align,
) -> Result<(), AllocError>
    ensures { OnOk result (broken.new ≡ broken.old ++ align_rule lines.now (i, line.now)) }
{
    let first = lines.is_first_align(i, line.array);
    let right = align_right(alloc, lines, line)?;
    judge(
        broken,
        first && (!lines.world().names.coarray && right),
        Rule::M5,
        line.at,
    )
}

/// The rules that aligns break.
pub(crate) fn align_rules(
    alloc: Global,
    lines: &Lines,
    broken: &mut Items<Broken>,
) -> Result<(), AllocError>
    ensures { OnOk result (broken.new ≡ broken.old ++ align_rules lines.now) }
{
    let list = lines.world().mappings.aligns.as_slice();
    'list: for (i, line) in list.iter().enumerate() {
        align_rule(alloc, lines, broken, i, line)?;
    }
    Ok(())
}
