// The rules of shadows and of the points of loop directives.
ghost use Rattle.std.specs.Prelude.{◌≡◌, ◌++◌, ◌||◌, IfOk, OnOk, not, slice_get};
ghost use Rattle.xmp_mapping_rules.specs.MappingRules.{align_of, aligned, distributed, distributes, indexed_right, interval_dimension, interval_dimensions, is_width, loop_rule, loop_rules, shadow_right, shadow_rule, shadow_rules, shadowed, spans_intervals, width_right, widths_right};

use crate::align_rules::add_dimension;
use crate::lines::Lines;
use crate::nodes_rules::judge;
use crate::numbers::Numbers;
use crate::template_rules::{distributes, has_intervals};
use sqlite_items::Items;
use std::alloc::{AllocError, Global};
use xmp_base::SIZE_LIMIT;
use xmp_names::{AlignPoint, Broken, Form, LoopUse, Rule, Shadow, extents_in};

// Whether the form of a dimension, which may have none, gives each node one interval.
fn spans_intervals(forms: &[Form], i: usize) -> bool
    ensures { result ≡ spans_intervals (slice_get forms.now i) }
{
    match forms.get(i) {
        Some(form) => has_intervals(form),
        None => false,
    }
}

fn add_interval_dimension(
    dimensions: &mut Numbers,
    forms: &[Form],
    i: usize,
    point: AlignPoint,
) -> Result<(), AllocError>
    ensures { OnOk result (dimensions.new ≡ dimensions.old ++ interval_dimension forms.now (i, point)) }
{
    if spans_intervals(forms, i) {
        add_dimension(dimensions, point)
    } else {
        Ok(())
    }
}

// The dimensions of the array that are aligned with one that has intervals.
fn interval_dimensions(
    alloc: Global,
    forms: &[Form],
    points: &[AlignPoint],
) -> Result<Numbers, AllocError>
    ensures { IfOk result (λ ns. ns ≡ interval_dimensions forms.now points.now) }
{
    let mut dimensions = Numbers::new(alloc);
    'points: for (i, point) in points.iter().enumerate() {
        add_interval_dimension(&mut dimensions, forms, i, *point)?;
    }
    Ok(dimensions)
}

fn is_width(n: i64) -> bool
    ensures { result ≡ is_width n }
{
    0 <= n && n <= i64::from(SIZE_LIMIT)
}

fn width_right(dimensions: &Numbers, i: usize, widths: (i64, i64)) -> bool
    ensures { result ≡ width_right dimensions.now (i, widths) }
{
    let (low, high) = widths;
    (is_width(low) && is_width(high))
        && ((low == 0 && high == 0) || dimensions.first_place(i).is_some())
}

fn widths_right(dimensions: &Numbers, widths: &[(i64, i64)]) -> bool
    ensures { result ≡ widths_right dimensions.now widths.now }
{
    'widths: for (i, both) in widths.iter().enumerate() {
        if !width_right(dimensions, i, *both) {
            return false;
        }
    }
    true
}

fn shadow_right(alloc: Global, lines: &Lines, line: &Shadow) -> Result<bool, AllocError>
    ensures { IfOk result (λ r. r ≡ shadow_right lines.now (align_of lines.now line.now.array) line.now) }
{
    match lines.align_of(line.array as usize) {
        Some(align) => {
            let forms = lines.forms_of(align.template as usize);
            let dimensions = interval_dimensions(alloc, forms, align.points.as_slice())?;
            let widths = line.widths.as_slice();
            let extents = extents_in(lines.world(), line.array);
            Ok(widths.len() == extents.len() && widths_right(&dimensions, widths))
        }
        None => Ok(false),
    }
}

fn shadow_rule(
    alloc: Global,
    lines: &Lines,
    broken: &mut Items<Broken>,
    i: usize,
    line: &Shadow,
) -> Result<(), AllocError>
    ensures { OnOk result (broken.new ≡ broken.old ++ shadow_rule lines.now (i, line.now)) }
{
    let first = lines.is_first_shadow(i, line.array);
    let right = shadow_right(alloc, lines, line)?;
    judge(broken, first && right, Rule::M6, line.at)
}

/// The rules that shadows break.
pub(crate) fn shadow_rules(
    alloc: Global,
    lines: &Lines,
    broken: &mut Items<Broken>,
) -> Result<(), AllocError>
    ensures { OnOk result (broken.new ≡ broken.old ++ shadow_rules lines.now) }
{
    let list = lines.world().mappings.shadows.as_slice();
    'list: for (i, line) in list.iter().enumerate() {
        shadow_rule(alloc, lines, broken, i, line)?;
    }
    Ok(())
}

fn has_index(forms: &[Form], i: usize, index: bool) -> bool
    ensures { result ≡ (index || not (distributes (slice_get forms.now i))) }
{
    index || !distributes(forms, i)
}

fn indexed_right(forms: &[Form], indexed: &[bool]) -> bool
    ensures { result ≡ indexed_right forms.now indexed.now }
{
    'points: for (i, index) in indexed.iter().enumerate() {
        if !has_index(forms, i, *index) {
            return false;
        }
    }
    true
}

fn loop_rule(
    lines: &Lines,
    broken: &mut Items<Broken>,
    i: usize,
    line: &LoopUse,
) -> Result<(), AllocError>
    ensures { OnOk result (broken.new ≡ broken.old ++ loop_rule lines.now (i, line.now)) }
{
    let forms = lines.forms_of(line.template as usize);
    judge(
        broken,
        indexed_right(forms, line.indexed.as_slice()),
        Rule::M7,
        line.at,
    )
}

/// The rules that the points of loop directives break.
pub(crate) fn loop_rules(lines: &Lines, broken: &mut Items<Broken>) -> Result<(), AllocError>
    ensures { OnOk result (broken.new ≡ broken.old ++ loop_rules lines.now) }
{
    let list = lines.world().mappings.loops.as_slice();
    'list: for (i, line) in list.iter().enumerate() {
        loop_rule(lines, broken, i, line)?;
    }
    Ok(())
}
