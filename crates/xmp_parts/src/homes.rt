// Where the cells of the arrays of a program lie in which no rule breaks.
ghost use Rattle.std.specs.Prelude.{◌≡◌, ◌≤◌, [], IfOk, IsTrue, None, Some, length, map, option_copied, slice_get};
ghost use Rattle.std.specs.List.{list_all};
ghost use Rattle.xmp_map.specs.Align.{aligned_dims, map_fault};
ghost use Rattle.xmp_map.specs.RowMajor.{product};
ghost use Rattle.xmp_map.specs.Spread.{sizes_fit};
ghost use Rattle.xmp_names.specs.Sizes.{lower_at, natural};
ghost use Rattle.xmp_mapping_rules.specs.MappingRules.{align_of, mapping_rules, shadow_of, template_lowers};
ghost use Rattle.xmp_parts.specs.Narrow.{are_narrow, is_narrow_pair};
ghost use Rattle.xmp_parts.specs.Parts.{EachMade, IsArray, IsHome, IsOver, IsSpread, IsTemplate, held_point, held_points, offset_for, target_from, targets, widths_in};

use crate::grids::narrowed;
use sqlite_items::Items;
use std::alloc::{AllocError, Global};
use xmp_map::{ArrayMap, Grid, Target, Template};
use xmp_mapping_rules::Lines;
use xmp_names::{held, lower_at};
use xmp_prog as prog;
use xmp_prog::Home;
use xmp_walk::{Align, AlignPoint, Array, Shadow};

// ---- what the dimensions of an array are aligned with

// The held constant of a point, where it is that of dimension `d` of the array.
fn offset_for(point: AlignPoint, lower: i64, d: usize) -> Option<i32>
    ensures { result ≡ offset_for d (held_point lower point) }
{
    match point {
        AlignPoint::Star => None,
        AlignPoint::Dummy { dimension, offset } => {
            if dimension == d {
                Some(held(lower, offset))
            } else {
                None
            }
        }
    }
}

// What dimension `d` of the array is aligned with.
fn target_of(d: usize, lowers: &[i64], points: &[AlignPoint]) -> Target
    requires { length points.now ≤ 3 }
    ensures { result ≡ target_from d 0 (held_points lowers.now 0 points.now) }
{
    'points: for (k, point) in points.iter().enumerate() {
        if let Some(offset) = offset_for(*point, lower_at(lowers, k), d) {
            return Target {
                dim: Some(k as u32),
                offset,
            };
        }
    }
    Target {
        dim: None,
        offset: 0,
    }
}

fn made_targets(
    alloc: Global,
    extents: &[u32],
    lowers: &[i64],
    points: &[AlignPoint],
) -> Result<Items<Target>, AllocError>
    requires { length points.now ≤ 3 }
    ensures { IfOk result (λ ts. ts ≡ targets extents.now (held_points lowers.now 0 points.now)) }
{
    let mut made = Items::new(alloc);
    'extents: for (d, _extent) in extents.iter().enumerate() {
        made.push(target_of(d, lowers, points))?;
    }
    Ok(made)
}

// ---- shadows

fn no_widths(alloc: Global, extents: &[u32]) -> Result<Items<(u32, u32)>, AllocError>
    ensures { IfOk result (λ ws. ws ≡ widths_in extents.now None) }
{
    let mut made = Items::new(alloc);
    'extents: for _extent in extents {
        made.push((0, 0))?;
    }
    Ok(made)
}

fn narrowed_pairs(alloc: Global, widths: &[(i64, i64)]) -> Result<Items<(u32, u32)>, AllocError>
    requires { IsTrue (list_all is_narrow_pair widths.now) }
    ensures { IfOk result (λ ws. ws ≡ map (λ x. (natural x.0, natural x.1)) widths.now) }
{
    let mut made = Items::new(alloc);
    'widths: for (low, high) in widths {
        made.push((narrowed(*low), narrowed(*high)))?;
    }
    Ok(made)
}

// The widths of each dimension of an array, 0 where it has no shadow.
fn made_widths(
    alloc: Global,
    extents: &[u32],
    shadow: Option<&Shadow>,
) -> Result<Items<(u32, u32)>, AllocError>
    requires { IsTrue (are_narrow (option_copied shadow)) }
    ensures { IfOk result (λ ws. ws ≡ widths_in extents.now (option_copied shadow.entry)) }
{
    match shadow {
        Some(shadow) => narrowed_pairs(alloc, shadow.widths.as_slice()),
        None => no_widths(alloc, extents),
    }
}

// ---- maps

fn map_of(
    template: &Template,
    extents: &[u32],
    targets: &[Target],
    widths: &[(u32, u32)],
) -> ArrayMap
    requires targets { length targets.now ≡ length extents.now }
    requires widths { length widths.now ≡ length extents.now }
    requires sizes { IsTrue (sizes_fit extents.now) }
    requires cells { product extents.now ≤ 4194304 }
    requires right { map_fault template.now.dims template.now.spread (aligned_dims extents.now targets.now widths.now) ≡ None }
    ensures template { result.template ≡ template.now }
    ensures dims { result.dims ≡ length extents.now }
    ensures aligned { result.aligned ≡ aligned_dims extents.now targets.now widths.now }
{
    match ArrayMap::new(template, extents, targets, widths) {
        Ok(map) => map,
        Err(_) => unreachable!(),
    }
}

fn made_map(
    alloc: Global,
    template: &Template,
    extents: &[u32],
    lowers: &[i64],
    points: &[AlignPoint],
    shadow: Option<&Shadow>,
) -> Result<ArrayMap, AllocError>
    requires few { length points.now ≤ 3 }
    requires shadow { IsTrue (are_narrow (option_copied shadow)) }
    requires widths { length (widths_in extents.now (option_copied shadow)) ≡ length extents.now }
    requires sizes { IsTrue (sizes_fit extents.now) }
    requires cells { product extents.now ≤ 4194304 }
    requires right { map_fault template.now.dims template.now.spread
        (aligned_dims extents.now (targets extents.now (held_points lowers.now 0 points.now)) (widths_in extents.now (option_copied shadow))) ≡ None }
    ensures { IfOk result (λ m. IsOver template.now extents.now (held_points lowers.now 0 points.now) (widths_in extents.now (option_copied shadow.entry)) m) }
{
    let targets = made_targets(alloc, extents, lowers, points)?;
    let widths = made_widths(alloc, extents, shadow)?;
    Ok(map_of(template, extents, targets.as_slice(), widths.as_slice()))
}

// ---- the arrays of a program

// A template by its number.
fn template_with(templates: &[Template], number: u32) -> Option<&Template>
    ensures { option_copied result ≡ slice_get templates.now number }
{
    templates.get(number as usize)
}

// The home of an array that is aligned.
fn spread_home(
    alloc: Global,
    lines: &Lines,
    grid: &Grid,
    templates: &[Template],
    k: usize,
    array: &Array,
    align: &Align,
) -> Result<Home, AllocError>
    requires unbroken { mapping_rules lines.now ≡ [] }
    requires templates { EachMade (λ k line t. IsTemplate lines.now grid.now k t) 0 lines.now.mappings.templates templates.now }
    requires array { slice_get lines.now.names.arrays k ≡ Some array.now }
    requires align { align_of lines.now k ≡ Some align.now }
    ensures { IfOk result (λ h. IsSpread lines.now templates.now k array.now.extents align.now h) }
{
    match template_with(templates, align.template) {
        Some(template) => {
            let shadow = lines.shadow_of(k);
            let extents = array.extents.as_slice();
            let lowers = lines.template_lowers(align.template);
            let points = align.points.as_slice();
            let map = made_map(alloc, template, extents, lowers, points, shadow)?;
            Ok(Home::Spread(align.template, map))
        }
        None => unreachable!(),
    }
}

fn home_of(
    alloc: Global,
    lines: &Lines,
    grid: &Grid,
    templates: &[Template],
    k: usize,
    array: &Array,
) -> Result<Home, AllocError>
    requires unbroken { mapping_rules lines.now ≡ [] }
    requires templates { EachMade (λ k line t. IsTemplate lines.now grid.now k t) 0 lines.now.mappings.templates templates.now }
    requires array { slice_get lines.now.names.arrays k ≡ Some array.now }
    ensures { IfOk result (λ h. IsHome array.now.coarray lines.now templates.now k array.now.extents h) }
{
    if array.coarray {
        return Ok(Home::Image);
    }
    match lines.align_of(k) {
        Some(align) => spread_home(alloc, lines, grid, templates, k, array, align),
        None => Ok(Home::Copy),
    }
}

fn array_at(
    alloc: Global,
    lines: &Lines,
    grid: &Grid,
    templates: &[Template],
    k: usize,
    array: &Array,
) -> Result<prog::Array, AllocError>
    requires unbroken { mapping_rules lines.now ≡ [] }
    requires templates { EachMade (λ k line t. IsTemplate lines.now grid.now k t) 0 lines.now.mappings.templates templates.now }
    requires array { slice_get lines.now.names.arrays k ≡ Some array.now }
    ensures { IfOk result (λ made. IsArray lines.now templates.now k array.now made) }
{
    let home = home_of(alloc, lines, grid, templates, k, array)?;
    let extents = Items::from_slice(alloc, array.extents.as_slice())?;
    Ok(prog::Array {
        ty: array.ty,
        extents,
        home,
    })
}

/// The arrays of a program in which no rule of mappings breaks, in the order of their declarations.
pub(crate) fn made_arrays(
    alloc: Global,
    lines: &Lines,
    grid: &Grid,
    templates: &[Template],
) -> Result<Items<prog::Array>, AllocError>
    requires unbroken { mapping_rules lines.now ≡ [] }
    requires templates { EachMade (λ k line t. IsTemplate lines.now grid.now k t) 0 lines.now.mappings.templates templates.now }
    ensures { IfOk result (λ made. EachMade (IsArray lines.now templates.now) 0 lines.now.names.arrays made) }
{
    let arrays = lines.world().names.arrays.as_slice();
    let mut made = Items::new(alloc);
    'arrays: for (k, array) in arrays.iter().enumerate() {
        made.push(array_at(alloc, lines, grid, templates, k, array)?)?;
    }
    Ok(made)
}
