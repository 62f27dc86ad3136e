// Align and shadow directives where they stand.
ghost use Rattle.std.specs.Prelude.{◌≡◌, ⊤, [], IfOk, MatchResult, length, map, slice_get};
ghost use Rattle.xmp_names.specs.Walk.{Does, Gave, each};
ghost use Rattle.xmp_names.specs.Sizes.{extents_in};
ghost use Rattle.xmp_names.specs.Lists.{inner, parts};
ghost use Rattle.xmp_directives.specs.MappingLines.{align_line, align_point, aligned_points, dummies_from, dummy_in_point, dummy_of, has_dummy, keep_align, keep_shadow, match_array, no_dummy, second_width, shadow_line, widths_of};

use crate::points::{match_template, offset_of};
use sqlite_items::Items;
use std::alloc::{AllocError, Global};
use xmp_base::Place;
use xmp_names::{Align, AlignPoint, Meaning, Rule, Shadow, World, extents_in, notation, part_at};
use xmp_scopes::Scopes;
use xmp_syntax::{AlignDimension, Expr, Inside, Name, Point, Several};

fn has_dummy(dimension: &AlignDimension) -> bool
    ensures { result ≡ has_dummy dimension.now }
{
    match dimension {
        AlignDimension::Star(_) => false,
        AlignDimension::Dummy(_) => true,
    }
}

// Whether each dimension of the array has a dummy.
fn have_dummies(alloc: Global, list: &[Inside<AlignDimension>]) -> Result<Items<bool>, AllocError>
    ensures { IfOk result (λ bs. bs ≡ map has_dummy (inner list.now)) }
{
    let mut have = Items::new(alloc);
    'list: for x in list {
        have.push(has_dummy(&x.item))?;
    }
    Ok(have)
}

// A dummy, which is known from here on.
fn dummy_of(
    world: &mut World,
    alloc: Global,
    dimension: usize,
    known: &mut Scopes<usize>,
    x: &AlignDimension,
) -> Result<(), AllocError>
    ensures { MatchResult result (λ _. dummy_of dimension known.old x.now world.old ≡ Gave known.new world.new) (λ _. ⊤) }
{
    match x {
        AlignDimension::Star(_) => Ok(()),
        AlignDimension::Dummy(name) => {
            let text = name.text.as_slice();
            world.judge(!known.is_declared_here(text), Rule::N2, name.at)?;
            match known.declare(alloc, text, dimension) {
                Ok(_) => Ok(()),
                Err(_) => Err(AllocError),
            }
        }
    }
}

fn dummies_of(
    world: &mut World,
    alloc: Global,
    list: &[Inside<AlignDimension>],
) -> Result<Scopes<usize>, AllocError>
    ensures { Does (dummies_from 0 [] (inner list.now) world.old) result world.new }
{
    let mut known = Scopes::new(alloc);
    'list: for (i, x) in list.iter().enumerate() {
        dummy_of(world, alloc, i, &mut known, &x.item)?;
    }
    Ok(known)
}

// A name in a point that is no dummy.
fn no_dummy(world: &mut World, name: &Name, meaning: Option<Meaning>) -> Result<(), AllocError>
    ensures { Does (no_dummy name.now meaning world.old) result world.new }
{
    match meaning {
        Some(_) => world.judge(false, Rule::N3, name.at),
        None => world.judge(false, Rule::N1, name.at),
    }
}

fn dummy_in_point(
    world: &mut World,
    name: &Name,
    dimension: Option<usize>,
) -> Result<usize, AllocError>
    ensures { Does (dummy_in_point name.now dimension world.old) result world.new }
{
    match dimension {
        Some(dimension) => Ok(dimension),
        None => {
            let meaning = world.meaning_of(name)?;
            no_dummy(world, name, meaning)?;
            Ok(0)
        }
    }
}

fn align_point(
    world: &mut World,
    alloc: Global,
    known: &Scopes<usize>,
    point: &Point,
) -> Result<AlignPoint, AllocError>
    ensures { Does (align_point known.now point.now world.old) result world.new }
{
    match point {
        Point::Star(_) => Ok(AlignPoint::Star),
        Point::Index(name, offset) => {
            let dimension = dummy_in_point(world, name, known.look_up(name.text.as_slice()))?;
            let offset = offset_of(world, alloc, offset)?;
            Ok(AlignPoint::Dummy { dimension, offset })
        }
    }
}

fn align_points(
    world: &mut World,
    alloc: Global,
    known: &Scopes<usize>,
    list: &Several<Point, Point>,
) -> Result<Items<AlignPoint>, AllocError>
    ensures { Does (each (align_point known.now) (parts list.now) world.old) result world.new }
{
    let mut points = Items::new(alloc);
    'list: while let Some(x) = part_at(list, points.len()) {
        let point = align_point(world, alloc, known, x)?;
        points.push(point)?;
    }
    Ok(points)
}

// An array has as many dimensions in an align and in a shadow as extents.
fn match_array(
    world: &mut World,
    array: Option<u32>,
    count: usize,
    at: Place,
) -> Result<(), AllocError>
    ensures { Does (match_array array count at world.old) result world.new }
{
    match array {
        Some(number) => {
            let right = count == extents_in(world, number).len();
            world.judge(right, Rule::N3, at)
        }
        None => Ok(()),
    }
}

fn keep_align(
    world: &mut World,
    at: Place,
    array: Option<u32>,
    template: Option<u32>,
    dummies: Items<bool>,
    points: Items<AlignPoint>,
) -> Result<(), AllocError>
    ensures { Does (keep_align at array template dummies points world.old) result world.new }
{
    match (array, template) {
        (Some(array), Some(template)) => {
            let line = Align {
                at,
                array,
                template,
                dummies,
                points,
            };
            world.mappings.aligns.push(line)
        }
        _ => Ok(()),
    }
}

// The points of an align over the dummies of its array.
fn aligned_points(
    world: &mut World,
    alloc: Global,
    dimensions: &[Inside<AlignDimension>],
    template: &Name,
    list: &Several<Point, Point>,
) -> Result<(Option<u32>, Items<AlignPoint>), AllocError>
    ensures { Does (aligned_points dimensions.now template.now list.now world.old) result world.new }
{
    let known = dummies_of(world, alloc, dimensions)?;
    let number = world.template_of(template)?;
    let points = align_points(world, alloc, &known, list)?;
    Ok((number, points))
}

/// An align.
pub(crate) fn align_line(
    world: &mut World,
    alloc: Global,
    at: Place,
    array: &Name,
    dimensions: &[Inside<AlignDimension>],
    template: &Name,
    list: &Several<Point, Point>,
) -> Result<(), AllocError>
    ensures { Does (align_line at array.now dimensions.now template.now list.now world.old) result world.new }
{
    let number = world.array_of(array)?;
    match_array(world, number, dimensions.len(), array.at)?;
    let (onto, points) = aligned_points(world, alloc, dimensions, template, list)?;
    match_template(world, onto, notation(list), points.len(), template.at)?;
    let dummies = have_dummies(alloc, dimensions)?;
    keep_align(world, at, number, onto, dummies, points)
}

fn second_width(
    world: &mut World,
    alloc: Global,
    low: i64,
    high: &Option<(Place, Expr)>,
) -> Result<i64, AllocError>
    ensures { Does (second_width low high.now world.old) result world.new }
{
    match high {
        Some((_, x)) => world.constant(alloc, x),
        None => Ok(low),
    }
}

fn widths_of(
    world: &mut World,
    alloc: Global,
    x: &(Expr, Option<(Place, Expr)>),
) -> Result<(i64, i64), AllocError>
    ensures { Does (widths_of x.now world.old) result world.new }
{
    let low = world.constant(alloc, &x.0)?;
    let high = second_width(world, alloc, low, &x.1)?;
    Ok((low, high))
}

fn all_widths(
    world: &mut World,
    alloc: Global,
    list: &[Inside<(Expr, Option<(Place, Expr)>)>],
) -> Result<Items<(i64, i64)>, AllocError>
    ensures { Does (each widths_of (inner list.now) world.old) result world.new }
{
    let mut widths = Items::new(alloc);
    'list: for x in list {
        let both = widths_of(world, alloc, &x.item)?;
        widths.push(both)?;
    }
    Ok(widths)
}

fn keep_shadow(
    world: &mut World,
    at: Place,
    array: Option<u32>,
    widths: Items<(i64, i64)>,
) -> Result<(), AllocError>
    ensures { Does (keep_shadow at array widths world.old) result world.new }
{
    match array {
        Some(array) => {
            let line = Shadow { at, array, widths };
            world.mappings.shadows.push(line)
        }
        None => Ok(()),
    }
}

/// A shadow.
pub(crate) fn shadow_line(
    world: &mut World,
    alloc: Global,
    at: Place,
    array: &Name,
    list: &[Inside<(Expr, Option<(Place, Expr)>)>],
) -> Result<(), AllocError>
    ensures { Does (shadow_line at array.now list.now world.old) result world.new }
{
    let number = world.array_of(array)?;
    let widths = all_widths(world, alloc, list)?;
    match_array(world, number, widths.len(), array.at)?;
    keep_shadow(world, at, number, widths)
}
