// The directive `gmove`.
ghost use Rattle.std.specs.Prelude.{◌≡◌, [], IfOk, Some, drop, false, slice_get};
ghost use Rattle.std.specs.List.{count_by};
ghost use Rattle.xmp_names.specs.Walk.{Does, and_then, judge, pure};
ghost use Rattle.xmp_names.specs.Lists.{inner};
ghost use Rattle.xmp_names.specs.Sizes.{extents_in};
ghost use Rattle.xmp_directives.specs.Directives.{first_extent, gmove_of, no_side, number_of, part_of, part_with, parts_in, sections_match, side_as, side_of, step_of, unwritten};
ghost use Rattle.xmp_prog.specs.Directives.{is_section, sections_in};

use sqlite_items::{Boxed, Items};
use std::alloc::{AllocError, Global};
use xmp_base::Place;
use xmp_names::{Meaning, Operand, Rule, World, extents_in, first_place};
use xmp_num::Ty;
use xmp_prog as prog;
use xmp_syntax::{DirectiveLine, Expr, Inside, Name, Section, Sections};

fn unwritten(n: u32, at: Place) -> prog::Number
    ensures { result ≡ unwritten n at }
{
    prog::Number {
        value: prog::Expr::Const(i64::from(n), Ty::Int),
        at,
    }
}

fn first_extent(extents: &[u32]) -> u32
    ensures { result ≡ first_extent extents.now }
{
    match extents.first() {
        Some(extent) => *extent,
        None => 1,
    }
}

fn number_of(world: &mut World, alloc: Global, x: &Expr) -> Result<prog::Number, AllocError>
    ensures { Does (number_of x.now world.old) result world.new }
{
    let Operand { made, .. } = world.typed(alloc, x)?;
    Ok(prog::Number {
        value: made,
        at: first_place(x),
    })
}

// The same in a box, in which it waits for the numbers behind it.
fn boxed_number(
    world: &mut World,
    alloc: Global,
    x: &Expr,
) -> Result<Boxed<prog::Number>, AllocError>
    ensures { Does (number_of x.now world.old) result world.new }
{
    let number = number_of(world, alloc, x)?;
    let boxed = Boxed::new(alloc, number)?;
    Ok(boxed)
}

fn step_of(
    world: &mut World,
    alloc: Global,
    at: Place,
    step: &Option<(Place, Expr)>,
) -> Result<prog::Number, AllocError>
    ensures { Does (step_of at step.now world.old) result world.new }
{
    match step {
        Some((_, step)) => number_of(world, alloc, step),
        None => Ok(unwritten(1, at)),
    }
}

fn part_with(
    world: &mut World,
    alloc: Global,
    at: Place,
    base: Boxed<prog::Number>,
    many: &Option<(Place, Expr)>,
    step: &Option<(Place, Expr)>,
) -> Result<prog::Part, AllocError>
    ensures { Does (part_with at base many.now step.now world.old) result world.new }
{
    match many {
        Some((_, many)) => {
            let length = boxed_number(world, alloc, many)?;
            let step = step_of(world, alloc, at, step)?;
            Ok(prog::Part::Many {
                base: base.into_inner(),
                length: length.into_inner(),
                step,
            })
        }
        None => Ok(prog::Part::One(base.into_inner())),
    }
}

fn part_of(
    world: &mut World,
    alloc: Global,
    extent: u32,
    at: Place,
    x: &Section,
) -> Result<prog::Part, AllocError>
    ensures { Does (part_of extent at x.now world.old) result world.new }
{
    match x {
        Section::All(_) => Ok(prog::Part::Many {
            base: unwritten(0, at),
            length: unwritten(extent, at),
            step: unwritten(1, at),
        }),
        Section::Numbers(first, many, step) => {
            let base = boxed_number(world, alloc, first)?;
            part_with(world, alloc, at, base, many, step)
        }
    }
}

// The parts of a side, each with the extent of its dimension.
fn parts_in(
    world: &mut World,
    alloc: Global,
    at: Place,
    extents: &[u32],
    list: &[Inside<Section>],
) -> Result<Items<prog::Part>, AllocError>
    ensures { Does (parts_in at [] extents.now (inner list.now) world.old) result world.new }
{
    let mut done = Items::new(alloc);
    let mut left = extents;
    'list: for x in list {
        let part = part_of(world, alloc, first_extent(left), at, &x.item)?;
        done.push(part)?;
        left = without_first(left);
    }
    Ok(done)
}

fn extents_of(world: &World, alloc: Global, array: u32) -> Result<Items<u32>, AllocError>
    ensures { IfOk result (λ extents. extents ≡ extents_in (slice_get world.now.names.arrays array)) }
{
    Items::from_slice(alloc, extents_in(world, array))
}

// An array as a side.
fn array_side(
    world: &mut World,
    alloc: Global,
    x: &Sections,
    array: u32,
) -> Result<prog::MoveSide, AllocError>
    ensures { Does (side_as x.now (Some (Meaning.Array array)) world.old) result world.new }
{
    let extents = extents_of(world, alloc, array)?;
    world.judge(x.sections.len() == extents.len(), Rule::N3, x.name.at)?;
    let list = x.sections.as_slice();
    let parts = parts_in(world, alloc, x.name.at, extents.as_slice(), list)?;
    Ok(prog::MoveSide::Array(
        prog::Name {
            number: array,
            at: x.name.at,
        },
        parts,
    ))
}

fn no_side(world: &mut World, name: &Name, rule: Rule) -> Result<prog::MoveSide, AllocError>
    ensures { Does (and_then (judge false rule name.now.at world.old) (λ u. pure (no_side name.now))) result world.new }
{
    world.judge(false, rule, name.at)?;
    Ok(prog::MoveSide::Scalar(prog::Name {
        number: 0,
        at: name.at,
    }))
}

fn side_as(
    world: &mut World,
    alloc: Global,
    x: &Sections,
    meaning: Option<Meaning>,
) -> Result<prog::MoveSide, AllocError>
    ensures { Does (side_as x.now meaning world.old) result world.new }
{
    match meaning {
        Some(Meaning::Scalar(slot, _)) => {
            world.judge(x.sections.is_empty(), Rule::N3, x.name.at)?;
            Ok(prog::MoveSide::Scalar(prog::Name {
                number: slot,
                at: x.name.at,
            }))
        }
        Some(Meaning::Array(array)) => array_side(world, alloc, x, array),
        Some(_) => no_side(world, &x.name, Rule::N3),
        None => no_side(world, &x.name, Rule::N1),
    }
}

fn side_of(world: &mut World, alloc: Global, x: &Sections) -> Result<prog::MoveSide, AllocError>
    ensures { Does (side_of x.now world.old) result world.new }
{
    let meaning = world.meaning_of(&x.name)?;
    side_as(world, alloc, x, meaning)
}

/// `gmove`
pub fn gmove(
    world: &mut World,
    alloc: Global,
    line: DirectiveLine,
    target: &Sections,
    source: &Sections,
) -> Result<prog::Stmt, AllocError>
    ensures { Does (gmove_of line target.now source.now world.old) result world.new }
{
    world.directive_at(line.word)?;
    let a = side_of(world, alloc, target)?;
    let b = side_of(world, alloc, source)?;
    let right = sections_match(sections_in(&a), sections_in(&b));
    world.judge(right, Rule::N3, target.name.at)?;
    Ok(prog::Stmt::Plain(prog::Plain::Gmove {
        target: a,
        source: b,
        at: line.word,
    }))
}

fn without_first(extents: &[u32]) -> &[u32]
    ensures { result.now ≡ drop 1 extents.now }
{
    match extents.split_first() {
        Some((_, rest)) => rest,
        None => extents,
    }
}

fn sections_match(target: usize, source: usize) -> bool
    ensures { result ≡ sections_match target source }
{
    source == 0 || source == target
}

fn is_section(part: &prog::Part) -> bool
    ensures { result ≡ is_section part.now }
{
    match part {
        prog::Part::One(_) => false,
        prog::Part::Many { .. } => true,
    }
}

fn count_sections(parts: &[prog::Part]) -> usize
    ensures { result ≡ count_by is_section parts.now }
{
    let mut count = 0usize;
    'parts: for part in parts {
        if is_section(part) {
            count += 1;
        }
    }
    count
}

// How many sections a side has.
fn sections_in(side: &prog::MoveSide) -> usize
    ensures { result ≡ sections_in side.now }
{
    match side {
        prog::MoveSide::Scalar(_) => 0,
        prog::MoveSide::Array(_, parts) => count_sections(parts.as_slice()),
    }
}
