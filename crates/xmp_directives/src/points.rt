// Templates and nodes arrays by their names, and the constants of points.
ghost use Rattle.std.specs.Prelude.{◌≡◌, IfOk, length, slice_get};
ghost use Rattle.xmp_names.specs.Walk.{Does, Gave, a_nodes, a_template, name_of};
ghost use Rattle.xmp_directives.specs.Directives.{lowers_of, match_template, offset_of, signed, template_takes};
ghost use Rattle.xmp_names.specs.Sizes.{is_small, limited};

use sqlite_items::Items;
use std::alloc::{AllocError, Global};
use xmp_base::{Place, SIZE_LIMIT};
use xmp_lex::Mark;
use xmp_names::{Notation, Rule, World, is_same, is_small};
use xmp_syntax::{Expr, Name, Placed};

// The constant behind a name in a point, with its sign. One that isn't small is kept as 4,194,305 or less that.
fn signed(mark: Mark, c: i64) -> i64
    ensures { result ≡ signed mark (limited c) }
{
    let limited = if is_small(c) {
        c
    } else {
        i64::from(SIZE_LIMIT) + 1
    };
    match mark {
        Mark::Minus => -limited,
        _ => limited,
    }
}

/// The constant behind a name in a point.
pub(crate) fn offset_of(
    world: &mut World,
    alloc: Global,
    offset: &Option<(Placed<Mark>, Expr)>,
) -> Result<i64, AllocError>
    ensures { Does (offset_of offset.now world.old) result world.new }
{
    match offset {
        Some((mark, constant)) => {
            let c = world.constant(alloc, constant)?;
            Ok(signed(mark.what, c))
        }
        None => Ok(0),
    }
}

// Whether a template has so many dimensions, and is written so in its own directive.
fn template_takes(world: &World, written: Notation, count: usize, template: u32) -> bool
    ensures { result ≡ template_takes written count (slice_get world.now.mappings.templates template) }
{
    match world.mappings.templates.get(template as usize) {
        Some(line) => count == line.sizes.len() && is_same(written, line.notation),
        None => false,
    }
}

/// A template has as many points or forms as dimensions, and is written as in its own directive.
pub(crate) fn match_template(
    world: &mut World,
    template: Option<u32>,
    written: Notation,
    count: usize,
    at: Place,
) -> Result<(), AllocError>
    ensures { Does (match_template template written count at world.old) result world.new }
{
    match template {
        Some(number) => {
            let right = template_takes(world, written, count, number);
            world.judge(right, Rule::N3, at)
        }
        None => Ok(()),
    }
}

/// The lower bounds of a template.
pub(crate) fn lowers_of(
    world: &World,
    alloc: Global,
    template: Option<u32>,
) -> Result<Items<i64>, AllocError>
    ensures { IfOk result (λ lowers. lowers_of template world.now ≡ Gave lowers world.now) }
{
    match template {
        Some(number) => match world.mappings.templates.get(number as usize) {
            Some(line) => Items::from_slice(alloc, line.lowers.as_slice()),
            None => Ok(Items::new(alloc)),
        },
        None => Ok(Items::new(alloc)),
    }
}
