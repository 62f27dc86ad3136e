// The parts of the typed program of a tree.
ghost use Rattle.std.specs.Prelude.{◌≡◌, [], IfErr, IfOk, IsTrue, None, map};
ghost use Rattle.xmp_names.specs.Sizes.{natural};
ghost use Rattle.xmp_mapping_rules.specs.MappingRules.{mapping_rules, nodes_of};
ghost use Rattle.xmp_parts.specs.Narrow.{is_count};
ghost use Rattle.xmp_parts.specs.Parts.{EachMade, IsArray, IsGrid, IsParts, IsTemplate, Made, RefusedBy, kind_of};
ghost use Rattle.xmp_parts.specs.Verdict.{broken_in, verdict, verdict_of};

use crate::grids::{made_grid, made_templates};
use crate::homes::made_arrays;
use crate::verdict::verdict_of;
use sqlite_items::Items;
use std::alloc::{AllocError, Global};
use xmp_base::{Fault, Refusal};
use xmp_map::{Grid, Template};
use xmp_mapping_rules::{Lines, mapping_rules};
use xmp_prog::{Array, Kind, ProgParts, Stmt};
use xmp_syntax::Tree;
use xmp_walk::{World, walk_program};

// The verdict on a world after the walk.
fn judged(alloc: Global, lines: &Lines) -> Result<Option<Refusal>, AllocError>
    ensures { IfOk result (λ r. r ≡ verdict_of (broken_in lines.now)) }
{
    let rules = mapping_rules(alloc, lines)?;
    let mut broken = Items::from_slice(alloc, lines.world().broken.as_slice())?;
    broken.append(rules)?;
    Ok(verdict_of(broken.as_slice()))
}

fn kind_of(coarray: bool) -> Kind
    ensures { result ≡ kind_of coarray }
{
    if coarray { Kind::Coarray } else { Kind::Global }
}

// The grid, the templates and the arrays of a program.
#[derive(Drop)]
struct Placed {
    grid: Grid,
    templates: Items<Template>,
    arrays: Items<Array>,
}

// The same of a program in which no rule of mappings breaks.
fn place_all(alloc: Global, lines: &Lines) -> Result<Placed, AllocError>
    requires unbroken { mapping_rules lines.now ≡ [] }
    requires count { IsTrue (is_count lines.now.given) }
    ensures grid { IfOk result (λ m. IsGrid (map natural (nodes_of lines.now)) m.grid) }
    ensures templates { IfOk result (λ m. EachMade (λ k line t. IsTemplate lines.now m.grid k t) 0 lines.now.mappings.templates m.templates) }
    ensures arrays { IfOk result (λ m. EachMade (IsArray lines.now m.templates) 0 lines.now.names.arrays m.arrays) }
{
    let grid = made_grid(alloc, lines.nodes())?;
    let templates = made_templates(alloc, lines, &grid)?;
    let arrays = made_arrays(alloc, lines, &grid, templates.as_slice())?;
    Ok(Placed {
        grid,
        templates,
        arrays,
    })
}

// The same of a program by the world after the walk, or the rule that it is refused for.
fn place_or_refuse(alloc: Global, lines: &Lines) -> Result<Placed, Fault>
    requires { IsTrue (is_count lines.now.given) }
    ensures accepted { IfOk result (λ m. verdict_of (broken_in lines.now) ≡ None) }
    ensures grid { IfOk result (λ m. IsGrid (map natural (nodes_of lines.now)) m.grid) }
    ensures templates { IfOk result (λ m. EachMade (λ k line t. IsTemplate lines.now m.grid k t) 0 lines.now.mappings.templates m.templates) }
    ensures arrays { IfOk result (λ m. EachMade (IsArray lines.now m.templates) 0 lines.now.names.arrays m.arrays) }
    ensures refused { IfErr result (λ e. RefusedBy (verdict_of (broken_in lines.now)) e) }
{
    match judged(alloc, lines) {
        Ok(None) => match place_all(alloc, lines) {
            Ok(found) => Ok(found),
            Err(_) => Err(Fault::NoMemory),
        },
        Ok(Some(refusal)) => Err(Fault::Refused(refusal)),
        Err(_) => Err(Fault::NoMemory),
    }
}

// The same by the world alone.
fn placed_in(alloc: Global, w: &World) -> Result<Placed, Fault>
    requires { IsTrue (is_count w.now.given) }
    ensures accepted { IfOk result (λ m. verdict_of (broken_in w.now) ≡ None) }
    ensures grid { IfOk result (λ m. IsGrid (map natural (nodes_of w.now)) m.grid) }
    ensures templates { IfOk result (λ m. EachMade (λ k line t. IsTemplate w.now m.grid k t) 0 w.now.mappings.templates m.templates) }
    ensures arrays { IfOk result (λ m. EachMade (IsArray w.now m.templates) 0 w.now.names.arrays m.arrays) }
    ensures refused { IfErr result (λ e. RefusedBy (verdict_of (broken_in w.now)) e) }
{
    match Lines::new(alloc, w) {
        Ok(lines) => place_or_refuse(alloc, &lines),
        Err(_) => Err(Fault::NoMemory),
    }
}

fn assembled(body: Stmt, w: World, placed: Placed) -> ProgParts
    requires grid { IsGrid (map natural (nodes_of w)) placed.grid }
    requires templates { EachMade (λ k line t. IsTemplate w placed.grid k t) 0 w.mappings.templates placed.templates }
    requires arrays { EachMade (IsArray w placed.templates) 0 w.names.arrays placed.arrays }
    ensures { Made body w result }
{
    let World {
        names,
        scalars,
        functions,
        start,
        ..
    } = w;
    let Placed {
        grid,
        templates,
        arrays,
    } = placed;
    ProgParts {
        grid,
        kind: kind_of(names.coarray),
        scalars,
        arrays,
        templates,
        functions,
        start,
        body,
    }
}

/// The parts of the typed program of a tree, for a number of nodes or none, or the rule that it is refused for: the first
/// rule of names that it breaks, or, where it breaks none, the first rule of mappings.
pub fn elaborate_parts(alloc: Global, t: &Tree, given: Option<u32>) -> Result<ProgParts, Fault>
    requires { IsTrue (is_count given) }
    ensures accepted { IfOk result (λ p. verdict t.now given ≡ None) }
    ensures program { IfOk result (λ p. IsParts t.now given p) }
    ensures refused { IfErr result (λ e. RefusedBy (verdict t.now given) e) }
{
    let Ok((body, world)) = walk_program(alloc, t, given) else {
        return Err(Fault::NoMemory);
    };
    match placed_in(alloc, &world) {
        Ok(found) => Ok(assembled(body, world, found)),
        Err(fault) => {
            std::mem::drop(body);
            std::mem::drop(world);
            Err(fault)
        }
    }
}
