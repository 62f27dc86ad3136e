// Declarations of scalars and arrays.
ghost use Rattle.std.specs.Prelude.{◌≡◌, ◌∷◌, [], IfOk, is_some, map};
ghost use Rattle.xmp_prog.specs.declared.statements.Stmt.TheVariants as stmt;
ghost use Rattle.xmp_prog.specs.declared.statements.Plain.TheVariants as plain;
ghost use Rattle.std.specs.List.{list_all};
ghost use Rattle.xmp_names.specs.Walk.{Does, each, typed_constant};
ghost use Rattle.xmp_walk.specs.Declarations.{declare_array, extent_of, extent_or_one, extent_right, file_declaration, file_declarator, initialiser, local_declaration, local_declarator, new_array, start_of, type_of};
ghost use Rattle.xmp_names.specs.Lists.{inner};
ghost use Rattle.xmp_names.specs.Sizes.{is_extent};

use sqlite_items::Items;
use std::alloc::{AllocError, Global};
use xmp_base::Place;
use xmp_names::{Array, Meaning, Operand, Rule, Value, World, is_extent};
use xmp_num::Ty;
use xmp_prog as prog;
use xmp_syntax::{Declaration, Declarator, Expr, Inside, Name, TypeWords};

/// The type that its words name.
pub(crate) fn type_of(words: TypeWords) -> Ty
    ensures { result ≡ type_of words }
{
    match words {
        TypeWords::Int(_) => Ty::Int,
        TypeWords::Long(_) => Ty::Long,
        TypeWords::LongInt(_, _) => Ty::Long,
    }
}

fn extent_right(value: Value) -> bool
    ensures { result ≡ extent_right value }
{
    match value {
        Value::Known(v) => is_extent(v),
        _ => true,
    }
}

fn extent_of(value: Value) -> u32
    ensures { result ≡ extent_of value }
{
    match value {
        Value::Known(v) => extent_or_one(v),
        _ => 1,
    }
}

fn extent_or_one(n: i64) -> u32
    ensures { result ≡ extent_or_one n }
{
    if is_extent(n) { n as u32 } else { 1 }
}

// The extents that stand in the typed program.
fn extents_of(alloc: Global, values: &[Operand]) -> Result<Items<u32>, AllocError>
    ensures { IfOk result (λ ns. ns ≡ map (λ t. extent_of t.value) values.now) }
{
    let mut extents = Items::new(alloc);
    'values: for value in values {
        extents.push(extent_of(value.value))?;
    }
    Ok(extents)
}

fn extents_right(values: &[Operand]) -> bool
    ensures { result ≡ list_all (λ t. extent_right t.value) values.now }
{
    'values: for value in values {
        if !extent_right(value.value) {
            return false;
        }
    }
    true
}

fn new_array(
    world: &mut World,
    ty: Ty,
    extents: Items<u32>,
    coarray: bool,
    at: Place,
) -> Result<u32, AllocError>
    ensures { Does (new_array ty extents coarray at world.old) result world.new }
{
    let Ok(number) = u32::try_from(world.names.arrays.len()) else {
        return Err(AllocError);
    };
    world.names.arrays.push(Array {
        ty,
        extents,
        coarray,
        at,
    })?;
    Ok(number)
}

// The extents where they stand.
fn extent_values(
    world: &mut World,
    alloc: Global,
    list: &[Inside<Expr>],
) -> Result<Items<Operand>, AllocError>
    ensures { Does (each typed_constant (inner list.now) world.old) result world.new }
{
    let mut values = Items::new(alloc);
    'list: for extent in list {
        let value = world.typed_constant(alloc, &extent.item)?;
        values.push(value)?;
    }
    Ok(values)
}

/// An array with its extents.
pub(crate) fn declare_array(
    world: &mut World,
    alloc: Global,
    ty: Ty,
    name: &Name,
    list: &[Inside<Expr>],
    coarray: bool,
) -> Result<(), AllocError>
    ensures { Does (declare_array ty name.now (inner list.now) coarray world.old) result world.new }
{
    let values = extent_values(world, alloc, list)?;
    let extents = extents_of(alloc, values.as_slice())?;
    let right = extents_right(values.as_slice()) && list.len() <= 3;
    let number = new_array(world, ty, extents, coarray, name.at)?;
    world.declare(alloc, name, Meaning::Array(number))?;
    world.judge(right, Rule::N8, name.at)?;
    world.stands_outermost(name.at)?;
    world.not_in_function(name.at)
}

fn initialiser(
    world: &mut World,
    alloc: Global,
    value: &Option<(Place, Expr)>,
) -> Result<Option<prog::Expr>, AllocError>
    ensures { Does (initialiser value.now world.old) result world.new }
{
    match value {
        Some((_, value)) => {
            let Operand { made, .. } = world.typed(alloc, value)?;
            Ok(Some(made))
        }
        None => Ok(None),
    }
}

// The initialiser of a scalar at file scope.
fn start_of(
    world: &mut World,
    alloc: Global,
    slot: u32,
    value: &Option<(Place, Expr)>,
) -> Result<(), AllocError>
    ensures { Does (start_of slot value.now world.old) result world.new }
{
    match value {
        Some((_, value)) => {
            let Operand { made, .. } = world.typed_constant(alloc, value)?;
            world.start.push(prog::Start { slot, value: made })?;
            Ok(())
        }
        None => Ok(()),
    }
}

// A scalar at file scope.
fn file_scalar(
    world: &mut World,
    alloc: Global,
    ty: Ty,
    name: &Name,
    value: &Option<(Place, Expr)>,
) -> Result<(), AllocError>
    ensures { Does (file_declarator ty (Declarator.Scalar name.now value.now) world.old) result world.new }
{
    let slot = world.declare_scalar(alloc, name, ty)?;
    start_of(world, alloc, slot, value)
}

fn file_declarator(
    world: &mut World,
    alloc: Global,
    ty: Ty,
    x: &Declarator,
) -> Result<(), AllocError>
    ensures { Does (file_declarator ty x.now world.old) result world.new }
{
    match x {
        Declarator::Scalar(name, value) => file_scalar(world, alloc, ty, name, value),
        Declarator::Array(name, list, image) => {
            declare_array(world, alloc, ty, name, list.as_slice(), is_coarray(image))
        }
    }
}

/// A declaration at file scope.
pub fn file_declaration(world: &mut World, alloc: Global, d: &Declaration) -> Result<(), AllocError>
    ensures { Does (file_declaration d.now world.old) result world.new }
{
    let ty = type_of(d.ty);
    file_declarator(world, alloc, ty, &d.items.first)?;
    'more: for next in d.items.more.as_slice() {
        file_declarator(world, alloc, ty, &next.item)?;
    }
    Ok(())
}

// A scalar in a list of statements.
fn local_scalar(
    world: &mut World,
    alloc: Global,
    ty: Ty,
    name: &Name,
    value: &Option<(Place, Expr)>,
) -> Result<Items<prog::Stmt>, AllocError>
    ensures { Does (local_declarator ty (Declarator.Scalar name.now value.now) world.old) result world.new }
{
    let number = world.declare_scalar(alloc, name, ty)?;
    let value = initialiser(world, alloc, value)?;
    let made = declare_statement(alloc, number, value, name.at)?;
    Ok(made)
}

fn local_declarator(
    world: &mut World,
    alloc: Global,
    ty: Ty,
    x: &Declarator,
) -> Result<Items<prog::Stmt>, AllocError>
    ensures { Does (local_declarator ty x.now world.old) result world.new }
{
    match x {
        Declarator::Scalar(name, value) => local_scalar(world, alloc, ty, name, value),
        Declarator::Array(name, list, image) => {
            declare_array(world, alloc, ty, name, list.as_slice(), is_coarray(image))?;
            Ok(Items::new(alloc))
        }
    }
}

/// A declaration among statements, behind those before it.
pub fn local_declaration(
    world: &mut World,
    alloc: Global,
    mut done: Items<prog::Stmt>,
    d: &Declaration,
) -> Result<Items<prog::Stmt>, AllocError>
    ensures { Does (local_declaration done d.now world.old) result world.new }
{
    let ty = type_of(d.ty);
    let first = local_declarator(world, alloc, ty, &d.items.first)?;
    done.append(first)?;
    'more: for next in d.items.more.as_slice() {
        let more = local_declarator(world, alloc, ty, &next.item)?;
        done.append(more)?;
    }
    Ok(done)
}

fn is_coarray(image: &Option<(Place, Inside<Place>)>) -> bool
    ensures { result ≡ is_some image.now }
{
    image.is_some()
}

pub(crate) fn declare_statement(
    alloc: Global,
    slot: u32,
    value: Option<prog::Expr>,
    at: Place,
) -> Result<Items<prog::Stmt>, AllocError>
    ensures { IfOk result (λ l. l ≡ stmt.Plain (plain.Declare slot value at) ∷ []) }
{
    let mut list = Items::new(alloc);
    list.push(prog::Stmt::Plain(prog::Plain::Declare { slot, value, at }))?;
    Ok(list)
}
