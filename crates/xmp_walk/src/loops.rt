// A `for` before and behind its body.
ghost use Rattle.std.specs.Prelude.{◌≡◌, ◌∷◌, ◌++◌, [], IfOk, Some};
ghost use Rattle.xmp_prog.specs.declared.expressions.Expr.{out-Expr};
ghost use Rattle.xmp_prog.specs.declared.statements.Stmt.TheVariants as stmt;
ghost use Rattle.xmp_names.specs.Walk.{Does, if_there, typed, typed_reference};
ghost use Rattle.xmp_walk.specs.Statements.{begun, condition, counted_loop, counted_with, first_of, first_part, for_parts, in_block, index_of, last_of, loop_in, loop_of, right_side, shape_of, simple_of, uncounted};

use crate::declarations::declare_statement;
use crate::shapes::shape_of;
use crate::statements::{set, simple};
use sqlite_items::{Boxed, Items};
use std::alloc::{AllocError, Global};
use std::mem::drop;
use xmp_base::Place;
use xmp_names::{Operand, World, first_place};
use xmp_num::Ty;
use xmp_prog as prog;
use xmp_syntax::{Expr, ForFirst, ForHead, Name, Reference, Simple};

/// The first part of a `for`: what it declares, what it assigns to, the value, and the place of the value's first token.
#[derive(Drop)]
pub struct First {
    pub declared: Items<prog::Stmt>,
    pub target: Operand,
    pub value: Operand,
    pub at: Place,
}

/// The parts of a `for` before its body, each in a box, since they are let go where its body fails.
#[derive(Drop)]
pub struct ForParts {
    pub first: Option<Boxed<First>>,
    pub test: Option<Boxed<Operand>>,
    pub next: Option<Boxed<prog::Stmt>>,
}

/// A counted loop: its index with the place of its first name, whether the bound is included, the step, and the place of
/// the bound's first token.
#[derive(Clone, Copy)]
pub struct Shape {
    pub index: prog::Name,
    pub inclusive: bool,
    pub step: u32,
    pub to_at: Place,
}

// `reference = value`
fn first_assigned(
    world: &mut World,
    alloc: Global,
    r: &Reference<Boxed<Expr>>,
    at: Place,
    value: &Expr,
) -> Result<First, AllocError>
    ensures { Does (first_of (ForFirst.Assign r.now at value.now) world.old) result world.new }
{
    let target = world.typed_reference(alloc, r)?;
    let made = world.typed(alloc, value)?;
    Ok(first_part(Items::new(alloc), value, target, made))
}

// The index of a `for` that declares it.
fn typed_index(world: &mut World, alloc: Global, name: &Name) -> Result<Operand, AllocError>
    ensures { Does (typed_reference (index_of name.now) world.old) result world.new }
{
    let typed = world.names.plain_name(alloc, name)?;
    world.finished(typed)
}

// `int name = value`
fn first_declared(
    world: &mut World,
    alloc: Global,
    at: Place,
    name: &Name,
    equals: Place,
    value: &Expr,
) -> Result<First, AllocError>
    ensures { Does (first_of (ForFirst.Declare at name.now equals value.now) world.old) result world.new }
{
    let slot = world.declare_scalar(alloc, name, Ty::Int)?;
    let declared = declare_statement(alloc, slot, None, name.at)?;
    let target = typed_index(world, alloc, name)?;
    let made = world.typed(alloc, value)?;
    Ok(first_part(declared, value, target, made))
}

fn first_of(world: &mut World, alloc: Global, x: &ForFirst) -> Result<First, AllocError>
    ensures { Does (first_of x.now world.old) result world.new }
{
    match x {
        ForFirst::Assign(r, at, value) => first_assigned(world, alloc, r, *at, value),
        ForFirst::Declare(at, name, equals, value) => {
            first_declared(world, alloc, *at, name, *equals, value)
        }
    }
}

fn first_if_there(
    world: &mut World,
    alloc: Global,
    x: &Option<ForFirst>,
) -> Result<Option<Boxed<First>>, AllocError>
    ensures { Does (if_there first_of x.now world.old) result world.new }
{
    match x {
        Some(x) => {
            let first = first_of(world, alloc, x)?;
            let boxed = Boxed::new(alloc, first)?;
            Ok(Some(boxed))
        }
        None => Ok(None),
    }
}

/// An expression where it stands, in a box.
pub(crate) fn boxed_typed(
    world: &mut World,
    alloc: Global,
    x: &Expr,
) -> Result<Boxed<Operand>, AllocError>
    ensures { Does (typed x.now world.old) result world.new }
{
    let made = world.typed(alloc, x)?;
    let boxed = Boxed::new(alloc, made)?;
    Ok(boxed)
}

fn test_if_there(
    world: &mut World,
    alloc: Global,
    x: &Option<Expr>,
) -> Result<Option<Boxed<Operand>>, AllocError>
    ensures { Does (if_there typed x.now world.old) result world.new }
{
    match x {
        Some(x) => {
            let test = boxed_typed(world, alloc, x)?;
            Ok(Some(test))
        }
        None => Ok(None),
    }
}

fn next_if_there(
    world: &mut World,
    alloc: Global,
    x: &Option<Simple>,
) -> Result<Option<Boxed<prog::Stmt>>, AllocError>
    ensures { Does (if_there simple_of x.now world.old) result world.new }
{
    match x {
        Some(x) => {
            let next = simple(world, alloc, x)?;
            let boxed = Boxed::new(alloc, next)?;
            Ok(Some(boxed))
        }
        None => Ok(None),
    }
}

/// The scope of a `for` opens, and its parts before the body.
pub(crate) fn for_parts(
    world: &mut World,
    alloc: Global,
    head: &ForHead,
) -> Result<ForParts, AllocError>
    ensures { Does (for_parts head.now world.old) result world.new }
{
    world.open_scope()?;
    let first = first_if_there(world, alloc, &head.first)?;
    let test = test_if_there(world, alloc, &head.test)?;
    let next = next_if_there(world, alloc, &head.next)?;
    Ok(ForParts { first, test, next })
}

fn first_part(declared: Items<prog::Stmt>, x: &Expr, target: Operand, value: Operand) -> First
    ensures { result ≡ first_part declared x.now target value }
{
    First {
        declared,
        target,
        value,
        at: first_place(x),
    }
}

fn right_side(test: prog::Expr) -> prog::Expr
    ensures { result ≡ right_side (out-Expr test) }
{
    match test {
        prog::Expr::Binary(_, _, _, right, _) => right.into_inner(),
        other => {
            drop(other);
            prog::Expr::Const(0, Ty::Int)
        }
    }
}

// A loop behind the declaration of its index, where it has one.
fn in_block(mut declared: Items<prog::Stmt>, made: prog::Stmt) -> Result<prog::Stmt, AllocError>
    ensures { IfOk result (λ s. s ≡ in_block declared made) }
{
    if declared.is_empty() {
        return Ok(made);
    }
    declared.push(made)?;
    Ok(prog::Stmt::Block(declared))
}

fn counted_head(shape: Shape, from: prog::Expr, from_at: Place, to: prog::Expr) -> prog::LoopHead
    ensures { result ≡ record { index = shape.index; from = from; to = to; inclusive = shape.inclusive; step = shape.step; from_at = from_at; to_at = shape.to_at } }
{
    prog::LoopHead {
        index: shape.index,
        from,
        to,
        inclusive: shape.inclusive,
        step: shape.step,
        from_at,
        to_at: shape.to_at,
    }
}

fn counted_loop(
    shape: Shape,
    first: First,
    test: Operand,
    body: Boxed<prog::Stmt>,
) -> Result<prog::Stmt, AllocError>
    ensures { IfOk result (λ s. s ≡ counted_loop shape first test body) }
{
    let First {
        declared,
        target,
        value,
        at,
    } = first;
    drop(target);
    let Operand { made: from, .. } = value;
    let Operand { made, .. } = test;
    let head = counted_head(shape, from, at, right_side(made));
    in_block(declared, prog::Stmt::Counted(head, body))
}

fn begun(alloc: Global, first: Option<Boxed<First>>) -> Result<Items<prog::Stmt>, AllocError>
    ensures { IfOk result (λ l. l ≡ begun first) }
{
    match first {
        Some(first) => {
            let First {
                mut declared,
                target,
                value,
                at,
            } = first.into_inner();
            let made = set(alloc, None, at, target, value)?;
            declared.push(made)?;
            Ok(declared)
        }
        None => Ok(Items::new(alloc)),
    }
}

fn condition(test: Option<Boxed<Operand>>) -> prog::Expr
    ensures { result ≡ condition test }
{
    match test {
        Some(test) => {
            let Operand { made, .. } = test.into_inner();
            made
        }
        None => prog::Expr::Const(1, Ty::Int),
    }
}

// A turn of an uncounted loop: the body and the last part.
fn turn(
    alloc: Global,
    body: Boxed<prog::Stmt>,
    next: Option<Boxed<prog::Stmt>>,
) -> Result<prog::Stmt, AllocError>
    ensures { IfOk result (λ s. s ≡ stmt.Block (body ∷ last_of next)) }
{
    let mut list = Items::new(alloc);
    list.push(body.into_inner())?;
    match next {
        Some(next) => {
            list.push(next.into_inner())?;
            Ok(prog::Stmt::Block(list))
        }
        None => Ok(prog::Stmt::Block(list)),
    }
}

pub(crate) fn while_statement(
    alloc: Global,
    test: prog::Expr,
    body: prog::Stmt,
    word: Place,
) -> Result<prog::Stmt, AllocError>
    ensures { IfOk result (λ s. s ≡ stmt.While test body word) }
{
    match Boxed::new(alloc, body) {
        Ok(body) => Ok(prog::Stmt::While(test, body, word)),
        Err(e) => {
            drop(test);
            Err(e)
        }
    }
}

// What a `for` that isn't counted does in each turn, as a loop.
fn repeated(
    alloc: Global,
    test: Option<Boxed<Operand>>,
    next: Option<Boxed<prog::Stmt>>,
    body: Boxed<prog::Stmt>,
    word: Place,
) -> Result<prog::Stmt, AllocError>
    ensures { IfOk result (λ s. s ≡ stmt.While (condition test) (stmt.Block (body ∷ last_of next)) word) }
{
    let body = turn(alloc, body, next)?;
    while_statement(alloc, condition(test), body, word)
}

// A loop behind what a `for` does first.
fn behind_first(
    alloc: Global,
    first: Option<Boxed<First>>,
    made: prog::Stmt,
) -> Result<prog::Stmt, AllocError>
    ensures { IfOk result (λ s. s ≡ stmt.Block (begun first ++ made ∷ [])) }
{
    match begun(alloc, first) {
        Ok(mut list) => {
            list.push(made)?;
            Ok(prog::Stmt::Block(list))
        }
        Err(e) => {
            drop(made);
            Err(e)
        }
    }
}

fn uncounted(
    alloc: Global,
    word: Place,
    first: Option<Boxed<First>>,
    test: Option<Boxed<Operand>>,
    next: Option<Boxed<prog::Stmt>>,
    body: Boxed<prog::Stmt>,
) -> Result<prog::Stmt, AllocError>
    ensures { IfOk result (λ s. s ≡ uncounted word (record { first = first; test = test; next = next }) body) }
{
    let made = repeated(alloc, test, next, body, word)?;
    behind_first(alloc, first, made)
}

fn counted_from(
    shape: Shape,
    first: First,
    test: Option<Boxed<Operand>>,
    body: Boxed<prog::Stmt>,
) -> Result<prog::Stmt, AllocError>
    ensures { IfOk result (λ s. s ≡ counted_with shape (Some first) test body) }
{
    match test {
        Some(test) => counted_loop(shape, first, test.into_inner(), body),
        None => {
            drop(first);
            Ok(body.into_inner())
        }
    }
}

fn counted_with(
    shape: Shape,
    first: Option<Boxed<First>>,
    test: Option<Boxed<Operand>>,
    body: Boxed<prog::Stmt>,
) -> Result<prog::Stmt, AllocError>
    ensures { IfOk result (λ s. s ≡ counted_with shape first test body) }
{
    match first {
        Some(first) => counted_from(shape, first.into_inner(), test, body),
        None => Ok(body.into_inner()),
    }
}

fn loop_in(
    alloc: Global,
    shape: Option<Shape>,
    word: Place,
    parts: ForParts,
    body: Boxed<prog::Stmt>,
) -> Result<prog::Stmt, AllocError>
    ensures { IfOk result (λ s. s ≡ loop_in shape word parts body) }
{
    let ForParts { first, test, next } = parts;
    match shape {
        Some(shape) => {
            // Of the last part of a counted loop only the step is kept.
            drop(next);
            counted_with(shape, first, test, body)
        }
        None => uncounted(alloc, word, first, test, next, body),
    }
}

/// The loop of a `for` with these parts and this body.
pub(crate) fn loop_of(
    alloc: Global,
    head: &ForHead,
    parts: ForParts,
    body: Boxed<prog::Stmt>,
) -> Result<prog::Stmt, AllocError>
    ensures { IfOk result (λ s. s ≡ loop_of head.now parts body) }
{
    let shape = shape_of(head, &parts, body.get());
    loop_in(alloc, shape, head.word, parts, body)
}
