// The walk over a whole program.
ghost use Rattle.std.specs.Prelude.{◌≡◌, IfOk};
ghost use Rattle.std.specs.List.{list_any};
ghost use Rattle.std.specs.Option.{option_map};
ghost use Rattle.xmp_names.specs.Walk.{Does, Gave};
ghost use Rattle.xmp_walk.specs.Program.{coarray_declaration, coarray_declarator, coarray_else, coarray_in, coarray_stmt, coarray_top, else_has, last_top, no_mappings, program_of, start_names, start_world, top_of, tops_of};

use crate::declarations::file_declaration;
use crate::functions::{function_of, main_of};
use sqlite_items::{Boxed, Items};
use std::alloc::{AllocError, Global};
use std::mem::drop;
use xmp_base::Place;
use xmp_directives::keep_mapping;
use xmp_names::{Environment, Mappings, Region, World};
use xmp_prog as prog;
use xmp_scopes::Scopes;
use xmp_syntax::{BlockItem, Declaration, Declarator, Stmt, TaskLine, TopItem, Tree};

fn top(world: &mut World, alloc: Global, x: &TopItem) -> Result<(), AllocError>
    ensures { Does (top_of x.now world.old) result world.new }
{
    match x {
        TopItem::Mapping(mapping) => keep_mapping(world, alloc, mapping),
        TopItem::Declaration(d) => file_declaration(world, alloc, d),
        TopItem::Function(f) => function_of(world, alloc, f),
    }
}

fn last_top(world: &mut World, alloc: Global, x: &TopItem) -> Result<prog::Stmt, AllocError>
    ensures { Does (last_top x.now world.old) result world.new }
{
    match x {
        TopItem::Mapping(mapping) => {
            keep_mapping(world, alloc, mapping)?;
            Ok(prog::Stmt::Block(Items::new(alloc)))
        }
        TopItem::Declaration(d) => {
            file_declaration(world, alloc, d)?;
            Ok(prog::Stmt::Block(Items::new(alloc)))
        }
        TopItem::Function(f) => main_of(world, alloc, f),
    }
}

fn tops(world: &mut World, alloc: Global, list: &[TopItem]) -> Result<prog::Stmt, AllocError>
    ensures { Does (tops_of list.now world.old) result world.new }
{
    let mut left = list.len();
    'list: for x in list {
        if left == 1 {
            return last_top(world, alloc, x);
        }
        top(world, alloc, x)?;
        left -= 1;
    }
    Ok(prog::Stmt::Block(Items::new(alloc)))
}

// ---- whether a program declares a coarray

fn declares_coarray(x: &Declarator) -> bool
    ensures { result ≡ coarray_declarator x.now }
{
    match x {
        Declarator::Scalar(_, _) => false,
        Declarator::Array(_, _, image) => image.is_some(),
    }
}

fn declaration_has(d: &Declaration) -> bool
    ensures { result ≡ coarray_declaration d.now }
{
    if declares_coarray(&d.items.first) {
        return true;
    }
    'more: for next in d.items.more.as_slice() {
        if declares_coarray(&next.item) {
            return true;
        }
    }
    false
}

#[cycle(coarrays)]
fn statement_has(x: &Stmt) -> bool
    ensures { result ≡ coarray_stmt x.now }
{
    match x {
        Stmt::Plain(_) => false,
        Stmt::Block(list) => items_have(list.item.as_slice()),
        Stmt::If(_, _, body, other) => statement_has(body.get()) || other_has(other),
        Stmt::While(_, _, body) => statement_has(body.get()),
        Stmt::For(_, body) => statement_has(body.get()),
        Stmt::Loop(_, _, body) => statement_has(body.get()),
        Stmt::Task(_, body) => statement_has(body.get()),
        Stmt::Tasks(_, tasks) => tasks_have(tasks.item.as_slice()),
    }
}

#[cycle(coarrays)]
fn items_have(list: &[BlockItem<Boxed<Stmt>>]) -> bool
    ensures { result ≡ list_any coarray_in list.now }
{
    'list: for x in list {
        let has = match x {
            BlockItem::Mapping(_) => false,
            BlockItem::Declaration(d) => declaration_has(d),
            BlockItem::Stmt(s) => statement_has(s.get()),
        };
        if has {
            return true;
        }
    }
    false
}

#[cycle(coarrays)]
fn other_has(other: &Option<(Place, Boxed<Stmt>)>) -> bool
    ensures { result ≡ coarray_else (option_map else_has other.now) }
{
    match other {
        Some((_, other)) => statement_has(other.get()),
        None => false,
    }
}

#[cycle(coarrays)]
fn tasks_have(list: &[(TaskLine, Boxed<Stmt>)]) -> bool
    ensures { result ≡ list_any (λ x. coarray_stmt x.1) list.now }
{
    'list: for (_, body) in list {
        if statement_has(body.get()) {
            return true;
        }
    }
    false
}

fn body_has(list: &[BlockItem<Stmt>]) -> bool
    ensures { result ≡ list_any coarray_in list.now }
{
    'list: for x in list {
        let has = match x {
            BlockItem::Mapping(_) => false,
            BlockItem::Declaration(d) => declaration_has(d),
            BlockItem::Stmt(s) => statement_has(s),
        };
        if has {
            return true;
        }
    }
    false
}

fn top_has(x: &TopItem) -> bool
    ensures { result ≡ coarray_top x.now }
{
    match x {
        TopItem::Mapping(_) => false,
        TopItem::Declaration(d) => declaration_has(d),
        TopItem::Function(f) => body_has(f.body.item.as_slice()),
    }
}

fn has_coarray(t: &Tree) -> bool
    ensures { result ≡ list_any coarray_top t.now.parts }
{
    'parts: for x in t.parts.as_slice() {
        if top_has(x) {
            return true;
        }
    }
    false
}

// ---- the program

fn no_mappings(alloc: Global) -> Mappings
    ensures { result ≡ no_mappings }
{
    Mappings {
        nodes: Items::new(alloc),
        templates: Items::new(alloc),
        distributions: Items::new(alloc),
        aligns: Items::new(alloc),
        shadows: Items::new(alloc),
        loops: Items::new(alloc),
        first_directive: None,
    }
}

fn start_names(alloc: Global, coarray: bool) -> Result<Environment, AllocError>
    ensures { IfOk result (λ names. names ≡ start_names coarray) }
{
    let mut scopes = Scopes::new(alloc);
    let Ok(()) = scopes.open() else {
        return Err(AllocError);
    };
    Ok(Environment {
        coarray,
        region: Region::File,
        scopes,
        arrays: Items::new(alloc),
        functions: Items::new(alloc),
    })
}

fn start_world(alloc: Global, given: Option<u32>, coarray: bool) -> Result<World, AllocError>
    ensures { IfOk result (λ w. w ≡ start_world given coarray) }
{
    let names = start_names(alloc, coarray)?;
    Ok(World {
        given,
        names,
        scalars: Items::new(alloc),
        mappings: no_mappings(alloc),
        deepest: 0,
        functions: Items::new(alloc),
        start: Items::new(alloc),
        broken: Items::new(alloc),
    })
}

/// The walk over a program, for a number of nodes or none: the body of main, and the world after it.
pub fn walk_program(
    alloc: Global,
    t: &Tree,
    given: Option<u32>,
) -> Result<(prog::Stmt, World), AllocError>
    ensures walk { IfOk result (λ r. program_of t.now given ≡ Gave r.0 r.1) }
    ensures count { IfOk result (λ r. r.1.given ≡ given) }
{
    let mut world = start_world(alloc, given, has_coarray(t))?;
    match tops(&mut world, alloc, t.parts.as_slice()) {
        Ok(body) => {
            world.given = given;
            Ok((body, world))
        }
        Err(e) => {
            drop(world);
            Err(e)
        }
    }
}
