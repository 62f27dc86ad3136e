// Functions and main.
ghost use Rattle.std.specs.Prelude.{◌≡◌, [], Some, map, length, slice_get, slice_set};
ghost use Rattle.xmp_syntax.specs.declared.statement.Stmt.{out-Stmt};
ghost use Rattle.xmp_names.specs.Walk.{Does, Gave, each};
ghost use Rattle.xmp_walk.specs.Program.{enter, function_of, head_of, inside_item, is_int_word, is_main_head, item_of, items_of, last_in, last_item, leave, main_items, main_of, new_function, no_parameters, parameter_of, parameters_in, with_depth};

use crate::blocks::{pushed, statement};
use crate::declarations::{local_declaration, type_of};
use crate::statements::return_of;
use sqlite_items::Items;
use std::alloc::{AllocError, Global};
use xmp_directives::keep_mapping;
use xmp_names::{Meaning, Region, Rule, Signature, World, deeper};
use xmp_prog as prog;
use xmp_syntax::{BlockItem, CommaList, Function, Name, Parameters, Plain, Stmt, TypeWords};

fn parameter_count(parameters: &Option<Parameters>) -> usize
    ensures { result ≡ length (parameters_in parameters.now) }
{
    match parameters {
        Some(Parameters::Named(list)) => list.more.as_slice().len() + 1,
        _ => 0,
    }
}

fn has_no_parameters(parameters: &Option<Parameters>) -> bool
    ensures { result ≡ no_parameters (parameters_in parameters.now) }
{
    match parameters {
        Some(Parameters::Named(_)) => false,
        _ => true,
    }
}

// What is known of a function at its end.
fn with_depth(depth: u32, functions: &Items<Signature>, at: usize) -> Signature
    ensures { result ≡ with_depth depth (slice_get functions.now at) }
{
    match functions.get(at) {
        Some(function) => Signature {
            parameters: function.parameters,
            depth,
        },
        None => Signature {
            parameters: 0,
            depth,
        },
    }
}

fn keep_depth(functions: &mut Items<Signature>, at: usize, depth: u32)
    ensures { functions.new ≡ slice_set functions.old at (with_depth depth (slice_get functions.old at)) }
{
    let known = with_depth(depth, functions, at);
    if at < functions.len() {
        functions.set(at, known);
    }
}

fn parameter_of(world: &mut World, alloc: Global, x: &(TypeWords, Name)) -> Result<u32, AllocError>
    ensures { Does (parameter_of x.now world.old) result world.new }
{
    let (words, name) = x;
    world.declare_scalar(alloc, name, type_of(*words))
}

fn named_parameters(
    world: &mut World,
    alloc: Global,
    list: &CommaList<(TypeWords, Name)>,
) -> Result<Items<u32>, AllocError>
    ensures { Does (each parameter_of (parameters_in (Some (Parameters.Named list.now))) world.old) result world.new }
{
    let mut done = Items::new(alloc);
    let first = parameter_of(world, alloc, &list.first)?;
    done.push(first)?;
    'more: for next in list.more.as_slice() {
        let slot = parameter_of(world, alloc, &next.item)?;
        done.push(slot)?;
    }
    Ok(done)
}

// The parameters of a function, by their slots.
fn parameters(
    world: &mut World,
    alloc: Global,
    parameters: &Option<Parameters>,
) -> Result<Items<u32>, AllocError>
    ensures { Does (each parameter_of (parameters_in parameters.now) world.old) result world.new }
{
    match parameters {
        Some(Parameters::Named(list)) => named_parameters(world, alloc, list),
        _ => Ok(Items::new(alloc)),
    }
}

fn new_function(world: &mut World, count: usize) -> Result<u32, AllocError>
    ensures { Does (new_function count world.old) result world.new }
{
    let Ok(number) = u32::try_from(world.names.functions.len()) else {
        return Err(AllocError);
    };
    world.names.functions.push(Signature {
        parameters: count,
        depth: 0,
    })?;
    Ok(number)
}

// A function begins, which calls nothing so far.
fn enter(world: &mut World, region: Region)
    ensures { enter region world.old ≡ Gave tt world.new }
{
    world.names.region = region;
    world.deepest = 0;
}

// At the end of a function its call depth is known.
fn leave(world: &mut World, function: u32)
    ensures { leave function world.old ≡ Gave tt world.new }
{
    keep_depth(
        &mut world.names.functions,
        function as usize,
        deeper(world.deepest),
    );
    world.names.region = Region::File;
}

// The head of a function, up to its parameters.
fn function_head(
    world: &mut World,
    alloc: Global,
    region: Region,
    f: &Function,
) -> Result<u32, AllocError>
    ensures { Does (head_of region f.now world.old) result world.new }
{
    let number = new_function(world, parameter_count(&f.parameters.item))?;
    world.declare(alloc, &f.name, Meaning::Function(number, type_of(f.ty)))?;
    enter(world, region);
    world.open_scope()?;
    Ok(number)
}

// What stands in the body of a function, an item at a time.
fn body_item(
    world: &mut World,
    alloc: Global,
    done: Items<prog::Stmt>,
    x: &BlockItem<Stmt>,
) -> Result<Items<prog::Stmt>, AllocError>
    ensures { Does (item_of done (inside_item x.now) world.old) result world.new }
{
    match x {
        BlockItem::Mapping(mapping) => {
            keep_mapping(world, alloc, mapping)?;
            Ok(done)
        }
        BlockItem::Declaration(d) => local_declaration(world, alloc, done, d),
        BlockItem::Stmt(s) => {
            let one = statement(world, alloc, s)?;
            let made = pushed(done, one)?;
            Ok(made)
        }
    }
}

fn body(
    world: &mut World,
    alloc: Global,
    list: &[BlockItem<Stmt>],
) -> Result<Items<prog::Stmt>, AllocError>
    ensures { Does (items_of [] (map inside_item list.now) world.old) result world.new }
{
    let mut done = Items::new(alloc);
    'list: for x in list {
        done = body_item(world, alloc, done, x)?;
    }
    Ok(done)
}

/// A function other than main.
pub(crate) fn function_of(world: &mut World, alloc: Global, f: &Function) -> Result<(), AllocError>
    ensures { Does (function_of f.now world.old) result world.new }
{
    let number = function_head(world, alloc, Region::Function, f)?;
    let parameters = parameters(world, alloc, &f.parameters.item)?;
    let body = body(world, alloc, f.body.item.as_slice())?;
    world.close_scope();
    leave(world, number);
    world.functions.push(prog::Function {
        result: type_of(f.ty),
        parameters,
        body: prog::Stmt::Block(body),
    })
}

// ---- main

// The last statement of main.
fn last_statement(world: &mut World, alloc: Global, s: &Stmt) -> Result<prog::Stmt, AllocError>
    ensures { Does (last_in s.now (out-Stmt s.now) world.old) result world.new }
{
    match s {
        Stmt::Plain(Plain::Return(at, value, _)) => return_of(world, alloc, true, *at, value),
        _ => statement(world, alloc, s),
    }
}

fn last_item(
    world: &mut World,
    alloc: Global,
    done: Items<prog::Stmt>,
    x: &BlockItem<Stmt>,
) -> Result<Items<prog::Stmt>, AllocError>
    ensures { Does (item_of done (last_item x.now) world.old) result world.new }
{
    match x {
        BlockItem::Mapping(mapping) => {
            keep_mapping(world, alloc, mapping)?;
            Ok(done)
        }
        BlockItem::Declaration(d) => local_declaration(world, alloc, done, d),
        BlockItem::Stmt(s) => {
            let one = last_statement(world, alloc, s)?;
            let made = pushed(done, one)?;
            Ok(made)
        }
    }
}

fn main_body(
    world: &mut World,
    alloc: Global,
    list: &[BlockItem<Stmt>],
) -> Result<Items<prog::Stmt>, AllocError>
    ensures { Does (items_of [] (main_items list.now) world.old) result world.new }
{
    let mut done = Items::new(alloc);
    let mut left = list.len();
    'list: for x in list {
        if left == 1 {
            return last_item(world, alloc, done, x);
        }
        done = body_item(world, alloc, done, x)?;
        left -= 1;
    }
    Ok(done)
}

/// Main: its body.
pub(crate) fn main_of(
    world: &mut World,
    alloc: Global,
    f: &Function,
) -> Result<prog::Stmt, AllocError>
    ensures { Does (main_of f.now world.old) result world.new }
{
    let number = function_head(world, alloc, Region::Main, f)?;
    world.judge(is_main_head(f), Rule::N7, f.name.at)?;
    let _slots = parameters(world, alloc, &f.parameters.item)?;
    let body = main_body(world, alloc, f.body.item.as_slice())?;
    world.close_scope();
    leave(world, number);
    Ok(prog::Stmt::Block(body))
}

fn is_int_word(words: TypeWords) -> bool
    ensures { result ≡ is_int_word words }
{
    match words {
        TypeWords::Int(_) => true,
        _ => false,
    }
}

// Whether a function is `int main` without parameters.
fn is_main_head(f: &Function) -> bool
    ensures { result ≡ is_main_head f.now }
{
    is_int_word(f.ty)
        && f.name.text.as_slice() == b"main".as_slice()
        && has_no_parameters(&f.parameters.item)
}
