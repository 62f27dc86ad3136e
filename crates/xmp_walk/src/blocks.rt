// Statements with statements inside.
ghost use Rattle.std.specs.Prelude.{◌≡◌, ◌<◌, ◌∷◌, ◌++◌, ◌+◌, ◌&&◌, [], IfOk, IsErr, MatchResult, length, map, nat_lt, not};
ghost use Rattle.std.specs.List.{list_all};
ghost use Rattle.std.specs.Option.{option_map};
ghost use Rattle.xmp_prog.specs.declared.statements.Stmt.TheVariants as stmt;
ghost use Rattle.xmp_names.specs.Walk.{Does, and_then, close_scope, pure, typed};
ghost use Rattle.xmp_directives.specs.Directives.{judged_loop, lone_task, made_task, nest_of, share, task_line, tasks_of};
ghost use Rattle.xmp_walk.specs.Program.{loop_directive, block_of, else_step, inside_item, plain_of, stmt_of, task_step};
ghost use Rattle.xmp_walk.specs.Statements.{else_of, for_of, for_parts, if_of, loop_of, while_of};

use crate::declarations::local_declaration;
use crate::loops::{ForParts, boxed_typed, for_parts, loop_of, while_statement};
use crate::statements::{print, return_of, scan, simple, sync};
use sqlite_items::{Boxed, Items};
use std::alloc::{AllocError, Global};
use xmp_base::Place;
use xmp_directives::{
    LoopParts, barrier, bcast, gmove, judged_loop, keep_mapping, loop_line, nest_of, reflect,
    task_line,
};
use xmp_map::NodeSet;
use xmp_names::{Operand, World};
use xmp_prog as prog;
use xmp_syntax::{BlockItem, DirectiveLine, Expr, ForHead, LoopLine, Plain, Stmt, TaskLine};

/// A statement with no statement inside.
pub(crate) fn plain(world: &mut World, alloc: Global, x: &Plain) -> Result<prog::Stmt, AllocError>
    ensures { Does (plain_of x.now world.old) result world.new }
{
    match x {
        Plain::Empty(_) => Ok(prog::Stmt::Block(Items::new(alloc))),
        Plain::Simple(x, _) => simple(world, alloc, x),
        Plain::Return(at, x, _) => return_of(world, alloc, false, *at, x),
        Plain::Print(at, x, _) => print(world, alloc, *at, &x.item.0, x.item.1.as_slice()),
        Plain::Scan(at, x, _) => scan(world, alloc, *at, &x.item.0, &x.item.3),
        Plain::Sync(at, x, _) => sync(world, alloc, *at, &x.item.1),
        Plain::Reflect(line, names) => reflect(world, alloc, *line, &names.item),
        Plain::Barrier(line) => barrier(world, *line),
        Plain::Bcast(line, names, _, set) => bcast(world, alloc, *line, &names.item, set),
        Plain::Gmove(line, target, _, source, _) => gmove(world, alloc, *line, target, source),
    }
}

/// A statement, and what stands in it.
#[cycle(statement)]
pub(crate) fn statement(
    world: &mut World,
    alloc: Global,
    x: &Stmt,
) -> Result<prog::Stmt, AllocError>
    ensures { Does (stmt_of x.now world.old) result world.new }
{
    match x {
        Stmt::Plain(x) => plain(world, alloc, x),
        Stmt::Block(list) => block(world, alloc, list.item.as_slice()),
        Stmt::If(_, test, body, other) => {
            let begun = if_begun(world, alloc, body.get(), &test.item)?;
            let no = else_of(world, alloc, other);
            if_made(alloc, begun, no)
        }
        Stmt::While(at, test, body) => while_loop(world, alloc, body.get(), *at, &test.item),
        Stmt::For(head, body) => for_loop(world, alloc, body.get(), head),
        Stmt::Loop(line, head, body) => loop_statement(world, alloc, body.get(), line, head),
        Stmt::Task(line, body) => lone_task(world, alloc, body.get(), line),
        Stmt::Tasks(line, list) => tasks(world, alloc, list.item.as_slice(), *line),
    }
}

#[cycle(statement)]
fn block(
    world: &mut World,
    alloc: Global,
    list: &[BlockItem<Boxed<Stmt>>],
) -> Result<prog::Stmt, AllocError>
    ensures { Does (block_of (map inside_item list.now) world.old) result world.new }
{
    world.open_scope()?;
    let mut done = Items::new(alloc);
    // Each arm goes on by itself: what it did is lost where arms join.
    'list: for x in list {
        match x {
            BlockItem::Mapping(mapping) => {
                keep_mapping(world, alloc, mapping)?;
                continue;
            }
            BlockItem::Declaration(d) => {
                done = local_declaration(world, alloc, done, d)?;
                continue;
            }
            BlockItem::Stmt(body) => {
                let one = statement(world, alloc, body.get())?;
                done = pushed(done, one)?;
                continue;
            }
        }
    }
    world.close_scope();
    Ok(prog::Stmt::Block(done))
}

#[cycle(statement)]
fn else_of(
    world: &mut World,
    alloc: Global,
    other: &Option<(Place, Boxed<Stmt>)>,
) -> Result<prog::Stmt, AllocError>
    ensures { Does (else_of (option_map else_step other.now) world.old) result world.new }
{
    match other {
        Some((_, other)) => statement(world, alloc, other.get()),
        None => Ok(prog::Stmt::Block(Items::new(alloc))),
    }
}

// The condition of an `if`, and the statement for where it isn't 0.
#[cycle(statement)]
fn if_begun(
    world: &mut World,
    alloc: Global,
    body: &Stmt,
    test: &Expr,
) -> Result<(Boxed<Operand>, Boxed<prog::Stmt>), AllocError>
    ensures { Does (and_then (typed test.now world.old) (λ t. λ w. and_then (stmt_of body.now w) (λ a. pure (t, a)))) result world.new }
{
    let test = boxed_typed(world, alloc, test)?;
    let made = statement(world, alloc, body)?;
    let yes = Boxed::new(alloc, made)?;
    Ok((test, yes))
}

#[cycle(statement)]
fn while_loop(
    world: &mut World,
    alloc: Global,
    body: &Stmt,
    at: Place,
    test: &Expr,
) -> Result<prog::Stmt, AllocError>
    ensures { Does (while_of at test.now (stmt_of body.now) world.old) result world.new }
{
    let test = boxed_typed(world, alloc, test)?;
    let body = statement(world, alloc, body);
    while_made(alloc, test, body, at)
}

#[cycle(statement)]
fn for_loop(
    world: &mut World,
    alloc: Global,
    body: &Stmt,
    head: &ForHead,
) -> Result<prog::Stmt, AllocError>
    ensures { Does (for_of head.now (stmt_of body.now) world.old) result world.new }
{
    let parts = for_parts(world, alloc, head)?;
    let body = statement(world, alloc, body);
    for_made(world, alloc, head, parts, body)
}

#[cycle(statement)]
fn loop_statement(
    world: &mut World,
    alloc: Global,
    body: &Stmt,
    line: &LoopLine,
    head: &ForHead,
) -> Result<prog::Stmt, AllocError>
    ensures { Does (loop_directive line.now head.now (stmt_of body.now) world.old) result world.new }
{
    let parts = loop_line(world, alloc, line)?;
    let made = for_loop(world, alloc, body, head);
    loop_made(world, alloc, line.line.word, parts, made)
}

// The end of a `for`, whose body may have failed.
fn for_made(
    world: &mut World,
    alloc: Global,
    head: &ForHead,
    parts: ForParts,
    body: Result<prog::Stmt, AllocError>,
) -> Result<prog::Stmt, AllocError>
    ensures { MatchResult body (λ b. Does (and_then (close_scope world.old) (λ _. pure (loop_of head.now parts b))) result world.new) (λ _. IsErr result) }
{
    match body {
        Ok(body) => {
            world.close_scope();
            let body = Boxed::new(alloc, body)?;
            loop_of(alloc, head, parts, body)
        }
        Err(e) => Err(e),
    }
}

// The end of a loop directive, whose `for` may have failed.
fn loop_made(
    world: &mut World,
    alloc: Global,
    word: Place,
    parts: LoopParts,
    made: Result<prog::Stmt, AllocError>,
) -> Result<prog::Stmt, AllocError>
    ensures { MatchResult made (λ loop. Does (judged_loop word parts (nest_of (length parts.names) loop) world.old) result world.new) (λ _. IsErr result) }
{
    match made {
        Ok(made) => nest_made(world, alloc, word, parts, made),
        Err(e) => Err(e),
    }
}

fn nest_made(
    world: &mut World,
    alloc: Global,
    word: Place,
    parts: LoopParts,
    made: prog::Stmt,
) -> Result<prog::Stmt, AllocError>
    ensures { Does (judged_loop word parts (nest_of (length parts.names) made) world.old) result world.new }
{
    let made = Boxed::new(alloc, made)?;
    let nest = nest_of(alloc, parts.names.len(), made)?;
    judged_loop(world, alloc, word, parts, nest)
}

// ---- tasks

#[cycle(statement)]
fn lone_task(
    world: &mut World,
    alloc: Global,
    body: &Stmt,
    line: &TaskLine,
) -> Result<prog::Stmt, AllocError>
    ensures { Does (lone_task line.now (stmt_of body.now) world.old) result world.new }
{
    let nodes = task_line(world, alloc, &[], line)?;
    let body = statement(world, alloc, body);
    task_made(alloc, nodes, body, line.line.word)
}

#[cycle(statement)]
fn tasks(
    world: &mut World,
    alloc: Global,
    list: &[(TaskLine, Boxed<Stmt>)],
    line: DirectiveLine,
) -> Result<prog::Stmt, AllocError>
    ensures { Does (tasks_of line (map task_step list.now) world.old) result world.new }
{
    world.directive_at(line.word)?;
    let mut before = Items::new(alloc);
    let mut done = Items::new(alloc);
    'list: for (head, body) in list {
        let nodes = task_line(world, alloc, before.as_slice(), head)?;
        before.push(nodes)?;
        let body = statement(world, alloc, body.get())?;
        done = task_pushed(done, nodes, body, head.line.word)?;
    }
    Ok(prog::Stmt::Tasks(done, line.word))
}

fn task_pushed(
    mut done: Items<prog::Task>,
    nodes: NodeSet,
    body: prog::Stmt,
    at: Place,
) -> Result<Items<prog::Task>, AllocError>
    ensures { IfOk result (λ l. l ≡ done ++ made_task nodes body at ∷ []) }
{
    done.push(prog::Task { nodes, body, at })?;
    Ok(done)
}

pub(crate) fn pushed(
    mut done: Items<prog::Stmt>,
    one: prog::Stmt,
) -> Result<Items<prog::Stmt>, AllocError>
    ensures { IfOk result (λ l. l ≡ done ++ one ∷ []) }
{
    done.push(one)?;
    Ok(done)
}

fn if_made(
    alloc: Global,
    begun: (Boxed<Operand>, Boxed<prog::Stmt>),
    no: Result<prog::Stmt, AllocError>,
) -> Result<prog::Stmt, AllocError>
    ensures { MatchResult no (λ b. IfOk result (λ s. s ≡ stmt.If begun.0.made begun.1 b)) (λ _. IsErr result) }
{
    let (test, yes) = begun;
    match no {
        Ok(no) => if_of_parts(alloc, test, yes, no),
        Err(e) => Err(e),
    }
}

fn if_of_parts(
    alloc: Global,
    test: Boxed<Operand>,
    yes: Boxed<prog::Stmt>,
    no: prog::Stmt,
) -> Result<prog::Stmt, AllocError>
    ensures { IfOk result (λ s. s ≡ stmt.If test.made yes no) }
{
    let no = Boxed::new(alloc, no)?;
    let Operand { made, .. } = test.into_inner();
    Ok(prog::Stmt::If(made, yes, no))
}

fn while_made(
    alloc: Global,
    test: Boxed<Operand>,
    body: Result<prog::Stmt, AllocError>,
    at: Place,
) -> Result<prog::Stmt, AllocError>
    ensures { MatchResult body (λ b. IfOk result (λ s. s ≡ stmt.While test.made b at)) (λ _. IsErr result) }
{
    match body {
        Ok(body) => {
            let Operand { made, .. } = test.into_inner();
            while_statement(alloc, made, body, at)
        }
        Err(e) => Err(e),
    }
}

// A task by itself.
fn task_made(
    alloc: Global,
    nodes: NodeSet,
    body: Result<prog::Stmt, AllocError>,
    at: Place,
) -> Result<prog::Stmt, AllocError>
    ensures { MatchResult body (λ b. IfOk result (λ s. s ≡ stmt.Tasks (made_task nodes b at ∷ []) at)) (λ _. IsErr result) }
{
    match body {
        Ok(body) => {
            let list = task_pushed(Items::new(alloc), nodes, body, at)?;
            Ok(prog::Stmt::Tasks(list, at))
        }
        Err(e) => Err(e),
    }
}
