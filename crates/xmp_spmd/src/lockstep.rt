// What all nodes do together, statement by statement.
ghost use Rattle.std.specs.Prelude.{◌≡◌, map};
ghost use Rattle.xmp_meaning.specs.declared.ends.Flow.TheVariants.{Next};
ghost use Rattle.xmp_meaning.specs.Blocks.{block, turns};
ghost use Rattle.xmp_meaning.specs.Loops.{step_up};
ghost use Rattle.xmp_meaning.specs.Handlers.{erased};
ghost use Rattle.xmp_meaning.specs.Runs.{Does};
ghost use Rattle.xmp_meaning.specs.Statements.{plain_of};
ghost use Rattle.xmp_meaning.specs.Traffic.{node_context};
ghost use Rattle.xmp_nodes.specs.Lockstep.{plain_all, steps_left, while_all};
ghost use Rattle.xmp_nodes.specs.Nodes.{all_do};
ghost use Rattle.xmp_spmd.specs.Steps.{all_hold, all_inside, all_of, counted_all, counted_turn, paid_turn};
ghost use Rattle.xmp_spmd.specs.Turns.{Turns, Ups};

use xmp_exchanges::{cast_all, gmove_all, reflect_all};
use xmp_meaning::{Flow, Halt};
use xmp_own_parts::run_parts;
use xmp_prog::{Expr, LoopHead, Plain, Stmt};
use xmp_stores::{Entering, Holding, Inside, Nodes, Plainly, SteppingUp, TakingStep, Together};
use xmp_tasks::run_tasks;

/// A statement at all nodes.
#[cycle(step)]
pub fn step(together: &Together, s: &Stmt, nodes: &mut Nodes) -> Result<Flow, Halt>
    ensures { Does (all_of together.now.program.now together.now.input.now s.now nodes.old) result nodes.new }
{
    match s {
        Stmt::Plain(plain) => step_plain(together, plain, nodes),
        Stmt::Block(all) => step_all(together, all.as_slice(), nodes),
        Stmt::If(e, a, b) => {
            if together.all_do(&Holding { condition: e }, false, nodes)? {
                step(together, a.get(), nodes)
            } else {
                step(together, b.get(), nodes)
            }
        }
        Stmt::While(e, body, _) => uncounted(together, body.get(), e, nodes),
        Stmt::Counted(head, body) => counted(together, body.get(), head, nodes),
        Stmt::Loop(directive, body) => run_parts(together, directive, body.get(), nodes),
        Stmt::Tasks(all, _) => run_tasks(together, all.as_slice(), nodes),
    }
}

/// A statement that holds none: directives are exchanges, and every node does any other by itself.
fn step_plain(together: &Together, s: &Plain, nodes: &mut Nodes) -> Result<Flow, Halt>
    ensures { Does (plain_all together.now.program.now together.now.input.now s.now nodes.old) result nodes.new }
{
    match s {
        Plain::Reflect { arrays, .. } => reflect_all(together, arrays.as_slice(), nodes),
        Plain::Barrier { .. } => Ok(Flow::Next),
        Plain::Cast {
            variables,
            from,
            ..
        } => cast_all(together, variables.as_slice(), from, nodes),
        Plain::Gmove { target, source, .. } => gmove_all(together, target, source, nodes),
        Plain::Declare { .. } => alone(together, s, nodes),
        Plain::Set { .. } => alone(together, s, nodes),
        Plain::Return(_) => alone(together, s, nodes),
        Plain::Call { .. } => alone(together, s, nodes),
        Plain::Print { .. } => alone(together, s, nodes),
        Plain::Scan { .. } => alone(together, s, nodes),
        Plain::Sync { .. } => alone(together, s, nodes),
    }
}

/// Every node does a statement by itself.
fn alone(together: &Together, s: &Plain, nodes: &mut Nodes) -> Result<Flow, Halt>
    ensures { Does (all_do Next (λ node. plain_of erased (node_context together.now.program.now node together.now.input.now) s.now) nodes.old) result nodes.new }
{
    together.all_do(&Plainly { statement: s }, Flow::Next, nodes)
}

/// Statements in order.
#[cycle(step)]
fn step_all(together: &Together, all: &[Stmt], nodes: &mut Nodes) -> Result<Flow, Halt>
    ensures { Does (block (map (all_of together.now.program.now together.now.input.now) all.now) nodes.old) result nodes.new }
{
    'all: for s in all {
        match step(together, s, nodes)? {
            Flow::Next => {}
            Flow::Returned(value) => return Ok(Flow::Returned(value)),
        }
    }
    Ok(Flow::Next)
}

/// How many steps node 0 has left.
fn steps_of(nodes: &Nodes) -> u64
    ensures { result ≡ steps_left nodes.now.stores }
{
    match nodes.stores.as_slice().split_first() {
        Some((first, _)) => first.steps(),
        None => 0,
    }
}

/// An uncounted loop: as many turns as there are steps, and one more, which can't begin.
#[cycle(step)]
fn uncounted(together: &Together, body: &Stmt, test: &Expr, nodes: &mut Nodes) -> Result<Flow, Halt>
    ensures { Does (while_all (all_hold together.now.program.now together.now.input.now test.now) (all_of together.now.program.now together.now.input.now body.now) nodes.old) result nodes.new }
{
    let most = steps_of(nodes);
    match uncounted_turn(together, body, test, nodes) {
        Ok(None) => go_on(together, body, test, most, nodes),
        Ok(Some(flow)) => Ok(flow),
        Err(halt) => Err(halt),
    }
}

/// At most so many turns of an uncounted loop.
#[cycle(step)]
fn go_on(
    together: &Together,
    body: &Stmt,
    test: &Expr,
    most: u64,
    nodes: &mut Nodes,
) -> Result<Flow, Halt>
    ensures { Does (turns most (all_hold together.now.program.now together.now.input.now test.now) (paid_turn together.now.program.now together.now.input.now body.now) nodes.old) result nodes.new }
{
    'turns: for _turn in 0..most {
        match uncounted_turn(together, body, test, nodes) {
            Ok(None) => {}
            Ok(Some(flow)) => return Ok(flow),
            Err(halt) => return Err(halt),
        }
    }
    Ok(Flow::Next)
}

/// A turn of an uncounted loop, or how the loop ends.
#[cycle(step)]
fn uncounted_turn(
    together: &Together,
    body: &Stmt,
    test: &Expr,
    nodes: &mut Nodes,
) -> Result<Option<Flow>, Halt>
    ensures { Turns (all_hold together.now.program.now together.now.input.now test.now) (paid_turn together.now.program.now together.now.input.now body.now) nodes.old result nodes.new }
{
    if !together.all_do(&Holding { condition: test }, false, nodes)? {
        return Ok(Some(Flow::Next));
    }
    together.all_do(&TakingStep {}, (), nodes)?;
    match step(together, body, nodes)? {
        Flow::Next => Ok(None),
        Flow::Returned(value) => Ok(Some(Flow::Returned(value))),
    }
}

/// A counted loop: at most as many turns as its entry at node 0 gives.
#[cycle(step)]
fn counted(
    together: &Together,
    body: &Stmt,
    head: &LoopHead,
    nodes: &mut Nodes,
) -> Result<Flow, Halt>
    ensures { Does (counted_all together.now.program.now together.now.input.now head.now body.now nodes.old) result nodes.new }
{
    let most = together.all_do(&Entering { head }, 0, nodes)?;
    count_up(together, body, head, most, nodes)
}

/// At most so many turns of a counted loop.
#[cycle(step)]
fn count_up(
    together: &Together,
    body: &Stmt,
    head: &LoopHead,
    most: u64,
    nodes: &mut Nodes,
) -> Result<Flow, Halt>
    ensures { Does (turns most (all_inside together.now.program.now together.now.input.now head.now) (counted_turn together.now.program.now together.now.input.now head.now body.now) nodes.old) result nodes.new }
{
    'turns: for _turn in 0..most {
        match counted_turn(together, body, head, nodes) {
            Ok(None) => {}
            Ok(Some(flow)) => return Ok(flow),
            Err(halt) => return Err(halt),
        }
    }
    Ok(Flow::Next)
}

/// A turn of a counted loop, or how the loop ends.
#[cycle(step)]
fn counted_turn(
    together: &Together,
    body: &Stmt,
    head: &LoopHead,
    nodes: &mut Nodes,
) -> Result<Option<Flow>, Halt>
    ensures { Turns (all_inside together.now.program.now together.now.input.now head.now) (counted_turn together.now.program.now together.now.input.now head.now body.now) nodes.old result nodes.new }
{
    if !together.all_do(&Inside { head }, false, nodes)? {
        return Ok(Some(Flow::Next));
    }
    match step(together, body, nodes)? {
        Flow::Next => stepped_up(together, head, nodes),
        Flow::Returned(value) => Ok(Some(Flow::Returned(value))),
    }
}

/// The index goes up at every node.
fn stepped_up(together: &Together, head: &LoopHead, nodes: &mut Nodes) -> Result<Option<Flow>, Halt>
    ensures { Ups (all_do Next (λ node. step_up head.now) nodes.old) result nodes.new }
{
    match together.all_do(&SteppingUp { head }, Flow::Next, nodes)? {
        Flow::Next => Ok(None),
        Flow::Returned(value) => Ok(Some(Flow::Returned(value))),
    }
}
