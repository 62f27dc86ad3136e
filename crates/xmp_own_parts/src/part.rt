// A node's part of a loop directive.
ghost use Rattle.std.specs.Prelude.{◌≡◌, length, map, IfOk};
ghost use Rattle.xmp_meaning.specs.Exchanges.{part_end, values_of};
ghost use Rattle.xmp_meaning.specs.Handlers.{erased};
ghost use Rattle.xmp_meaning.specs.Runs.{Does, state_of};
ghost use Rattle.xmp_meaning.specs.Statements.{stmt_of};
ghost use Rattle.xmp_meaning_laws.specs.Tuples.{for_each};
ghost use Rattle.xmp_prog.specs.Statements.{indices_of};
ghost use Rattle.xmp_nodes.specs.Nodes.{bounded};
ghost use Rattle.xmp_nodes.specs.Parts.{own_part, own_tuples};
ghost use Rattle.xmp_serial.specs.Lines.{context_of};
ghost use Rattle.xmp_own_parts.specs.Walks.{IsNestAt};

use crate::beginning::begin;
use crate::end::{PartEnd, indices_at, values_at};
use crate::nest::Nest;
use crate::places::stands_at;
use crate::walking::Walk;
use sqlite_items::Items;
use std::alloc::Global;
use xmp_base::NoMemory;
use xmp_map::Template;
use xmp_meaning::{End, Flow, Halt};
use xmp_prog::{LoopDirective, ProgParts, Stmt};
use xmp_serial::{Interpreter, State};

/// A loop directive's nest at a node, by these values of the scalars.
fn nest_at<'a>(
    p: &ProgParts,
    template: &'a Template,
    directive: &'a LoopDirective,
    node: u32,
    scalars: &'a [i64],
) -> Nest<'a>
    ensures { IsNestAt p.now template.now directive.now node scalars.now result }
{
    Nest {
        template,
        at: stands_at(&p.grid, node),
        points: directive.points.as_slice(),
        heads: directive.nest.as_slice(),
        scalars,
    }
}

/// How many tuples a node owns, by the scalars of its state, up to the greatest number of 64 bits.
pub fn own_count(
    alloc: Global,
    p: &ProgParts,
    directive: &LoopDirective,
    node: u32,
    state: &State,
) -> Result<u64, NoMemory>
    ensures { IfOk result (λ n. n ≡ bounded (length (own_tuples p.now directive.now node state.now))) }
{
    match p.templates.get(directive.template as usize) {
        Some(template) => {
            let nest = nest_at(p, template, directive, node, state.scalars());
            nest.count(&mut Items::new(alloc))
        }
        None => Ok(0),
    }
}

/// The part: reduction variables begin, and then the body is done for the node's own tuples.
pub fn own_part(
    directive: &LoopDirective,
    body: &Stmt,
    node: u32,
    at: &Interpreter,
    state: &mut State,
) -> Result<Flow, Halt>
    ensures { let context = context_of at.now.layout.now.program.now at.now.layout.now.packed at.now.node at.now.input.now in
        Does (own_part at.now.layout.now.program.now directive.now (λ _. stmt_of erased context body.now) node state.old) result state.new }
{
    begin(
        at.layout.program,
        node,
        directive.reductions.as_slice(),
        state,
    );
    own_turns(directive, body, node, at, state)
}

/// The body for the node's own tuples.
fn own_turns<'a>(
    directive: &'a LoopDirective,
    body: &'a Stmt,
    node: u32,
    at: &'a Interpreter,
    state: &mut State,
) -> Result<Flow, Halt>
    ensures { let context = context_of at.now.layout.now.program.now at.now.layout.now.packed at.now.node at.now.input.now in
        Does (for_each (indices_of directive.now.nest) (own_tuples at.now.layout.now.program.now directive.now node state.old) (stmt_of erased context body.now) state.old) result state.new }
{
    let p = &*at.layout.program;
    let template = match p.templates.get(directive.template as usize) {
        Some(template) => template,
        None => return Ok(Flow::Next),
    };
    let scalars = match Items::from_slice(at.alloc, state.scalars()) {
        Ok(scalars) => scalars,
        Err(_) => return Err(Halt::NoMemory),
    };
    let nest = nest_at(p, template, directive, node, scalars.as_slice());
    Walk { nest, body, at }.over(&mut Items::new(at.alloc), state)
}

/// The part, and how it ends.
pub fn part_end(
    directive: &LoopDirective,
    body: &Stmt,
    node: u32,
    at: &Interpreter,
    state: &mut State,
) -> Result<PartEnd, NoMemory>
    ensures gives { let context = context_of at.now.layout.now.program.now at.now.layout.now.packed at.now.node at.now.input.now in
        IfOk result (λ end. end ≡ part_end directive.now (own_part at.now.layout.now.program.now directive.now (λ _. stmt_of erased context body.now) node state.old)) }
    ensures leaves { let context = context_of at.now.layout.now.program.now at.now.layout.now.packed at.now.node at.now.input.now in
        IfOk result (λ end. state.new ≡ state_of (own_part at.now.layout.now.program.now directive.now (λ _. stmt_of erased context body.now) node state.old)) }
{
    let ended = match own_part(directive, body, node, at, state) {
        Ok(_) => None,
        Err(Halt::End(end)) => Some(end),
        Err(Halt::NoMemory) => return Err(NoMemory),
    };
    end_at(at.alloc, directive, ended, state)
}

/// The end of a part, by why it ended early.
fn end_at(
    alloc: Global,
    directive: &LoopDirective,
    ended: Option<End>,
    state: &State,
) -> Result<PartEnd, NoMemory>
    ensures { IfOk result (λ end. end ≡ record {
      ended = ended;
      indices = values_of state.now (indices_of directive.now.nest);
      values = values_of state.now (map (λ r. r.variable.number) directive.now.reductions);
    }) }
{
    let indices = indices_at(alloc, directive.nest.as_slice(), state)?;
    let values = values_at(alloc, directive.reductions.as_slice(), state)?;
    Ok(PartEnd {
        ended,
        indices,
        values,
    })
}
