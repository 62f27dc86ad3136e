// Loop directives at the stores of all nodes.
ghost use Rattle.xmp_meaning.specs.Handlers.{erased};
ghost use Rattle.xmp_meaning.specs.Runs.{Does};
ghost use Rattle.xmp_meaning.specs.Statements.{stmt_of};
ghost use Rattle.xmp_meaning.specs.Traffic.{node_context};
ghost use Rattle.xmp_nodes.specs.Parts.{loop_all};

use crate::closing::close;
use crate::end::{PartEnd, all_joined};
use crate::part::{own_count, part_end};
use crate::words::words_of;
use xmp_base::NoMemory;
use xmp_meaning::{Flow, Halt};
use xmp_prog::{LoopDirective, ProgParts, Reduction, Stmt};
use xmp_serial::{Interpreter, State};
use xmp_stores::{Deed, Nodes, Saying, Share, Together, raise_turns, say};

/// How many turns each node makes.
#[derive(Drop)]
struct Counting<'a> {
    directive: &'a LoopDirective,
}

impl Share for Counting<'_> {
    ghost use Rattle.std.specs.Prelude.{length};
    ghost use Rattle.xmp_nodes.specs.Nodes.{bounded};
    ghost use Rattle.xmp_nodes.specs.Parts.{own_tuples};

    type Gives = u64;

    ghost gives = { λ share node context s. bounded (length (own_tuples context.program share.directive.now node s)) };

    ghost leaves = { λ share node context s. s };

    fn run(&self, node: u32, at: &Interpreter, state: &mut State) -> Result<u64, NoMemory> {
        own_count(at.alloc, at.layout.program, self.directive, node, state)
    }
}

/// Each node's part, and how it ends.
#[derive(Drop)]
struct Parting<'a> {
    directive: &'a LoopDirective,
    body: &'a Stmt,
}

impl Share for Parting<'_> {
    ghost use Rattle.xmp_meaning.specs.Exchanges.{part_end};
    ghost use Rattle.xmp_meaning.specs.Handlers.{erased};
    ghost use Rattle.xmp_meaning.specs.Runs.{state_of};
    ghost use Rattle.xmp_meaning.specs.Statements.{stmt_of};
    ghost use Rattle.xmp_nodes.specs.Parts.{own_part};

    type Gives = PartEnd;

    ghost gives = { λ share node context s. part_end share.directive.now (own_part context.program share.directive.now (λ _. stmt_of erased context share.body.now) node s) };

    ghost leaves = { λ share node context s. state_of (own_part context.program share.directive.now (λ _. stmt_of erased context share.body.now) node s) };

    fn run(&self, node: u32, at: &Interpreter, state: &mut State) -> Result<PartEnd, NoMemory> {
        part_end(self.directive, self.body, node, at, state)
    }
}

/// What the nodes say of their parts' ends.
#[derive(Drop)]
struct EndsSaid<'a> {
    program: &'a ProgParts,
    directive: &'a LoopDirective,
    ends: &'a [PartEnd],
}

impl Saying for EndsSaid<'_> {
    ghost use Rattle.xmp_meaning.specs.Exchanges.{LoopEnd};
    ghost use Rattle.xmp_meaning.specs.Messages.{message};

    ghost said = { λ all from to. message all.program.now (LoopEnd all.directive.now all.ends.now) from to };

    fn words(&self, from: usize, to: usize) -> u64 {
        words_of(self.ends, from, to)
    }
}

/// What follows at every node.
#[derive(Drop)]
struct Closing<'a> {
    reductions: &'a [Reduction],
    end: &'a PartEnd,
}

impl Deed for Closing<'_> {
    ghost use Rattle.xmp_meaning.specs.LoopEnds.{closed};

    type Gives = Flow;

    ghost does = { λ deed node context. closed deed.reductions.now deed.end.now };

    fn run(&self, node: u32, at: &Interpreter, state: &mut State) -> Result<Flow, Halt> {
        close(self.reductions, self.end, state)
    }
}

/// A loop directive: each node does its part on its own store and says how it ends; the trap of the iteration that comes
/// first ends the run, or the combined values go into the reduction variables of every node.
pub fn run_parts(
    together: &Together,
    directive: &LoopDirective,
    body: &Stmt,
    nodes: &mut Nodes,
) -> Result<Flow, Halt>
    ensures { Does (loop_all together.now.program.now directive.now (λ node. stmt_of erased (node_context together.now.program.now node together.now.input.now) body.now) nodes.old) result nodes.new }
{
    let turns = match together.each_does(&Counting { directive }, nodes) {
        Ok(turns) => turns,
        Err(NoMemory) => return Err(Halt::NoMemory),
    };
    let ends = match together.each_does(&Parting { directive, body }, nodes) {
        Ok(ends) => ends,
        Err(NoMemory) => return Err(Halt::NoMemory),
    };
    raise_turns(&turns, nodes);
    let program = &*together.program;
    let said = EndsSaid {
        program,
        directive,
        ends: &ends,
    };
    say(&said, nodes);
    let reductions = directive.reductions.as_slice();
    let end = match all_joined(together.alloc, program, reductions, ends) {
        Ok(end) => end,
        Err(NoMemory) => return Err(Halt::NoMemory),
    };
    together.all_do(
        &Closing {
            reductions,
            end: &end,
        },
        Flow::Next,
        nodes,
    )
}
