// A run of all nodes.
ghost use Rattle.std.specs.Prelude.{◌≡◌, IfOk, None};
ghost use Rattle.xmp_base.specs.First.{IsFirst};
ghost use Rattle.xmp_prog.specs.declared.parts.Kind.TheVariants.{Global as OneView};
ghost use Rattle.xmp_meaning.specs.declared.ends.Flow.TheVariants.{Next};
ghost use Rattle.xmp_meaning.specs.Blocks.{then_run};
ghost use Rattle.xmp_meaning.specs.Handlers.{erased};
ghost use Rattle.xmp_meaning.specs.Programs.{starts};
ghost use Rattle.xmp_meaning.specs.Runs.{Does};
ghost use Rattle.xmp_meaning.specs.Traffic.{node_context};
ghost use Rattle.xmp_flow.specs.Program.{FlowBreaks};
ghost use Rattle.xmp_nodes.specs.Lockstep.{nodes_end};
ghost use Rattle.xmp_nodes.specs.Nodes.{all_do};
ghost use Rattle.xmp_nodes.specs.Stands.{StandsFor};
ghost use Rattle.xmp_nodes.specs.Worlds.{world_after};
ghost use Rattle.xmp_spmd.specs.Steps.{all_of};

use crate::ending::world_of;
use crate::lockstep::step;
use std::alloc::Global;
use xmp_base::NoMemory;
use xmp_meaning::{Flow, Halt};
use xmp_nodes::{has_axes, nodes_carry_out};
use xmp_prog::{Prog, ProgParts};
use xmp_stores::{Nodes, Starting, Together, layouts_of};
use xmp_world::World;

/// The initialisers at file scope at every node, and then main's statement.
fn run(together: &Together, nodes: &mut Nodes) -> Result<Flow, Halt>
    ensures { Does (then_run (all_do Next (λ node. starts erased (node_context together.now.program.now node together.now.input.now) together.now.program.now.start)) (all_of together.now.program.now together.now.input.now together.now.program.now.body) nodes.old) result nodes.new }
{
    match together.all_do(&Starting {}, Flow::Next, nodes)? {
        Flow::Next => step(together, &together.program.body, nodes),
        Flow::Returned(value) => Ok(Flow::Returned(value)),
    }
}

/// The same of a program's parts.
fn run_parts(
    alloc: Global,
    program: &ProgParts,
    input: &[u8],
    steps: u64,
) -> Result<World, NoMemory>
    ensures { IfOk result (λ w. w ≡ world_after (nodes_end program.now input.now steps)) }
{
    let layouts = layouts_of(alloc, program)?;
    let together = Together {
        alloc,
        program,
        layouts: layouts.as_slice(),
        input,
    };
    let mut nodes = together.beginning(steps)?;
    let ended = run(&together, &mut nodes);
    let Ok(arrays) = u32::try_from(program.arrays.len()) else {
        return Err(NoMemory);
    };
    world_of(alloc, arrays, ended, nodes)
}

/// Runs a program of one view on the stores of its nodes, in step: each node holds its own cells, and the nodes exchange words at
/// directives. What they come to is the definition's, also where the program traps, and it stands for the program. Want of memory is
/// answered also where 64 bits don't hold a number of cells, which no program has that fits.
pub fn run_stores(alloc: Global, p: &Prog, input: &[u8], steps: u64) -> Result<World, NoMemory>
    requires kind { p.now.kind ≡ OneView }
    requires unbroken { IsFirst (FlowBreaks p.now) None }
    ensures found { IfOk result (λ w. w ≡ world_after (nodes_end p.now input.now steps)) }
    ensures stands { IfOk result (λ w. StandsFor p.now input.now steps w) }
{
    nodes_carry_out();
    has_axes(p.parts());
    run_parts(alloc, p.parts(), input, steps)
}
