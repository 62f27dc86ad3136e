// A bcast of scalars.
ghost use Rattle.std.specs.Prelude.{◌≡◌, IfOk, map};
ghost use Rattle.std.specs.List.{range_with_len};
ghost use Rattle.xmp_prog.specs.Fits.{node_count};
ghost use Rattle.xmp_prog.specs.NodeSets.{has_node};
ghost use Rattle.xmp_meaning.specs.LoopEnds.{set_all};
ghost use Rattle.xmp_meaning.specs.Runs.{Does};
ghost use Rattle.xmp_nodes.specs.Casting.{cast_all, cast_values};
ghost use Rattle.xmp_exchanges.specs.Casts.{cast_said};
ghost use Rattle.xmp_exchanges.specs.Told.{AreMany};

use crate::leader::{leader, members};
use crate::many::are_many;
use crate::values::{set_all, values_of};
use sqlite_items::Items;
use std::alloc::Global;
use xmp_base::NoMemory;
use xmp_map::NodeSet;
use xmp_meaning::{Flow, Halt};
use xmp_prog::{Name, ProgParts};
use xmp_serial::{Interpreter, State};
use xmp_stores::{Deed, Nodes, Saying, Together, say};

/// What a bcast says: these values by each node that is a member of its set.
#[derive(Drop)]
pub struct Casting<'a> {
    pub members: &'a [bool],
    pub values: &'a [i64],
}

impl Saying for Casting<'_> {
    ghost said = { λ c from to. cast_said c.members.now c.values.now from to };

    fn words(&self, from: usize, _to: usize) -> u64 {
        match self.members.get(from) {
            None => 0,
            Some(is) => { if *is { self.values.len() as u64 } else { 0 } }
        }
    }
}

/// The variables are set to these values.
#[derive(Drop)]
pub struct Setting<'a> {
    pub variables: &'a [Name],
    pub values: &'a [i64],
}

impl Deed for Setting<'_> {
    type Gives = Flow;

    ghost does = { λ d node c. set_all d.variables.now d.values.now };

    fn run(&self, node: u32, at: &Interpreter, state: &mut State) -> Result<Flow, Halt> {
        Ok(set_all(self.variables, self.values, state))
    }
}

/// The values of the variables at the source. Want of memory is answered also where there is no such node.
fn cast_values(
    alloc: Global,
    program: &ProgParts,
    variables: &[Name],
    from: &NodeSet,
    nodes: &Nodes,
) -> Result<Items<i64>, NoMemory>
    ensures { IfOk result (λ values. values ≡ cast_values program.now variables.now from.now nodes.now) }
{
    let Some(source) = leader(&program.grid, from) else {
        return Err(NoMemory);
    };
    match nodes.stores.get(source as usize) {
        None => Err(NoMemory),
        Some(state) => {
            let values = values_of(alloc, state, variables)?;
            Ok(values)
        }
    }
}

/// The members of the set say these values, and every node takes them.
fn cast_by(
    together: &Together,
    variables: &[Name],
    members: &[bool],
    values: &[i64],
    from: &NodeSet,
    nodes: &mut Nodes,
) -> Result<Flow, Halt>
    requires many { AreMany nodes.old (node_count together.now.program.now) }
    requires members { members.now ≡ map (has_node together.now.program.now.grid from.now) (range_with_len 0 (node_count together.now.program.now)) }
    requires values { values.now ≡ cast_values together.now.program.now variables.now from.now nodes.old }
    ensures { Does (cast_all together.now.program.now variables.now from.now nodes.old) result nodes.new }
{
    say(&Casting { members, values }, nodes);
    together.all_do(&Setting { variables, values }, Flow::Next, nodes)
}

/// The values of the variables at the source, which says them, and every node takes them.
pub fn cast_all(
    together: &Together,
    variables: &[Name],
    from: &NodeSet,
    nodes: &mut Nodes,
) -> Result<Flow, Halt>
    ensures { Does (cast_all together.now.program.now variables.now from.now nodes.old) result nodes.new }
{
    let grid = &together.program.grid;
    if !are_many(nodes, grid.count() as usize) {
        return Err(Halt::NoMemory);
    }
    let Ok(values) = cast_values(together.alloc, together.program, variables, from, nodes) else {
        return Err(Halt::NoMemory);
    };
    match members(together.alloc, grid, from) {
        Ok(members) => {
            let members = members.as_slice();
            cast_by(together, variables, members, values.as_slice(), from, nodes)
        }
        Err(NoMemory) => Err(Halt::NoMemory),
    }
}
