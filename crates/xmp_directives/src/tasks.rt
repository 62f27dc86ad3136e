// The lines of tasks: the set of each, which shares no node with those before it in the same `tasks`.
ghost use Rattle.std.specs.Prelude.{◌≡◌, ◌<◌, ◌+◌, ◌&&◌, nat_lt, not};
ghost use Rattle.std.specs.List.{list_all};
ghost use Rattle.xmp_names.specs.Walk.{Does};
ghost use Rattle.xmp_directives.specs.Directives.{share, task_line};

use crate::directives::node_set;
use std::alloc::{AllocError, Global};
use xmp_map::NodeSet;
use xmp_names::{Rule, World};
use xmp_syntax::TaskLine;

/// The line of a task behind others of the same `tasks`, whose sets come first.
pub fn task_line(
    world: &mut World,
    alloc: Global,
    before: &[NodeSet],
    line: &TaskLine,
) -> Result<NodeSet, AllocError>
    ensures { Does (task_line before.now line.now world.old) result world.new }
{
    world.directive_at(line.line.word)?;
    let nodes = node_set(world, alloc, false, line.line.word, &line.set)?;
    world.judge(is_apart(before, nodes), Rule::M9, line.line.word)?;
    Ok(nodes)
}

fn share(a: NodeSet, b: NodeSet) -> bool
    ensures { result ≡ share a b }
{
    let [first_x, first_y, first_z] = a.first;
    let [many_x, many_y, many_z] = a.many;
    let [other_x, other_y, other_z] = b.first;
    let [count_x, count_y, count_z] = b.many;
    let x = overlap(first_x, many_x, other_x, count_x);
    let y = overlap(first_y, many_y, other_y, count_y);
    let z = overlap(first_z, many_z, other_z, count_z);
    x && y && z
}

// Whether two ranges of nodes overlap.
fn overlap(first: u32, many: u32, other: u32, count: u32) -> bool
    ensures { result ≡ (nat_lt first (other + count) && nat_lt other (first + many)) }
{
    u64::from(first) < u64::from(other) + u64::from(count)
        && u64::from(other) < u64::from(first) + u64::from(many)
}

fn is_apart(before: &[NodeSet], nodes: NodeSet) -> bool
    ensures { result ≡ list_all (λ other. not (share other nodes)) before.now }
{
    'sets: for other in before {
        if share(*other, nodes) {
            return false;
        }
    }
    true
}
