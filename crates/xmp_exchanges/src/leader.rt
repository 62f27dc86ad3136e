// The node that tells for a set of nodes, and which nodes are members.
ghost use Rattle.std.specs.Prelude.{◌≡◌, ◌+◌, ◌*◌, ◌<◌, ◌++◌, ◌∷◌, [], IfOk, IfSome, OnOk, map};
ghost use Rattle.std.specs.List.{range_with_len};
ghost use Rattle.xmp_map.specs.RowMajor.{product, row_major};
ghost use Rattle.xmp_prog.specs.NodeSets.{has_node};

use sqlite_items::Items;
use std::alloc::Global;
use xmp_base::NoMemory;
use xmp_map::{Grid, NodeSet};

fn number(so_far: u64, size: u32, x: u32) -> Option<u64>
    ensures { IfSome result (λ n. n ≡ so_far * size + x) }
{
    so_far
        .checked_mul(u64::from(size))?
        .checked_add(u64::from(x))
}

/// The least node of a set, where 64 bits hold its number.
pub fn leader(grid: &Grid, set: &NodeSet) -> Option<u64>
    ensures { IfSome result (λ n. n ≡ row_major grid.now.sizes set.now.first) }
{
    let [_, rows, columns] = grid.sizes;
    let [x, y, z] = set.first;
    number(number(u64::from(x), rows, y)?, columns, z)
}

fn has_node(grid: &Grid, set: &NodeSet, node: u32) -> bool
    requires { node < product grid.now.sizes }
    ensures { result ≡ has_node grid.now set.now node }
{
    set.has(grid, node)
}

fn push(all: &mut Items<bool>, is: bool) -> Result<(), NoMemory>
    ensures { OnOk result (all.new ≡ all.old ++ is ∷ []) }
{
    all.push(is).map_err(|_| NoMemory)
}

/// Which nodes are members of a set.
pub fn members(alloc: Global, grid: &Grid, set: &NodeSet) -> Result<Items<bool>, NoMemory>
    ensures { IfOk result (λ all. all ≡ map (has_node grid.now set.now) (range_with_len 0 (product grid.now.sizes))) }
{
    let mut all = Items::new(alloc);
    'nodes: for node in 0..grid.count() {
        push(&mut all, has_node(grid, set, node))?;
    }
    Ok(all)
}
