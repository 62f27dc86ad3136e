// Sets of nodes, as bits.
ghost use Rattle.std.specs.Prelude.{◌≡◌};
ghost use Rattle.xmp_loops.specs.Objects.{is_in_grid, is_in_set, nodes_in, nodes_of};

use xmp_map::{Grid, NodeSet};

fn is_in_set(grid: &Grid, set: &NodeSet, node: u32) -> bool
    ensures { result ≡ is_in_set grid.now set.now node }
{
    node < grid.count() && set.has(grid, node)
}

/// The nodes of a node set.
pub fn nodes_in(grid: &Grid, set: &NodeSet) -> u16
    ensures { result ≡ nodes_in grid.now set.now }
{
    let mut nodes: u32 = 0;
    let mut bit: u32 = 1;
    'nodes: for node in 0..16 {
        if is_in_set(grid, set, node) {
            nodes += bit;
        }
        bit *= 2;
    }
    nodes as u16
}

fn is_in_grid(grid: &Grid, node: u32) -> bool
    ensures { result ≡ is_in_grid grid.now node }
{
    node < grid.count()
}

/// All nodes of a grid.
pub fn nodes_of(grid: &Grid) -> u16
    ensures { result ≡ nodes_of grid.now }
{
    let mut nodes: u32 = 0;
    let mut bit: u32 = 1;
    'nodes: for node in 0..16 {
        if is_in_grid(grid, node) {
            nodes += bit;
        }
        bit *= 2;
    }
    nodes as u16
}
