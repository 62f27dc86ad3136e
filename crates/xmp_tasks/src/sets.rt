// The nodes of a task.
ghost use Rattle.std.specs.Prelude.{◌≡◌, ◌+◌, ◌&&◌, [], ◌∷◌, nat_le, nat_lt};
ghost use Rattle.xmp_map.specs.Nodes.{in_box};
ghost use Rattle.xmp_map.specs.RowMajor.{row_major, unravel};
ghost use Rattle.xmp_prog.specs.NodeSets.{has_node};

use xmp_map::{Grid, NodeSet};

/// The least node of a set.
pub fn leader(grid: &Grid, set: &NodeSet) -> usize
    ensures { result ≡ row_major grid.now.sizes set.now.first }
{
    let [_, rows, columns] = grid.sizes;
    let [x, y, z] = set.first;
    let row = (x as usize) * (rows as usize) + (y as usize);
    row * (columns as usize) + (z as usize)
}

fn lies_in(x: usize, first: u32, many: u32) -> bool
    ensures { result ≡ (nat_le first x && nat_lt x (first + many)) }
{
    let first = first as usize;
    first <= x && x - first < (many as usize)
}

fn lies_in_box(x: usize, y: usize, z: usize, set: &NodeSet) -> bool
    ensures { result ≡ in_box set.now.first set.now.many (x ∷ y ∷ z ∷ []) }
{
    let [first_x, first_y, first_z] = set.first;
    let [many_x, many_y, many_z] = set.many;
    lies_in(x, first_x, many_x) && lies_in(y, first_y, many_y) && lies_in(z, first_z, many_z)
}

/// Whether a node is a member of a set.
pub fn has_node(grid: &Grid, set: &NodeSet, node: usize) -> bool
    ensures { result ≡ has_node grid.now set.now node }
{
    let [_, rows, columns] = grid.sizes;
    let columns = columns as usize;
    let plane = (rows as usize) * columns;
    let rest = node % plane;
    lies_in_box(node / plane, rest / columns, rest % columns, set)
}
