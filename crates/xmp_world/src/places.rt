// The cells of a distributed array by their row-major numbers: who owns each, and where it stands in its owner's store.
ghost use Rattle.std.specs.Prelude.{◌≡◌, ◌<◌, ◌≤◌, ◌+◌, ◌*◌, ℕ, IsTrue, slice_index};
ghost use Rattle.xmp_base.specs.Limits.{cell_limit};
ghost use Rattle.xmp_map.specs.RowMajor.{product, unravel};
ghost use Rattle.xmp_map.specs.Boxes.{IsInside};
ghost use Rattle.xmp_map.specs.Held as held;
ghost use Rattle.xmp_world.specs.Gathering.{kept_before};

use xmp_map::{ArrayMap, Cell};

/// A node, and how many cells before the next one it holds.
#[derive(Clone, Copy)]
pub struct Owner {
    pub node: u32,
    pub kept: u32,
}

/// How many subscripts there are in each of three dimensions.
pub fn extents(m: &ArrayMap) -> [u32; 3]
    ensures extents { result ≡ held.extents m.now }
    ensures pair { slice_index result 0 * slice_index result 1 ≤ cell_limit }
    ensures small { product result ≤ cell_limit }
{
    [
        m.aligned[0].extent,
        m.aligned[1].extent,
        m.aligned[2].extent,
    ]
}

/// How many cells a box has.
pub fn cell_count(sizes: &[u32; 3]) -> u32
    requires pair { slice_index sizes.now 0 * slice_index sizes.now 1 ≤ cell_limit }
    requires small { product sizes.now ≤ cell_limit }
    ensures { result ≡ product sizes.now }
{
    let [planes, rows, columns] = *sizes;
    planes * rows * columns
}

/// The cell of a number.
fn cell_of(sizes: &[u32; 3], n: u32) -> Cell
    requires below { n < product sizes.now }
    requires small { product sizes.now ≤ cell_limit }
    ensures subscripts { result.at ≡ unravel sizes.now n }
    ensures inside { IsInside result.at sizes.now }
{
    let [_, rows, columns] = *sizes;
    let rest = n % (rows * columns);
    Cell {
        at: [n / (rows * columns), rest / columns, rest % columns],
    }
}

/// The owner of the cell of a number, and the slot there; from a node, and how many cells before this one it holds. The
/// slot is asked for only where the owner is another.
pub fn place(m: &ArrayMap, sizes: &[u32; 3], n: u32, last: Owner) -> Owner
    requires sizes { sizes.now ≡ held.extents m.now }
    requires below { n < product sizes.now }
    requires small { product sizes.now ≤ cell_limit }
    requires last { last.kept ≡ kept_before m.now last.node n }
    ensures node { result.node < held.node_count m.now }
    ensures owns { IsTrue (held.owns m.now result.node (unravel sizes.now n)) }
    ensures only { (other : ℕ) → other < held.node_count m.now → IsTrue (held.owns m.now other (unravel sizes.now n)) → other ≡ result.node }
    ensures slot { result.kept ≡ held.slot m.now result.node (unravel sizes.now n) }
    ensures next { kept_before m.now result.node (n + 1) ≡ result.kept + 1 }
    ensures most { result.kept ≤ n }
{
    let cell = cell_of(sizes, n);
    let node = m.owner_of(&cell);
    if node == last.node {
        return last;
    }
    match m.slot(node, &cell) {
        Some(kept) => Owner { node, kept },
        None => unreachable!(),
    }
}
