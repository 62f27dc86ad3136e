// A node's block of the cells.
ghost use Rattle.std.specs.Prelude.{◌≡◌, ◌≤◌, ◌-◌, pos, nat_le, slice_get, unwrap_or, if◌then◌else◌, IfOk};
ghost use Rattle.xmp_first.specs.FirstTree.{tree_of};
ghost use Rattle.xmp_first.specs.Blocks.{IsBlocks, cells_from, summed};

use crate::first::First;
use crate::sum::added;
use std::alloc::Global;
use xmp_base::{NoMemory, Words};
use xmp_dist::{Dim, Dist};

/// How the cells are spread.
pub fn blocks_of(p: &First) -> Dim
    ensures { IsBlocks result p.now.size p.now.nodes }
{
    match Dim::new(p.size, p.nodes, Dist::Block) {
        Ok(dim) => dim,
        Err(_) => unreachable!(),
    }
}

/// The first loop from `start` on and below `end`: the values of the cells.
pub fn first_loop(alloc: Global, p: &First, start: u32, end: u32) -> Result<Words, NoMemory>
    requires { start ≤ end }
    ensures { IfOk result (λ cells. cells ≡ cells_from (tree_of p.now.value) start (end - start)) }
{
    let mut cells = Words::new(alloc);
    for cell in start..end {
        cells.push(p.cell(cell))?;
    }
    Ok(cells)
}

/// The second loop over these cells, where `s` begins at `start`.
pub fn second_loop(start: i64, cells: &[i64]) -> i64
    ensures { result ≡ summed start cells.now }
{
    let mut sum = start;
    for value in cells {
        sum = added(sum, *value);
    }
    sum
}

/// A cell in the store of the node whose block has these cells, from the cell `start` on.
pub fn word_at(block: &[i64], start: u32, cell: u32) -> i64
    ensures { result ≡ (if nat_le start cell
        then unwrap_or (slice_get block.now (cell - start)) (pos 0) else pos 0) }
{
    if cell < start {
        return 0;
    }
    match block.get((cell - start) as usize) {
        Some(value) => *value,
        None => 0,
    }
}
