// The run of a program on its nodes.
ghost use Rattle.std.specs.Prelude.{◌≡◌, ◌<◌, ◌++◌, ◌∷◌, [], length, slice_get, IfOk, IfSome};
ghost use Rattle.std.specs.Fmt.{signed_decimal};
ghost use Rattle.xmp_first.specs.FirstMeaning.{total};
ghost use Rattle.xmp_first.specs.FirstTree.{tree_of};
ghost use Rattle.xmp_first.specs.Nodes.{Ran, tabulate, store_of, turns_of};
ghost use Rattle.xmp_first.specs.Blocks.{IsBlocks, block_of};

use crate::blocks::{blocks_of, first_loop, second_loop, word_at};
use crate::first::First;
use crate::sum::added;
use crate::world::FirstWorld;
use std::alloc::Global;
use xmp_base::{Bytes, NoMemory, Table, Words};
use xmp_dist::Dim;
use xmp_num::render;

/// The two loops on all nodes: each node's block of the cells, and the sum that the reduction at
/// the second loop's end makes of the nodes' parts. Node 0's part begins at the old value of `s`
/// and the others' at 0; the old value is 0 too.
fn loops(alloc: Global, p: &First, dim: &Dim) -> Result<(Table, i64), NoMemory>
    requires { IsBlocks dim.now p.now.size p.now.nodes }
    ensures rows { IfOk result (λ r.
        r.0 ≡ tabulate (block_of p.now.size p.now.nodes (tree_of p.now.value)) p.now.nodes) }
    ensures sum { IfOk result (λ r. r.1 ≡ total (tree_of p.now.value) p.now.size) }
{
    let mut blocks = Table::new(alloc);
    let mut sum = 0;
    for node in 0..p.nodes {
        let (start, end) = dim.interval(node);
        let cells = first_loop(alloc, p, start, end)?;
        sum = added(sum, second_loop(0, cells.as_slice()));
        let Ok(()) = blocks.push(cells) else {
            return Err(NoMemory);
        };
    }
    Ok((blocks, sum))
}

/// The words of a node: `i`, `s`, and then the cells.
fn store_of(
    alloc: Global,
    p: &First,
    dim: &Dim,
    node: u32,
    block: &[i64],
    sum: i64,
) -> Result<Words, NoMemory>
    requires dim { IsBlocks dim.now p.now.size p.now.nodes }
    requires node { node < p.now.nodes }
    requires block { block.now ≡ block_of p.now.size p.now.nodes (tree_of p.now.value) node }
    requires sum { sum ≡ total (tree_of p.now.value) p.now.size }
    ensures { IfOk result (λ store.
        store ≡ store_of p.now.size p.now.nodes (tree_of p.now.value) node) }
{
    let (start, _) = dim.interval(node);
    let mut store = Words::new(alloc);
    store.push(i64::from(p.size))?;
    store.push(sum)?;
    for cell in 0..p.size {
        store.push(word_at(block, start, cell))?;
    }
    Ok(store)
}

/// The stores of all nodes.
fn stores_of(
    alloc: Global,
    p: &First,
    dim: &Dim,
    blocks: &Table,
    sum: i64,
) -> Result<Table, NoMemory>
    requires dim { IsBlocks dim.now p.now.size p.now.nodes }
    requires rows { blocks.now ≡ tabulate (block_of p.now.size p.now.nodes (tree_of p.now.value)) p.now.nodes }
    requires sum { sum ≡ total (tree_of p.now.value) p.now.size }
    ensures { IfOk result (λ stores.
        stores ≡ tabulate (store_of p.now.size p.now.nodes (tree_of p.now.value)) p.now.nodes) }
{
    let mut stores = Table::new(alloc);
    for node in 0..p.nodes {
        let Some(block) = blocks.row(node as usize) else {
            unreachable!();
        };
        let store = store_of(alloc, p, dim, node, block, sum)?;
        let Ok(()) = stores.push(store) else {
            return Err(NoMemory);
        };
    }
    Ok(stores)
}

/// How many turns of the two loops each node makes.
fn turns_of(alloc: Global, p: &First, dim: &Dim) -> Result<Vec<u64>, NoMemory>
    requires { IsBlocks dim.now p.now.size p.now.nodes }
    ensures { IfOk result (λ turns.
        turns.items ≡ tabulate (turns_of p.now.size p.now.nodes) p.now.nodes) }
{
    let mut turns = Vec::new(alloc);
    for node in 0..p.nodes {
        let count = u64::from(dim.count(node));
        let Ok(()) = turns.push(2 * count) else {
            return Err(NoMemory);
        };
    }
    Ok(turns)
}

/// What a node with this store prints: its `s`, on a line.
fn line_of(alloc: Global, store: &[i64]) -> Result<Bytes, NoMemory>
    requires { 1 < length store.now }
    ensures { IfOk result (λ out.
        IfSome (slice_get store.now 1) (λ s. out ≡ signed_decimal s ++ 10 ∷ [])) }
{
    let mut out = Bytes::new(alloc);
    render(alloc, &mut out, store[1], 0)?;
    out.push(b'\n')?;
    Ok(out)
}

/// Runs the program on its nodes, each with a store of its own of 2 words more than there are cells.
pub fn run_first(alloc: Global, p: &First) -> Result<FirstWorld, NoMemory>
    ensures { IfOk result (λ world. Ran p.now.size p.now.nodes p.now.value world) }
{
    let dim = blocks_of(p);
    let (blocks, sum) = loops(alloc, p, &dim)?;
    let stores = stores_of(alloc, p, &dim, &blocks, sum)?;
    let turns = turns_of(alloc, p, &dim)?;
    let Some(first) = stores.row(0) else {
        unreachable!();
    };
    let out = line_of(alloc, first)?;
    Ok(FirstWorld { out, stores, turns })
}
