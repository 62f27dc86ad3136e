// Where the arrays of a program begin in the stores of its nodes.
ghost use Rattle.std.specs.Prelude.{◌≡◌, ◌<◌, ◌+◌, ℕ, IfOk, IfSome};
ghost use Rattle.std.specs.List.{AllByRecursion};
ghost use Rattle.xmp_map.specs.RowMajor.{product};
ghost use Rattle.xmp_meaning.specs.Stores.{store_words};
ghost use Rattle.xmp_world.specs.Gathering.{IsNodeOf, IsOneView, all_bases, node_bases};

use sqlite_items::Items;
use std::alloc::Global;
use xmp_base::{NoMemory, first_and_rest};
use xmp_prog::{Array, Home, ProgParts};

/// How many cells a box has, where 32 bits hold the number.
#[tactic(auto, unfolding(xmp_map::specs::RowMajor::product))]
fn box_count(extents: &[u32]) -> Option<u32>
    ensures { IfSome result (λ n. n ≡ product extents.now) }
{
    match first_and_rest(extents) {
        None => Some(1),
        Some((extent, rest)) => extent.checked_mul(box_count(rest)?),
    }
}

/// How many words an array has in the store of a node.
fn words_in(a: &Array, node: u32) -> Option<u32>
    requires { IsNodeOf node a.now.home }
    ensures { IfSome result (λ n. n ≡ store_words node a.now) }
{
    match &a.home {
        Home::Copy => box_count(a.extents.as_slice()),
        Home::Spread(_, map) => Some(map.words(node)),
        Home::Image => Some(0),
    }
}

/// Where the arrays begin in the store of a node, each behind those before it.
fn bases_of(alloc: Global, p: &ProgParts, node: u32) -> Result<Items<u32>, NoMemory>
    requires { AllByRecursion (λ a. IsNodeOf node a.home) p.now.arrays }
    ensures { IfOk result (λ bases. bases ≡ node_bases p.now node) }
{
    let mut bases = Items::new(alloc);
    let Ok(mut next) = u32::try_from(p.scalars.len()) else {
        return Err(NoMemory);
    };
    let arrays = p.arrays.as_slice();
    'arrays: for a in arrays {
        if bases.push(next).is_err() {
            return Err(NoMemory);
        }
        let Some(words) = words_in(a, node) else {
            return Err(NoMemory);
        };
        let Some(behind) = next.checked_add(words) else {
            return Err(NoMemory);
        };
        next = behind;
    }
    Ok(bases)
}

/// Where the arrays begin in the stores of all nodes.
pub fn all_bases(alloc: Global, p: &ProgParts) -> Result<Vec<Items<u32>>, NoMemory>
    requires { IsOneView p.now }
    ensures { IfOk result (λ all. all.items ≡ all_bases p.now) }
{
    let mut all = Vec::new(alloc);
    for node in 0..p.grid.count() {
        let bases = bases_of(alloc, p, node)?;
        all.push(bases)?;
    }
    Ok(all)
}
