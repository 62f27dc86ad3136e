// What the nodes begin with.
ghost use Rattle.std.specs.Prelude.{◌≡◌, ℕ, ◌++◌, ◌∷◌, [], length, map, replicate, IfOk};
ghost use Rattle.std.specs.List.{range_with_len};
ghost use Rattle.xmp_meaning.specs.Traffic.{node_beginning};
ghost use Rattle.xmp_prog.specs.declared.parts.ProgParts.{ProgParts};
ghost use Rattle.xmp_nodes.specs.Nodes.{nodes_beginning};
ghost use Rattle.xmp_stores.specs.Layouts.{AreLayouts};

use crate::counts::Counts;
use crate::lists::push;
use crate::nodes::Nodes;
use crate::together::Together;
use std::alloc::Global;
use xmp_base::NoMemory;
use xmp_serial::{Layout, State};

impl Together<'_, '_> {
    /// The nodes at first: every scalar and every cell is 0, and nothing is counted.
    pub fn beginning(&self, steps: u64) -> Result<Nodes, NoMemory>
        ensures { IfOk result (λ nodes. nodes ≡ nodes_beginning self.now.program.now steps) }
    {
        let count = self.layouts.len();
        let mut stores = Vec::new(self.alloc);
        push_states(self.alloc, self.layouts, steps, &mut stores)?;
        Ok(Nodes {
            stores,
            turns: zeros(self.alloc, count)?,
            sent: rows(self.alloc, count)?,
        })
    }
}

/// The states at first in stores of these layouts.
fn push_states(
    alloc: Global,
    layouts: &[Layout],
    steps: u64,
    stores: &mut Vec<State>,
) -> Result<(), NoMemory>
    ensures { IfOk result (λ _. (p : ProgParts) (node : ℕ) → AreLayouts p node layouts.now → stores.new.items ≡ stores.old.items ++ map (λ k. node_beginning p k steps) (range_with_len node (length layouts.now))) }
{
    match layouts.split_first() {
        None => Ok(()),
        Some((layout, rest)) => {
            let state = State::beginning(alloc, layout, steps)?;
            push(stores, state)?;
            push_states(alloc, rest, steps, stores)
        }
    }
}

/// So many counts, each 0.
fn zeros(alloc: Global, count: usize) -> Result<Vec<u64>, NoMemory>
    ensures { IfOk result (λ all. all.items ≡ replicate count 0) }
{
    match vec![in alloc; 0u64; count] {
        Ok(all) => Ok(all),
        Err(_) => Err(NoMemory),
    }
}

/// So many rows of so many counts, each 0.
fn rows(alloc: Global, count: usize) -> Result<Vec<Counts>, NoMemory>
    ensures { IfOk result (λ all. all.items ≡ replicate count (replicate count 0)) }
{
    let mut all = Vec::new(alloc);
    'rows: for i in 0..count {
        push_row(alloc, count, &mut all)?;
    }
    Ok(all)
}

/// One row more.
fn push_row(alloc: Global, count: usize, all: &mut Vec<Counts>) -> Result<(), NoMemory>
    ensures { IfOk result (λ _. all.new.items ≡ all.old.items ++ replicate count 0 ∷ []) }
{
    let row = Counts::zeros(alloc, count)?;
    push(all, row)
}
