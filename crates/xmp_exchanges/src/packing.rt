// What the nodes have for each other, packed.
ghost use Rattle.std.specs.Prelude.{◌≡◌, ◌<◌, ◌≤◌, ◌++◌, ◌∷◌, [], All, IfOk, IsTrue, OnOk, length};
ghost use Rattle.xmp_move.specs.Stores.{packed};
ghost use Rattle.xmp_exchanges.specs.Plans.{list_at, packed_for};

use std::alloc::Global;
use xmp_base::{NoMemory, Table, Words};
use xmp_move::{Plan, pack_slots};

/// Whether all slots lie below a length.
pub fn all_below(slots: &[u32], length: usize) -> bool
    ensures { IsTrue result → All (λ s. s < length) slots.now }
{
    'slots: for slot in slots {
        if *slot as usize >= length {
            return false;
        }
    }
    true
}

/// What a node with this store has for another. Want of memory is answered also where a slot isn't in the store.
fn packed_to(alloc: Global, plan: &Plan, store: &[i64], to: u32) -> Result<Words, NoMemory>
    requires { to < length plan.now.sends }
    ensures { IfOk result (λ words. words ≡ packed store.now (list_at plan.now.sends to)) }
{
    let slots = plan.sends(to);
    if !all_below(slots, store.len()) {
        return Err(NoMemory);
    }
    pack_slots(alloc, store, slots)
}

/// What it has for each of so many nodes.
pub fn packed_for(alloc: Global, plan: &Plan, store: &[i64], count: u32) -> Result<Table, NoMemory>
    requires { count ≤ length plan.now.sends }
    ensures { IfOk result (λ table. table ≡ packed_for plan.now.sends store.now count) }
{
    let mut table = Table::new(alloc);
    'nodes: for to in 0..count {
        let words = packed_to(alloc, plan, store, to)?;
        push(&mut table, words)?;
    }
    Ok(table)
}

/// Adds a row at the end.
fn push(table: &mut Table, words: Words) -> Result<(), NoMemory>
    ensures { OnOk result (table.new ≡ table.old ++ words ∷ []) }
{
    table.push(words).map_err(|_| NoMemory)
}
