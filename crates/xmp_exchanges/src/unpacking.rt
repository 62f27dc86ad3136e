// A node unpacks what all have for it.
ghost use Rattle.std.specs.Prelude.{◌≡◌, ◌<◌, ◌≤◌, ◌+◌, All, OnOk, length, map};
ghost use Rattle.xmp_base.specs.Limits.{node_limit};
ghost use Rattle.xmp_move.specs.Stores.{write_all};
ghost use Rattle.xmp_exchanges.specs.Delivered.{delivered};
ghost use Rattle.xmp_exchanges.specs.Transfers.{converted};

use crate::packing::all_below;
use xmp_base::{NoMemory, Table, first_and_rest};
use xmp_move::{Plan, unpack_slots};
use xmp_num::Ty;

/// Writes words as they are into these slots of a store.
fn write_slots(store: &mut [i64], slots: &[u32], words: &[i64])
    requires long { length words.now ≡ length slots.now }
    requires within { All (λ s. s < length store.old) slots.now }
    ensures { store.new ≡ write_all store.old slots.now words.now }
{
    for k in 0..slots.len() {
        store[slots[k] as usize] = words[k];
    }
}

/// Writes words, converted where they are to be. Want of memory is answered also where there are fewer words than slots or more, or a slot isn't
/// in the store.
fn fill(
    store: &mut [i64],
    slots: &[u32],
    words: &[i64],
    converts: Option<Ty>,
) -> Result<(), NoMemory>
    ensures { OnOk result (store.new ≡ write_all store.old slots.now (map (converted converts) words.now)) }
{
    if slots.len() != words.len() || !all_below(slots, store.len()) {
        return Err(NoMemory);
    }
    match converts {
        Some(ty) => unpack_slots(store, slots, words, ty),
        None => write_slots(store, slots, words),
    }
    Ok(())
}

/// Writes into the store of a node what all nodes from one on have for it, the last first.
pub fn deliver(
    plan: &Plan,
    node: u32,
    from: u32,
    store: &mut [i64],
    tables: &[Table],
    converts: Option<Ty>,
) -> Result<(), NoMemory>
    requires long { from + length tables.now ≤ length plan.now.fills }
    requires few { from + length tables.now ≤ node_limit }
    ensures { OnOk result (store.new ≡ delivered (converted converts) plan.now.fills node from store.old tables.now) }
{
    match first_and_rest(tables) {
        None => Ok(()),
        Some((table, rest)) => {
            deliver(plan, node, from + 1, store, rest, converts)?;
            match table.row(node as usize) {
                None => Err(NoMemory),
                Some(words) => fill(store, plan.fills(from), words, converts),
            }
        }
    }
}
