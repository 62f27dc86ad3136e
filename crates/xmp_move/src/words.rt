// Words between a store and a message.
ghost use Rattle.std.specs.Prelude.{◌≡◌, ◌<◌, length, map, IfOk, All};
ghost use Rattle.xmp_num.specs.Arithmetic.{wrap};
ghost use Rattle.xmp_move.specs.Stores.{packed, write_all};

use std::alloc::Global;
use xmp_base::{NoMemory, Words};
use xmp_num::{Ty, convert};

/// The words in these slots of a store.
pub fn pack_slots(alloc: Global, store: &[i64], slots: &[u32]) -> Result<Words, NoMemory>
    requires within { All (λ s. s < length store.now) slots.now }
    ensures { IfOk result (λ words. words ≡ packed store.now slots.now) }
{
    let mut words = Words::new(alloc);
    for s in slots {
        words.push(store[*s as usize])?;
    }
    Ok(words)
}

/// Writes the words, each converted to a type, into these slots of a store.
pub fn unpack_slots(store: &mut [i64], slots: &[u32], words: &[i64], ty: Ty)
    requires long { length words.now ≡ length slots.now }
    requires within { All (λ s. s < length store.old) slots.now }
    ensures { store.new ≡ write_all store.old slots.now (map (wrap ty) words.now) }
{
    for k in 0..slots.len() {
        store[slots[k] as usize] = convert(words[k], ty);
    }
}
