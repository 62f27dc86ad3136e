// The words of nodes' stores.
ghost use Rattle.std.specs.Prelude.{◌≡◌, ◌+◌, ◌++◌, ◌∷◌, [], suc, false, pos, drop, map, slice_get, slice_set, IfOk};
ghost use Rattle.std.specs.List.{flat_map};
ghost use Rattle.xmp_meaning.specs.Stores.{store_of};

use sqlite_items::Items;
use std::alloc::Global;
use xmp_base::{NoMemory, Table, Words};
use xmp_serial::State;

/// Adds words.
fn push_words(words: &[i64], all: &mut Vec<i64>) -> Result<(), NoMemory>
    ensures { IfOk result (λ _. all.new.items ≡ all.old.items ++ words.now) }
{
    all.extend_from_slice(words).map_err(|_| NoMemory)
}

/// A row of one word.
fn one_word(alloc: Global) -> Result<Items<i64>, NoMemory>
    ensures { IfOk result (λ row. row ≡ pos 0 ∷ []) }
{
    let mut row = Items::new(alloc);
    row.push(0).map_err(|_| NoMemory)?;
    Ok(row)
}

/// Takes the row of an array out of a store, where there is such an array, and leaves one word.
fn take_row(alloc: Global, array: u32, state: &mut State) -> Result<Option<Items<i64>>, NoMemory>
    ensures row { IfOk result (λ row. row ≡ slice_get state.old.arrays array) }
    ensures state { IfOk result (λ _. state.new ≡ record state.old { arrays = slice_set state.old.arrays array (pos 0 ∷ []) }) }
{
    let mut row = one_word(alloc)?;
    state.swap_row(array, &mut row);
    if state.row(array).is_empty() {
        Ok(None)
    } else {
        Ok(Some(row))
    }
}

/// Adds the words of an array, whose row is let go; false where there is no such array.
fn push_array(
    alloc: Global,
    array: u32,
    state: &mut State,
    all: &mut Vec<i64>,
) -> Result<bool, NoMemory>
    ensures words { IfOk result (λ _. all.new.items ++ flat_map (λ row. row) (drop (array + 1) state.new.arrays) ≡ all.old.items ++ flat_map (λ row. row) (drop array state.old.arrays)) }
    ensures last { IfOk result (λ more. more ≡ false → all.new.items ≡ all.old.items ++ flat_map (λ row. row) (drop array state.old.arrays)) }
{
    match take_row(alloc, array, state)? {
        None => Ok(false),
        Some(row) => {
            push_words(row.as_slice(), all)?;
            Ok(true)
        }
    }
}

/// Adds the words of all arrays. Want of memory is answered also where a store has more of them.
fn push_arrays(
    alloc: Global,
    arrays: u32,
    state: &mut State,
    all: &mut Vec<i64>,
) -> Result<(), NoMemory>
    ensures { IfOk result (λ _. all.new.items ≡ all.old.items ++ flat_map (λ row. row) state.old.arrays) }
{
    'arrays: for array in 0..arrays {
        push_array(alloc, array, state, all)?;
    }
    if push_array(alloc, arrays, state, all)? {
        Err(NoMemory)
    } else {
        Ok(())
    }
}

/// The words of a node's store, whose rows are let go.
fn words_of(alloc: Global, arrays: u32, state: &mut State) -> Result<Words, NoMemory>
    ensures { IfOk result (λ words. words ≡ store_of state.old) }
{
    let mut all = Vec::new(alloc);
    push_words(state.scalars(), &mut all)?;
    push_arrays(alloc, arrays, state, &mut all)?;
    Ok(Words::from_vec(all))
}

/// Adds the words of these nodes' stores, a row for each.
pub fn push_stores(
    alloc: Global,
    arrays: u32,
    stores: &mut [State],
    all: &mut Table,
) -> Result<(), NoMemory>
    ensures { IfOk result (λ _. all.new ≡ all.old ++ map store_of stores.old) }
{
    match stores.split_first_mut() {
        None => Ok(()),
        Some((state, rest)) => {
            let words = words_of(alloc, arrays, state)?;
            push_row(words, all)?;
            push_stores(alloc, arrays, rest, all)
        }
    }
}

/// Adds a row.
fn push_row(words: Words, all: &mut Table) -> Result<(), NoMemory>
    ensures { IfOk result (λ _. all.new ≡ all.old ++ words ∷ []) }
{
    match all.push(words) {
        Ok(()) => Ok(()),
        Err(_) => Err(NoMemory),
    }
}
