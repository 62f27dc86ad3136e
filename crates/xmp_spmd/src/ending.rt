// The world of the nodes at their end.
ghost use Rattle.std.specs.Prelude.{◌≡◌, ◌*◌, ◌++◌, length, map, IfOk};
ghost use Rattle.std.specs.List.{AllByRecursion, flat_map};
ghost use Rattle.xmp_meaning.specs.Stores.{store_of};
ghost use Rattle.xmp_nodes.specs.Worlds.{out_of};
ghost use Rattle.xmp_spmd.specs.Ends.{IsWorld};
ghost use Rattle.xmp_world.specs.Counts.{rows_of};
ghost use Rattle.xmp_world.specs.Ends.{early_end};

use crate::words::push_stores;
use std::alloc::Global;
use xmp_base::{Bytes, NoMemory, Table};
use xmp_meaning as meaning;
use xmp_meaning::{Flow, Halt};
use xmp_serial::State;
use xmp_stores::{Counts, Nodes};
use xmp_world::{End, World, rows_are_read_back};

/// What node 0 printed.
fn output(alloc: Global, stores: &mut [State]) -> Bytes
    ensures out { result ≡ out_of stores.old }
    ensures words { map store_of stores.new ≡ map store_of stores.old }
{
    match stores.split_first_mut() {
        None => Bytes::new(alloc),
        Some((state, _rest)) => state.take_output(alloc),
    }
}

/// Adds the counts of rows of one length, one row behind the other. Want of memory is answered also where a row has another length.
fn push_rows(rows: &[Counts], wide: usize, all: &mut Vec<u64>) -> Result<(), NoMemory>
    ensures counts { IfOk result (λ _. all.new.items ≡ all.old.items ++ flat_map (λ row. row) rows.now) }
    ensures wide { IfOk result (λ _. AllByRecursion (λ row. length row ≡ wide) rows.now) }
{
    match rows.split_first() {
        None => Ok(()),
        Some((row, rest)) => {
            if row.as_slice().len() != wide {
                return Err(NoMemory);
            }
            push_counts(row.as_slice(), all)?;
            push_rows(rest, wide, all)
        }
    }
}

/// Adds counts.
fn push_counts(counts: &[u64], all: &mut Vec<u64>) -> Result<(), NoMemory>
    ensures { IfOk result (λ _. all.new.items ≡ all.old.items ++ counts.now) }
{
    all.extend_from_slice(counts).map_err(|_| NoMemory)
}

/// How a run ended, as a world has it; a phase ends in no program of one view.
fn end_of(ended: Result<Flow, Halt>) -> Result<End, NoMemory>
    ensures { IfOk result (λ end. (nodes : Nodes) (w : World) → w ≡ record { ended = early_end end; out = out_of nodes.stores; stores = map store_of nodes.stores; turns = nodes.turns; sent = nodes.sent } → IsWorld ended nodes w) }
{
    match ended {
        Ok(_) => Ok(End::Ended),
        Err(Halt::End(meaning::End::Trapped(kind, at))) => Ok(End::Trapped(kind, at)),
        Err(Halt::End(meaning::End::OutOfSteps)) => Ok(End::OutOfSteps),
        Err(Halt::End(meaning::End::PhaseEnd)) => Err(NoMemory),
        Err(Halt::NoMemory) => Err(NoMemory),
    }
}

/// What node 0 printed, and the words of each node's store, whose rows are let go.
fn gathered(alloc: Global, arrays: u32, stores: &mut [State]) -> Result<(Bytes, Table), NoMemory>
    ensures out { IfOk result (λ found. found.0 ≡ out_of stores.old) }
    ensures words { IfOk result (λ found. found.1 ≡ map store_of stores.old) }
{
    let out = output(alloc, stores);
    let mut words = Table::new(alloc);
    push_stores(alloc, arrays, stores, &mut words)?;
    Ok((out, words))
}

/// The counts of as many rows as each row has, one row behind the other. Want of memory is answered also where there are more or fewer.
fn flat(alloc: Global, rows: &[Counts], count: usize) -> Result<Vec<u64>, NoMemory>
    ensures many { IfOk result (λ all. length all.items ≡ count * count) }
    ensures rows { IfOk result (λ all. rows_of count count all.items ≡ rows.now) }
{
    if rows.len() != count {
        return Err(NoMemory);
    }
    let mut all = Vec::new(alloc);
    push_rows(rows, count, &mut all)?;
    rows_are_read_back();
    Ok(all)
}

/// The world of nodes whose run came out so. Want of memory is answered also where the counts or the arrays aren't as many as the nodes'
/// and the program's, which never is so.
pub fn world_of(
    alloc: Global,
    arrays: u32,
    ended: Result<Flow, Halt>,
    nodes: Nodes,
) -> Result<World, NoMemory>
    ensures { IfOk result (λ w. IsWorld ended nodes w) }
{
    let end = end_of(ended)?;
    let Nodes {
        stores,
        turns,
        sent,
    } = nodes;
    let mut stores = stores;
    let count = stores.len();
    let (out, words) = gathered(alloc, arrays, stores.as_mut_slice())?;
    let sent = flat(alloc, sent.as_slice(), count)?;
    if turns.len() != count {
        return Err(NoMemory);
    }
    Ok(World::of(end, out, words, turns, sent))
}
