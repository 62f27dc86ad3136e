// A transfer between the stores of all nodes.
ghost use Rattle.std.specs.Prelude.{◌≡◌, ◌≤◌, ◌++◌, ◌∷◌, [], IfOk, IsTrue, OnOk, length};
ghost use Rattle.xmp_base.specs.Limits.{node_limit};
ghost use Rattle.xmp_prog.specs.Fits.{node_count};
ghost use Rattle.xmp_meaning.specs.Runs.{Does};
ghost use Rattle.xmp_move.specs.Plans.{peers_of};
ghost use Rattle.xmp_exchanges.specs.Places.{words_at};
ghost use Rattle.xmp_exchanges.specs.Plans.{all_send, packed_for, plans_of};
ghost use Rattle.xmp_exchanges.specs.Told.{AreMany, tables_of};
ghost use Rattle.xmp_exchanges.specs.Transfers.{exchanged};

use crate::many::are_many;
use crate::packing::packed_for;
use crate::plans::plans_of;
use crate::told::Told;
use crate::transfer::Transfer;
use crate::unpacked::Unpacking;
use crate::words::Place;
use std::alloc::Global;
use xmp_base::{NODE_LIMIT, NoMemory, Table, first_and_rest};
use xmp_meaning::{Flow, Halt};
use xmp_move::Plan;
use xmp_serial::State;
use xmp_stores::{Nodes, Together, say};

/// What a node has for each of so many.
fn table_at(
    alloc: Global,
    source: Place,
    plan: &Plan,
    state: &State,
    count: u32,
) -> Result<Table, NoMemory>
    requires { count ≤ length plan.now.sends }
    ensures { IfOk result (λ table. table ≡ packed_for plan.now.sends (words_at source state.now) count) }
{
    match source.words(state) {
        None => Err(NoMemory),
        Some(words) => packed_for(alloc, plan, words, count),
    }
}

/// Adds a table at the end.
fn push(tables: &mut Vec<Table>, table: Table) -> Result<(), NoMemory>
    ensures { OnOk result (tables.new.items ≡ tables.old.items ++ table ∷ []) }
{
    tables.push(table).map_err(|_| NoMemory)
}

/// Adds what each of these nodes has for each of so many.
fn push_tables(
    alloc: Global,
    source: Place,
    plans: &[Plan],
    stores: &[State],
    count: u32,
    tables: &mut Vec<Table>,
) -> Result<(), NoMemory>
    requires { IsTrue (all_send count plans.now) }
    ensures { OnOk result (tables.new.items ≡ tables.old.items ++ tables_of source count plans.now stores.now) }
{
    match first_and_rest(plans) {
        None => Ok(()),
        Some((plan, plans)) => match first_and_rest(stores) {
            None => Ok(()),
            Some((state, stores)) => {
                let table = table_at(alloc, source, plan, state, count)?;
                push(tables, table)?;
                push_tables(alloc, source, plans, stores, count, tables)
            }
        },
    }
}

/// What each has for each.
fn tables_of(
    alloc: Global,
    source: Place,
    plans: &[Plan],
    stores: &[State],
    count: u32,
) -> Result<Vec<Table>, NoMemory>
    requires { IsTrue (all_send count plans.now) }
    ensures { IfOk result (λ tables. tables.items ≡ tables_of source count plans.now stores.now) }
{
    let mut tables = Vec::new(alloc);
    push_tables(alloc, source, plans, stores, count, &mut tables)?;
    Ok(tables)
}

/// What is said is counted, and then all nodes unpack.
fn exchange_by(
    together: &Together,
    transfer: &Transfer,
    args: &[i64],
    plans: &[Plan],
    tables: &[Table],
    nodes: &mut Nodes,
) -> Result<Flow, Halt>
    requires many { AreMany nodes.old (node_count together.now.program.now) }
    requires few { node_count together.now.program.now ≤ node_limit }
    requires enough { node_count together.now.program.now ≤ peers_of transfer.now.kind }
    requires plans { plans.now ≡ plans_of transfer.now.kind args.now (node_count together.now.program.now) }
    requires tables { tables.now ≡ tables_of transfer.now.source (node_count together.now.program.now) plans.now nodes.old.stores }
    ensures { Does (exchanged together.now.program.now transfer.now args.now nodes.old) result nodes.new }
{
    say(&Told { tables }, nodes);
    let unpacking = Unpacking {
        alloc: together.alloc,
        transfer,
        plans,
        tables,
    };
    together.all_do(&unpacking, Flow::Next, nodes)
}

/// All nodes pack, what they say is counted, and then all unpack. Want of memory is answered also where the nodes aren't as many as
/// the program's, or where the transfer isn't laid out.
pub fn exchange(
    together: &Together,
    transfer: &Transfer,
    args: &[i64],
    nodes: &mut Nodes,
) -> Result<Flow, Halt>
    ensures { Does (exchanged together.now.program.now transfer.now args.now nodes.old) result nodes.new }
{
    let count = together.program.grid.count();
    if NODE_LIMIT < count || !are_many(nodes, count as usize) {
        return Err(Halt::NoMemory);
    }
    let Ok(plans) = plans_of(together.alloc, &transfer.kind, args, count) else {
        return Err(Halt::NoMemory);
    };
    let plans = plans.as_slice();
    let stores = nodes.stores.as_slice();
    match tables_of(together.alloc, transfer.source, plans, stores, count) {
        Ok(tables) => exchange_by(together, transfer, args, plans, tables.as_slice(), nodes),
        Err(NoMemory) => Err(Halt::NoMemory),
    }
}
