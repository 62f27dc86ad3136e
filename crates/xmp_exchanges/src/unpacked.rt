// Every node unpacks what all have for it.
ghost use Rattle.std.specs.Prelude.{◌≡◌, ◌≤◌, IfOk, IsTrue, length};
ghost use Rattle.xmp_base.specs.Limits.{node_limit};
ghost use Rattle.xmp_exchanges.specs.Delivered.{delivered};
ghost use Rattle.xmp_exchanges.specs.Plans.{all_fill};
ghost use Rattle.xmp_exchanges.specs.Transfers.{converted};
ghost use Rattle.xmp_exchanges.specs.Unpacks.{unpacks};

use crate::transfer::Transfer;
use crate::unpacking::deliver;
use std::alloc::Global;
use xmp_base::{NoMemory, Table};
use xmp_meaning::{Flow, Halt};
use xmp_move::Plan;
use xmp_serial::{Interpreter, State};
use xmp_stores::Deed;

/// The plans of the nodes, and a table for each of what it has for each.
#[derive(Drop)]
pub struct Unpacking<'a> {
    pub alloc: Global,
    pub transfer: &'a Transfer,
    pub plans: &'a [Plan],
    pub tables: &'a [Table],
    ghost long: { IsTrue (all_fill (length tables.now) plans.now) },
    ghost few: { length tables.now ≤ node_limit },
}

impl Unpacking<'_> {
    /// What a node with these words has, once it unpacked what all have for it.
    fn row(&self, plan: &Plan, node: u32, words: &[i64]) -> Result<Vec<i64>, NoMemory>
        requires { length self.now.tables.now ≤ length plan.now.fills }
        ensures { IfOk result (λ row. row.items ≡ delivered (converted self.now.transfer.now.converts) plan.now.fills node 0 words.now self.now.tables.now) }
    {
        let Ok(mut row) = Vec::from_slice(self.alloc, words) else {
            return Err(NoMemory);
        };
        let converts = self.transfer.converts;
        deliver(plan, node, 0, row.as_mut_slice(), self.tables, converts)?;
        Ok(row)
    }
}

impl Deed for Unpacking<'_> {
    type Gives = Flow;

    ghost does = { λ d node c. unpacks d.transfer.now d.plans.now d.tables.now node };

    fn run(&self, node: u32, at: &Interpreter, state: &mut State) -> Result<Flow, Halt> {
        let Some(plan) = self.plans.get(node as usize) else {
            return Err(Halt::NoMemory);
        };
        let Some(words) = self.transfer.target.words(state) else {
            return Err(Halt::NoMemory);
        };
        match self.row(plan, node, words) {
            Ok(row) => {
                self.transfer.target.put(row, state);
                Ok(Flow::Next)
            }
            Err(NoMemory) => Err(Halt::NoMemory),
        }
    }
}
