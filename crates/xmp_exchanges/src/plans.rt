// The plans of all nodes for a transfer.
ghost use Rattle.std.specs.Prelude.{◌≡◌, ◌<◌, ◌≤◌, ◌++◌, ◌∷◌, [], IfOk, OnOk};
ghost use Rattle.xmp_move.specs.Plans.{peers_of};
ghost use Rattle.xmp_exchanges.specs.Plans.{lists_of, plans_of};

use crate::laid::{has_numbers, is_laid, peers_of};
use std::alloc::Global;
use xmp_base::NoMemory;
use xmp_move::{MoveKind, Plan, plan_of};

/// The plan of a node. Want of memory is answered also where there is none.
fn plan_at(alloc: Global, kind: &MoveKind, args: &[i64], node: u32) -> Result<Plan, NoMemory>
    requires { node < peers_of kind.now }
    ensures { IfOk result (λ plan. plan ≡ lists_of kind.now args.now node) }
{
    if !is_laid(kind, node) || !has_numbers(kind, args) {
        return Err(NoMemory);
    }
    match plan_of(alloc, kind, args, node) {
        Ok(plan) => Ok(plan),
        Err(_) => Err(NoMemory),
    }
}

/// The plans of so many nodes.
pub fn plans_of(
    alloc: Global,
    kind: &MoveKind,
    args: &[i64],
    count: u32,
) -> Result<Vec<Plan>, NoMemory>
    ensures plans { IfOk result (λ plans. plans.items ≡ plans_of kind.now args.now count) }
    ensures peers { IfOk result (λ plans. count ≤ peers_of kind.now) }
{
    if peers_of(kind) < count {
        return Err(NoMemory);
    }
    let mut plans = Vec::new(alloc);
    'nodes: for node in 0..count {
        let plan = plan_at(alloc, kind, args, node)?;
        push(&mut plans, plan)?;
    }
    Ok(plans)
}

/// Adds a plan at the end.
fn push(plans: &mut Vec<Plan>, plan: Plan) -> Result<(), NoMemory>
    ensures { OnOk result (plans.new.items ≡ plans.old.items ++ plan ∷ []) }
{
    plans.push(plan).map_err(|_| NoMemory)
}
