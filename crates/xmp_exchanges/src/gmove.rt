// A gmove.
ghost use Rattle.std.specs.Prelude.{◌≡◌, IfOk, IsTrue, None, length};
ghost use Rattle.xmp_meaning.specs.Runs.{Does};
ghost use Rattle.xmp_move.specs.Faults.{move_fault};
ghost use Rattle.xmp_move.specs.Kinds.{numbers_of};
ghost use Rattle.xmp_nodes.specs.Moving.{gmove_all};
ghost use Rattle.xmp_exchanges.specs.Aims.{move_of};

use crate::aims::Aiming;
use crate::exchange::exchange;
use crate::laid::{has_numbers, is_laid};
use crate::side::{place_of, side_of, type_of};
use crate::transfer::Transfer;
use sqlite_items::Items;
use std::alloc::Global;
use xmp_base::NoMemory;
use xmp_meaning::{Flow, Halt};
use xmp_move::{MoveKind, move_fault};
use xmp_prog::{MoveSide, ProgParts};
use xmp_stores::{Nodes, Together};

/// A gmove moves words of its source's cells to those of its target, converted to their type.
fn move_of(
    alloc: Global,
    program: &ProgParts,
    target: &MoveSide,
    source: &MoveSide,
) -> Result<Transfer, NoMemory>
    ensures { IfOk result (λ transfer. transfer ≡ move_of program.now target.now source.now) }
{
    let ty = type_of(program, target);
    let to = side_of(alloc, program, target)?;
    let from = side_of(alloc, program, source)?;
    Ok(Transfer {
        kind: MoveKind::Gmove {
            target: to,
            source: from,
            ty,
        },
        source: place_of(source),
        target: place_of(target),
        converts: Some(ty),
    })
}

/// Every node finds what is meant, and what node 0 finds counts. Then each target's cell gets its source's value.
pub fn gmove_all(
    together: &Together,
    target: &MoveSide,
    source: &MoveSide,
    nodes: &mut Nodes,
) -> Result<Flow, Halt>
    ensures { Does (gmove_all together.now.program.now together.now.input.now target.now source.now nodes.old) result nodes.new }
{
    match move_of(together.alloc, together.program, target, source) {
        Ok(transfer) => gmove_by(together, &transfer, target, source, nodes),
        Err(NoMemory) => Err(Halt::NoMemory),
    }
}

/// The same by its transfer.
fn gmove_by(
    together: &Together,
    transfer: &Transfer,
    target: &MoveSide,
    source: &MoveSide,
    nodes: &mut Nodes,
) -> Result<Flow, Halt>
    requires { transfer.now ≡ move_of together.now.program.now target.now source.now }
    ensures { Does (gmove_all together.now.program.now together.now.input.now target.now source.now nodes.old) result nodes.new }
{
    let kind = &transfer.kind;
    if nodes.stores.len() < 1 || !is_laid(kind, 0) {
        return Err(Halt::NoMemory);
    }
    let aiming = Aiming {
        alloc: together.alloc,
        kind,
        target,
        source,
    };
    match together.all_do(&aiming, Items::new(together.alloc), nodes) {
        Ok(numbers) => {
            let args = numbers.as_slice();
            if !is_good(kind, args) {
                return Err(Halt::NoMemory);
            }
            exchange(together, transfer, args, nodes)
        }
        Err(halt) => Err(halt),
    }
}

/// Whether these are all numbers of a transfer, and none breaks a rule.
fn is_good(kind: &MoveKind, args: &[i64]) -> bool
    ensures { IsTrue result → (length args.now ≡ numbers_of kind.now) × (move_fault kind.now args.now ≡ None) }
{
    has_numbers(kind, args) && move_fault(kind, args).is_none()
}
