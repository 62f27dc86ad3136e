// A reflect of arrays.
ghost use Rattle.std.specs.Prelude.{◌≡◌, [], IfOk};
ghost use Rattle.xmp_meaning.specs.Declarations.{home_of};
ghost use Rattle.xmp_meaning.specs.Runs.{Does};
ghost use Rattle.xmp_nodes.specs.Reflecting.{reflect_all, reflect_at, reflect_one};
ghost use Rattle.xmp_exchanges.specs.Aims.{reflect_of};

use crate::exchange::exchange;
use crate::side::{home_of, side_of_array};
use crate::transfer::Transfer;
use crate::words::Place;
use sqlite_items::Items;
use std::alloc::Global;
use xmp_base::NoMemory;
use xmp_meaning::{Flow, Halt};
use xmp_move::MoveKind;
use xmp_prog::{Home, Name, ProgParts};
use xmp_stores::{Nodes, Together};

/// A reflect of an array moves words of its rows as they are.
fn reflect_of(alloc: Global, program: &ProgParts, array: u32) -> Result<Transfer, NoMemory>
    ensures { IfOk result (λ transfer. transfer ≡ reflect_of program.now array) }
{
    let side = side_of_array(alloc, program, array, Items::new(alloc))?;
    Ok(Transfer {
        kind: MoveKind::Reflect { array: side },
        source: Place::Row(array),
        target: Place::Row(array),
        converts: None,
    })
}

fn reflect_one(together: &Together, array: u32, nodes: &mut Nodes) -> Result<Flow, Halt>
    ensures { Does (reflect_one together.now.program.now array nodes.old) result nodes.new }
{
    match reflect_of(together.alloc, together.program, array) {
        Ok(transfer) => exchange(together, &transfer, &[], nodes),
        Err(NoMemory) => Err(Halt::NoMemory),
    }
}

/// Nothing is said of an array without align.
fn reflect_at(together: &Together, array: u32, nodes: &mut Nodes) -> Result<Flow, Halt>
    ensures { Does (reflect_at together.now.program.now array (home_of together.now.program.now array) nodes.old) result nodes.new }
{
    match home_of(together.program, array) {
        Home::Spread(_, _) => reflect_one(together, array, nodes),
        Home::Copy | Home::Image => Ok(Flow::Next),
    }
}

/// One exchange for each array, in order.
pub fn reflect_all(together: &Together, arrays: &[Name], nodes: &mut Nodes) -> Result<Flow, Halt>
    ensures { Does (reflect_all together.now.program.now arrays.now nodes.old) result nodes.new }
{
    'arrays: for name in arrays {
        match reflect_at(together, name.number, nodes) {
            Ok(Flow::Next) => {}
            Ok(Flow::Returned(value)) => return Ok(Flow::Returned(value)),
            Err(halt) => return Err(halt),
        }
    }
    Ok(Flow::Next)
}
