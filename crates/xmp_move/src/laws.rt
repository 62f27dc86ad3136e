// What all plans of a transfer do together, as laws that callers may take.

ghost use Rattle.xmp_move.specs.Assigned.{AimsArePairs, GmovesArrays, PlansAreGood, PlansAreOfArrays, RowsAreKept};
ghost use Rattle.xmp_move.specs.Kept.{CellsAreOwned, GmovesAssign, OwnersHold, ReflectsArrays, SidesAreKept};
ghost use Rattle.xmp_move.specs.Meant.{MovesAsMeant, TrapsAsMeant};
ghost use Rattle.xmp_move.specs.Laws.{PlansFit, FillsNeeded, FillsOnce, MovesAll, MovesWhole, Reflects};

/// The plans of all nodes together are the whole transfer: what a node sends is as much as the other fills, each needed cell is
/// filled exactly once, every other word stays, and the node's store shows the whole assignment, or after a reflect the
/// owners' values.
pub fn transfers()
    ensures fit { PlansFit }
    ensures needed { FillsNeeded }
    ensures once { FillsOnce }
    ensures all { MovesAll }
    ensures whole { MovesWhole }
    ensures reflects { Reflects }
{}

/// A gmove of the meaning traps exactly where `move_fault` says, and by that fault; else it moves the pairs of the transfer.
pub fn gmoves_are_meant<X>()
    ensures traps { TrapsAsMeant X }
    ensures moves { MovesAsMeant X }
{}

/// Over arrays the premises of `transfers` hold: each node keeps the cells that it holds of a side in slots of their own, and
/// exactly one node owns each cell of a distributed array, and holds it.
pub fn cells_are_kept()
    ensures kept { SidesAreKept }
    ensures owned { CellsAreOwned }
    ensures held { OwnersHold }
{}

/// A gmove without a fault gives each target's cell one source's cell.
pub fn gmoves_assign()
    ensures { GmovesAssign }
{}

/// After all nodes packed, a node that unpacks a reflect shows the owners' values in all cells that it holds.
pub fn reflects_are_whole()
    ensures { ReflectsArrays }
{}

/// After all nodes packed, a node that unpacks a gmove, in any order of its peers, shows the whole assignment in the target's cells
/// that are its own, and every other word is as it was: in rows of each array's own as in one store. A plan's gmove, which is laid
/// out, has numbers without a fault, and its sides are arrays over all its peers.
pub fn gmoves_are_whole()
    ensures arrays { GmovesArrays }
    ensures pairs { AimsArePairs }
    ensures rows { RowsAreKept }
    ensures good { PlansAreGood }
    ensures over { PlansAreOfArrays }
{}
