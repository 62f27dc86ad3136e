// What nodes say to each other at an exchange.

use sqlite_items::Items;
use xmp_base::Place;
use xmp_move::MoveKind;
use xmp_num::{RedOp, Ty};

/// A reduction variable by its slot, its operation and its type.
#[derive(Clone, Copy)]
pub struct Reduced {
    pub slot: u32,
    pub op: RedOp,
    pub ty: Ty,
}

/// What an exchange is about.
#[derive(Drop)]
pub enum Meeting {
    /// nothing is said
    Barrier,
    /// one node says the words of these slots, and the others write them into theirs
    Cast {
        slots: Items<u32>,
        from: u32,
    },
    /// cells are moved between the stores. A trap has the place of the side that it is on.
    Move {
        kind: MoveKind,
        target_at: Place,
        source_at: Place,
    },
    /// each node says how its part of a loop directive ended, and the values of the reduction variables
    LoopEnd(Items<Reduced>),
    /// tasks by the nodes of each, in rising order: the least of them says how its task ended
    TaskEnd(Items<Items<u32>>),
}
