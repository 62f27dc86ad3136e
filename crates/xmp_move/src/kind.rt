// What is moved, and between which arrays.

use sqlite_items::Items;
use xmp_num::{TrapKind, Ty};
use xmp_prog::Home;

/// How many numbers a side has for one of its dimensions.
#[derive(Clone, Copy, Debug, PartialEq, Eq)]
pub enum SidePart {
    /// a subscript
    One,
    /// the base, the length and the step of a section
    Many,
}

/// One side of a transfer: an array, or a scalar, which is a `Copy` without dimensions. `base` is the slot of its first word
/// in the node's store. The parts of a reflect are ignored.
#[derive(Drop)]
pub struct Side {
    pub home: Home,
    pub extents: Items<u32>,
    pub base: u32,
    pub parts: Items<SidePart>,
}

/// What is moved: the shadows of an array, or a section under `gmove`, whose target's cells have type `ty`.
#[derive(Drop)]
pub enum MoveKind {
    Reflect { array: Side },
    Gmove { target: Side, source: Side, ty: Ty },
}

/// Why a gmove traps, and whether on the source's side.
#[derive(Clone, Copy, Debug, PartialEq, Eq)]
pub struct Fault {
    pub kind: TrapKind,
    pub source: bool,
}
