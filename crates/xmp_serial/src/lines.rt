// Where a store keeps the cells of an array: a line an array, an axis a dimension.
ghost use Rattle.std.specs.Prelude.{◌≡◌, ◌+ℤ◌, ◌*ℤ◌, pos, IfSome};
ghost use Rattle.xmp_serial.specs.Lines.{position_of};

use crate::located::Located;
use sqlite_items::Items;

/// How a subscript becomes a position among those that are kept.
#[derive(Clone, Copy)]
pub enum Reach {
    /// itself
    All,
    /// how far it is from the first subscript of an interval, which ends before the second
    Chunk(u32, u32),
    /// as the array's map says
    Asked(Located),
}

/// A dimension: how many subscripts it has, how many of them are kept, and how they become positions.
#[derive(Clone, Copy)]
pub struct Axis {
    pub extent: u32,
    pub held: u32,
    pub reach: Reach,
}

/// An array: its axes, how many cells its row has, whether it is a coarray, and how many cells an image has of it.
#[derive(Drop)]
pub struct Line {
    pub axes: Items<Axis>,
    pub length: usize,
    pub of_images: bool,
    pub cells: usize,
}

impl Axis {
    /// The position of a subscript, or -1 where it isn't kept.
    pub fn position(&self, x: u32) -> i64
        ensures { result ≡ position_of self.now.reach x }
    {
        match &self.reach {
            Reach::All => i64::from(x),
            Reach::Chunk(first, end) => {
                if *first <= x && x < *end {
                    i64::from(x - *first)
                } else {
                    -1
                }
            }
            Reach::Asked(at) => asked(at, x),
        }
    }

    /// The number of a cell, of which the subscripts before this one give `so_far`, where 64 bits hold it.
    pub fn number(&self, so_far: i64, x: u32) -> Option<i64>
        ensures { IfSome result (λ n. n ≡ (so_far *ℤ pos self.now.held) +ℤ position_of self.now.reach x) }
    {
        so_far
            .checked_mul(i64::from(self.held))?
            .checked_add(self.position(x))
    }
}

/// The position that a map gives, or -1.
fn asked(at: &Located, x: u32) -> i64
    ensures { result ≡ position_of (Reach.Asked at.now) x }
{
    if x >= at.map.extent(at.dimension) {
        return -1;
    }
    match at.map.local(at.node, at.dimension, x) {
        Some(position) => i64::from(position),
        None => -1,
    }
}
