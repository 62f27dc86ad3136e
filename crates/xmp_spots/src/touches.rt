// Accesses of coarrays, by what they touch.
ghost use Rattle.std.specs.Prelude.{◌≡◌, IfOk};

use sqlite_items::Items;
use std::alloc::{AllocError, Global};
use xmp_base::Place;

/// The images that touch a spot: one, by its number, or several.
#[derive(Clone, Copy)]
pub enum By {
    One(u32),
    Several,
}

/// The subscripts of an access: in each dimension a number, or nothing where it may be any of the dimension. A dimension
/// that the array doesn't have is nothing too.
#[derive(Clone, Copy)]
pub struct Subscripts {
    pub first: Option<i64>,
    pub second: Option<i64>,
    pub third: Option<i64>,
}

/// What images touch by an access: whose cells, as an image's number, and which of them.
#[derive(Clone, Copy)]
pub struct Spot {
    pub by: By,
    pub on: i64,
    pub subscripts: Subscripts,
}

/// An access of a coarray by its number: whether it writes, its spots, and the place of the coarray's name.
#[derive(Drop)]
pub struct Touch {
    pub array: u32,
    pub writes: bool,
    pub spots: Items<Spot>,
    pub at: Place,
}

impl Touch {
    /// The same access.
    pub fn copy(&self, alloc: Global) -> Result<Touch, AllocError>
        ensures { IfOk result (λ copy. copy ≡ self.now) }
    {
        Ok(Touch {
            array: self.array,
            writes: self.writes,
            spots: Items::from_slice(alloc, self.spots.as_slice())?,
            at: self.at,
        })
    }
}
