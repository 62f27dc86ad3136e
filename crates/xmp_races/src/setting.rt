// Where an expression or a statement stands, as the code has it.

use sqlite_items::Items;
use xmp_prog::ProgParts;
use xmp_spots::Variables;

/// A counted loop whose bounds are image expressions: the slot of its index, on each image the first value and the bound,
/// whether the bound is inclusive, and the step.
#[derive(Drop)]
pub struct LoopImages {
    pub index: u32,
    pub from: Items<i32>,
    pub to: Items<i32>,
    pub inclusive: bool,
    pub step: u32,
}

/// The program, the number of its images, the values of the image variables, and which functions have an uncounted loop;
/// the images that come there, and the counted loops round it whose bounds are image expressions, the innermost first.
#[derive(Clone, Copy)]
pub struct Site<'a> {
    pub program: &'a ProgParts,
    pub count: u32,
    pub values: &'a Variables,
    pub looping: &'a [bool],
    pub counts: &'a [bool],
    pub loops: &'a [LoopImages],
}
