ghost use Rattle.xmp_serial.specs.Lines.{AreLines, layout_of};
ghost use Rattle.xmp_serial.specs.LineProps.{lines_prop};

use crate::lines::Line;
use std::alloc::Global;
use xmp_prog::ProgParts;

/// What a run is read against: the program, where the store keeps its arrays' cells (those of a node, or all), the number of the node that
/// runs, the input, and the calls of functions.
#[derive(Drop)]
pub struct Frame<'a, C> {
    pub alloc: Global,
    pub program: &'a ProgParts,
    pub packed: Option<u32>,
    pub lines: &'a [Line],
    pub node: u32,
    pub input: &'a [u8],
    pub callee: &'a C,
    ghost laid: { AreLines (layout_of packed) program.now lines.now program.now.arrays } by { lines_prop _ _ _ _ },
}
