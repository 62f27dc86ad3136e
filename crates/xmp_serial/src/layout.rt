ghost use Rattle.xmp_meaning.specs.Layouts.{Whole};
ghost use Rattle.xmp_serial.specs.Lines.{AreLines, layout_of};
ghost use Rattle.xmp_serial.specs.LineProps.{lines_prop};

use crate::lines::Line;
use xmp_prog::ProgParts;

/// Where a store keeps the cells of a program's arrays: the cells that a node holds, or all. Calls of functions are always made over whole
/// rows, of which they have none.
#[derive(Drop)]
pub struct Layout<'a> {
    pub program: &'a ProgParts,
    /// the node whose cells are kept, or none where all are
    pub packed: Option<u32>,
    pub(crate) lines: Vec<Line>,
    pub(crate) whole: Vec<Line>,
    ghost lines_are: { AreLines (layout_of packed) program.now lines.items program.now.arrays } by { lines_prop _ _ _ _ },
    ghost whole_are: { AreLines Whole program.now whole.items program.now.arrays } by { lines_prop _ _ _ _ },
}
