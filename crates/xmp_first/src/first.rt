ghost use Rattle.std.specs.Prelude.{◌≡◌, ◌≤◌, true};
ghost use Rattle.xmp_first.specs.First.{is_expression};

use crate::first_items::Items;

/// A program of the first form: how many cells its array has, over how many nodes they are spread,
/// and the value that each cell is given, as an expression in the cell's index.
#[derive(Drop)]
pub struct First {
    pub size: u32,
    pub nodes: u32,
    pub value: Items,
    ghost some_cells: { 1 ≤ size },
    ghost few_cells: { size ≤ 4194304 },
    ghost some_nodes: { 1 ≤ nodes },
    ghost few_nodes: { nodes ≤ 16 },
    ghost expression: { is_expression value ≡ true },
}
