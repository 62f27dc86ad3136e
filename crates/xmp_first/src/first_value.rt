// The value of a cell.
ghost use Rattle.std.specs.Prelude.{◌≡◌, ◌<◌, ℤ, pos};
ghost use Rattle.xmp_first.specs.FirstGrammar.{Sum};
ghost use Rattle.xmp_first.specs.FirstMeaning.{operand_value, sum_value, cell_value};
ghost use Rattle.xmp_first.specs.FirstTree.{operand_of, continued, tree_of};
ghost use Rattle.xmp_first.specs.FirstRunning.{running_of};

use crate::first::First;
use crate::first_item::Item;
use crate::first_running::Running;

fn operand(item: Item, index: u32) -> i64
    ensures { result ≡ operand_value (operand_of item) (pos index) }
{
    match item {
        Item::Number(n) => i64::from(n),
        _ => i64::from(index),
    }
}

/// The value of what was read with these items behind it.
fn continued(running: Running, items: &[Item], index: u32) -> i64
    ensures { (t : Sum) → running ≡ running_of t (pos index)
        → result ≡ sum_value (continued t items.now) (pos index) }
{
    let Some((first, behind)) = items.split_first() else {
        return running.value();
    };
    let Some((second, rest)) = behind.split_first() else {
        return running.value();
    };
    let Item::Op(op) = *first else {
        return running.value();
    };
    continued(running.extended(op, operand(*second, index)), rest, index)
}

/// The value that the items spell.
fn value_of(items: &[Item], index: u32) -> i64
    ensures { result ≡ sum_value (tree_of items.now) (pos index) }
{
    match items.split_first() {
        Some((first, rest)) => continued(Running::Product(operand(*first, index)), rest, index),
        None => i64::from(index),
    }
}

impl First {
    /// The value of a cell: that of the expression at the cell's index.
    pub fn cell(&self, index: u32) -> i64
        ensures { result ≡ cell_value (tree_of self.now.value) index }
    {
        value_of(self.value.as_slice(), index)
    }
}
