ghost use Rattle.std.specs.Prelude.{◌≡◌, [], ◌∷◌, ◌++◌, OnOk, OnErr};

use crate::first_item::Item;
use std::alloc::Global;
use std::marker::Model;
use xmp_base::NoMemory;

/// The items of an expression, in the order of its text.
#[derive(Drop)]
pub struct Items {
    items: Vec<Item>,
}

impl Model for Items {
    ghost use Rattle.std.specs.Prelude.{List};
    ghost use Rattle.xmp_first.specs.declared.first_item.Item.{Item};

    ghost Value = { List Item };

    ghost view = { λ s. s.items.items };
}

impl Items {
    pub fn new(alloc: Global) -> Self
        ensures { result ≡ [] }
    {
        Items {
            items: Vec::new(alloc),
        }
    }

    /// Adds an item at the end, or changes nothing.
    pub fn push(&mut self, item: Item) -> Result<(), NoMemory>
        ensures ok { OnOk result (self.new ≡ self.old ++ item ∷ []) }
        ensures err { OnErr result (self.new ≡ self.old) }
    {
        self.items.push(item).map_err(|_| NoMemory)
    }

    pub fn as_slice(&self) -> &[Item]
        ensures { result.now ≡ self.now }
    {
        self.items.as_slice()
    }
}
