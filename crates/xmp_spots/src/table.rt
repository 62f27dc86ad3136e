// The nearest refusals by key.
ghost use Rattle.std.specs.Prelude.{◌≡◌, ◌&&◌, OnOk, IfOk, None};
ghost use Rattle.xmp_spots.specs.declared.touches.By.{By};
ghost use Rattle.xmp_spots.specs.declared.keys.Key.{Key};
ghost use Rattle.xmp_spots.specs.Clashes.{by_two};
ghost use Rattle.xmp_spots.specs.Nearest.{noted};
ghost use Rattle.xmp_spots.specs.Tables.{found, same_key};

use crate::keys::Key;
use crate::nearest::Nearest;
use crate::touches::By;
use indexmap::IndexMap;
use std::alloc::{AllocError, Global};
use xmp_base::Refusal;

#[derive(Drop)]
pub(crate) struct Table {
    nearest: IndexMap<Key, Nearest>,
}

impl Table {
    pub(crate) fn new(alloc: Global) -> Table
        ensures { (k : Key) (q : By) → found result k q ≡ None }
    {
        Table {
            nearest: IndexMap::new(alloc),
        }
    }

    // The first refusal at the key that is for an image other than one of these.
    pub(crate) fn found(&self, key: Key, images: By) -> Option<Refusal>
        ensures { result ≡ found self.now key images }
    {
        match self.nearest.get(&key) {
            Some(nearest) => nearest.seen_by(images),
            None => None,
        }
    }

    // One refusal more at the key.
    pub(crate) fn note(&mut self, key: Key, by: By, refusal: Refusal) -> Result<(), AllocError>
        ensures { OnOk result ((k : Key) (q : By) →
            found self.new k q ≡ noted (same_key key k && by_two q by) refusal (found self.old k q)) }
    {
        let nearest = match self.nearest.get(&key) {
            Some(nearest) => nearest.with(by, refusal),
            None => Nearest::new(by, refusal),
        };
        match self.nearest.insert(key, nearest) {
            Ok(_) => Ok(()),
            Err(_) => Err(AllocError),
        }
    }
}
