// An access noted in a table: under each key by which another may find it.
ghost use Rattle.std.specs.Prelude.{◌≡◌, ◌&&◌, OnOk};
ghost use Rattle.std.specs.List.{list_any};
ghost use Rattle.xmp_spots.specs.declared.touches.By.{By};
ghost use Rattle.xmp_spots.specs.declared.keys.Key.{Key};
ghost use Rattle.xmp_spots.specs.Clashes.{by_two};
ghost use Rattle.xmp_spots.specs.Nearest.{noted};
ghost use Rattle.xmp_spots.specs.Tables.{found};
ghost use Rattle.xmp_spots.specs.Entering.{enters_third, enters_second, enters_first, entered};

use crate::keys::{Key, Mark};
use crate::table::Table;
use crate::touches::{By, Spot, Subscripts};
use std::alloc::AllocError;
use xmp_base::Refusal;

impl Table {
    // Under the keys of which two dimensions are chosen.
    fn note_third(
        &mut self,
        key: Key,
        third: Option<i64>,
        by: By,
        refusal: Refusal,
    ) -> Result<(), AllocError>
        ensures { OnOk result ((k : Key) (q : By) →
            found self.new k q ≡ noted (enters_third key third k && by_two q by) refusal (found self.old k q)) }
    {
        if third.is_none() {
            self.note(key.with_third(Mark::Whole), by, refusal)?;
            return Ok(());
        }
        self.note(key.with_third(Mark::Any), by, refusal)?;
        self.note(key.with_third(Mark::new(third)), by, refusal)?;
        Ok(())
    }

    // Under the keys of which one dimension is chosen.
    fn note_second(
        &mut self,
        key: Key,
        subscripts: Subscripts,
        by: By,
        refusal: Refusal,
    ) -> Result<(), AllocError>
        ensures { OnOk result ((k : Key) (q : By) →
            found self.new k q ≡ noted (enters_second key subscripts k && by_two q by) refusal (found self.old k q)) }
    {
        let third = subscripts.third;
        if subscripts.second.is_none() {
            self.note_third(key.with_second(Mark::Whole), third, by, refusal)?;
            return Ok(());
        }
        self.note_third(key.with_second(Mark::Any), third, by, refusal)?;
        let key = key.with_second(Mark::new(subscripts.second));
        self.note_third(key, third, by, refusal)?;
        Ok(())
    }

    // Under the keys of a spot of the array.
    fn note_spot(&mut self, array: u32, spot: Spot, refusal: Refusal) -> Result<(), AllocError>
        ensures { OnOk result ((k : Key) (q : By) →
            found self.new k q ≡ noted (enters_first array spot k && by_two q spot.by) refusal (found self.old k q)) }
    {
        let subscripts = spot.subscripts;
        let key = Key::new(array, spot);
        if subscripts.first.is_none() {
            self.note_second(key, subscripts, spot.by, refusal)?;
            return Ok(());
        }
        self.note_second(key.with_first(Mark::Any), subscripts, spot.by, refusal)?;
        let key = key.with_first(Mark::new(subscripts.first));
        self.note_second(key, subscripts, spot.by, refusal)?;
        Ok(())
    }

    // Under the keys of all these spots of the array.
    pub(crate) fn note_spots(
        &mut self,
        array: u32,
        spots: &[Spot],
        refusal: Refusal,
    ) -> Result<(), AllocError>
        ensures { OnOk result ((k : Key) (q : By) →
            found self.new k q ≡ noted (entered array spots.now k q) refusal (found self.old k q)) }
    {
        'spots: for spot in spots {
            self.note_spot(array, *spot, refusal)?;
        }
        Ok(())
    }
}
