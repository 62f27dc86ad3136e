// What a table finds for an access: the first of those that may be of one cell with it.
ghost use Rattle.std.specs.Prelude.{◌≡◌};
ghost use Rattle.xmp_spots.specs.Tables.{found};
ghost use Rattle.xmp_spots.specs.Asking.{over, asked_spot, asked_spots};

use crate::keys::{Key, Mark};
use crate::table::Table;
use crate::touches::{By, Spot, Subscripts};
use xmp_base::{Refusal, earlier};

impl Table {
    // At the keys of which two dimensions are chosen.
    #[tactic(auto, using(crate::proofs::AskingLaws::over_as))]
    fn ask_third(&self, key: Key, third: Option<i64>, by: By) -> Option<Refusal>
        ensures { result ≡ over third (λ c. found self.now (record key { third = c }) by) }
    {
        let whole = self.found(key.with_third(Mark::Whole), by);
        let other = self.found(key.with_third(Mark::asked(third)), by);
        earlier(whole, other)
    }

    // At the keys of which one dimension is chosen.
    #[tactic(auto, using(crate::proofs::AskingLaws::over_as))]
    fn ask_second(&self, key: Key, subscripts: Subscripts, by: By) -> Option<Refusal>
        ensures { result ≡ over subscripts.second (λ b. over subscripts.third (λ c.
            found self.now (record key { second = b; third = c }) by)) }
    {
        let third = subscripts.third;
        let whole = self.ask_third(key.with_second(Mark::Whole), third, by);
        let other = Mark::asked(subscripts.second);
        let other = self.ask_third(key.with_second(other), third, by);
        earlier(whole, other)
    }

    // At the keys of a spot of the array.
    #[tactic(auto, using(crate::proofs::AskingLaws::over_as))]
    fn ask_spot(&self, array: u32, spot: Spot) -> Option<Refusal>
        ensures { result ≡ asked_spot self.now array spot }
    {
        let key = Key::new(array, spot);
        let subscripts = spot.subscripts;
        let whole = self.ask_second(key.with_first(Mark::Whole), subscripts, spot.by);
        let other = Mark::asked(subscripts.first);
        let other = self.ask_second(key.with_first(other), subscripts, spot.by);
        earlier(whole, other)
    }

    // At the keys of all these spots of the array.
    pub(crate) fn ask_spots(&self, array: u32, spots: &[Spot]) -> Option<Refusal>
        ensures { result ≡ asked_spots self.now array spots.now }
    {
        let mut found = None;
        'spots: for spot in spots {
            found = earlier(found, self.ask_spot(array, *spot));
        }
        found
    }
}
