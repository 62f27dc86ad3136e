// Numbers in a row, of which the first that equals a number is found at once.
ghost use Rattle.std.specs.Prelude.{◌≡◌, ◌∷◌, ◌++◌, ◌<◌, [], ℕ, OnOk, length, slice_get};
ghost use Rattle.xmp_mapping_rules.specs.Numbers.{first_place, held, is_at};

use sqlite_items::Items;
use std::alloc::{AllocError, Global};
use std::marker::Model;

/// Numbers in a row, of which the first that equals a number is found at once. What lines are about is held so: the first
/// line on an array or a template is the one that counts.
#[derive(Drop)]
pub struct Numbers {
    all: Items<usize>,
    // the place of the first, by number
    places: Items<Option<usize>>,
}

impl Model for Numbers {
    ghost use Rattle.std.specs.Prelude.{List, ℕ};
    ghost use Rattle.xmp_mapping_rules.specs.Numbers.{HasPlaces};

    ghost Value = { List ℕ };

    ghost view = { λ s. s.all };

    ghost invariant = { λ s. HasPlaces s.places s.all };
}

// Makes room for a number, of which nothing is held so far.
fn make_room(places: &mut Items<Option<usize>>, number: usize) -> Result<(), AllocError>
    ensures same { (k : ℕ) → held (slice_get places.new k) ≡ held (slice_get places.old k) }
    ensures room { OnOk result (number < length places.new) }
{
    'room: while places.len() <= number {
        places.push(None)?;
    }
    Ok(())
}

impl Numbers {
    pub(crate) fn new(alloc: Global) -> Numbers
        ensures { result ≡ [] }
    {
        Numbers {
            all: Items::new(alloc),
            places: Items::new(alloc),
        }
    }

    pub(crate) fn as_slice(&self) -> &[usize]
        ensures { result.now ≡ self.now }
    {
        self.all.as_slice()
    }

    /// The place of the first that is this number. Takes constant time.
    pub fn first_place(&self, number: usize) -> Option<usize>
        ensures { result ≡ first_place number self.now }
    {
        match self.places.get(number) {
            Some(place) => *place,
            None => None,
        }
    }

    /// One more number. Takes constant time but for the greatest number so far.
    pub(crate) fn push(&mut self, number: usize) -> Result<(), AllocError>
        ensures { OnOk result (self.new ≡ self.old ++ number ∷ []) }
    {
        make_room(&mut self.places, number)?;
        let place = self.all.len();
        let known = self.first_place(number).is_some();
        self.all.push(number)?;
        if !known {
            self.places.set(number, Some(place));
        }
        Ok(())
    }
}

/// Whether a place is the one that is meant.
pub(crate) fn is_at(i: usize, place: Option<usize>) -> bool
    ensures { result ≡ is_at i place }
{
    match place {
        Some(j) => j == i,
        None => false,
    }
}
