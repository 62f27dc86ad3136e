// What the accesses of a set are found by.
ghost use Rattle.std.specs.Prelude.{◌≡◌};
ghost use Rattle.xmp_spots.specs.Marks.{number_mark, asked_mark};

use crate::touches::Spot;

// One dimension of an access: it has no number, or it has one, which counts or doesn't.
#[derive(Clone, Copy, PartialEq, Eq, Hash)]
pub(crate) enum Mark {
    Whole,
    Any,
    Number(i64),
}

// A coarray, an image whose cells are meant, and three dimensions.
#[derive(Clone, Copy, PartialEq, Eq, Hash)]
pub(crate) struct Key {
    pub(crate) array: u32,
    pub(crate) on: i64,
    pub(crate) first: Mark,
    pub(crate) second: Mark,
    pub(crate) third: Mark,
}

impl Mark {
    // The number, where there is one.
    pub(crate) fn new(number: Option<i64>) -> Mark
        ensures { result ≡ number_mark number }
    {
        match number {
            None => Mark::Whole,
            Some(number) => Mark::Number(number),
        }
    }

    // A number that doesn't count, where there is none.
    pub(crate) fn asked(number: Option<i64>) -> Mark
        ensures { result ≡ asked_mark number }
    {
        match number {
            None => Mark::Any,
            Some(number) => Mark::Number(number),
        }
    }
}

impl Key {
    // The key of a spot of the array, with no number.
    pub(crate) fn new(array: u32, spot: Spot) -> Key
        ensures { result ≡ record { array = array; on = spot.on; first = Mark.Whole; second = Mark.Whole; third = Mark.Whole } }
    {
        Key {
            array,
            on: spot.on,
            first: Mark::Whole,
            second: Mark::Whole,
            third: Mark::Whole,
        }
    }

    pub(crate) fn with_first(self, first: Mark) -> Key
        ensures { result ≡ record self { first = first } }
    {
        Key { first, ..self }
    }

    pub(crate) fn with_second(self, second: Mark) -> Key
        ensures { result ≡ record self { second = second } }
    {
        Key { second, ..self }
    }

    pub(crate) fn with_third(self, third: Mark) -> Key
        ensures { result ≡ record self { third = third } }
    {
        Key { third, ..self }
    }
}
