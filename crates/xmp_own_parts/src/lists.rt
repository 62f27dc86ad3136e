// Lists from their front, and lists that grow.
ghost use Rattle.std.specs.Prelude.{◌≡◌, [], ◌∷◌, ◌++◌, MatchOption};
ghost use Rattle.xmp_serial.specs.Ends.{Pushes};

use sqlite_items::Items;
use xmp_meaning::Halt;

/// The first item, and those behind it.
#[tactic(auto, using(std::proofs::lemmas::List::nil_from_length))]
pub fn split<T>(items: &[T]) -> Option<(&T, &[T])>
    ensures { MatchOption result (items.now ≡ []) (λ p. items.now ≡ p.0.now ∷ p.1.now) }
{
    items.split_first()
}

/// Adds an item at the end.
pub fn push<T: Drop>(items: &mut Items<T>, item: T) -> Result<(), Halt>
    ensures { Pushes items.old item result items.new }
{
    match items.push(item) {
        Ok(()) => Ok(()),
        Err(_) => Err(Halt::NoMemory),
    }
}
