// Programs, and what the definitions say that they come to.
ghost use Rattle.std.specs.Prelude.{◌≡◌, [], ◌∷◌, pos};
ghost use Rattle.xmp_base.specs.declared.place.Place.{Place};
ghost use Rattle.xmp_map.specs.declared.grid.Grid.{Grid};
ghost use Rattle.xmp_meaning.specs.declared.outcome.Outcome.TheVariants as outcome;
ghost use Rattle.xmp_meaning.specs.Programs.{serial};
ghost use Rattle.xmp_meaning.specs.Traffic.{report};
ghost use Rattle.xmp_meaning.specs.Accesses.{Get, Put, phase_accesses};
ghost use Rattle.xmp_meaning.specs.Shifted.{shifted};
ghost use Rattle.xmp_meaning.specs.Corners.{corners};
ghost use Rattle.xmp_meaning.specs.Examples.{after_first, put_and_get, read_and_print, ten_turns};

/// `int i; int main() { while (i < 10) i++; printf("%d\n", i); }` prints `10` with ten steps, and is out of steps with nine.
pub fn ten_turns_take_ten_steps()
    ensures ten { (grid : Grid) (at : Place) → serial (ten_turns grid at) [] 10 ≡ outcome.Ended (49 ∷ 48 ∷ 10 ∷ []) [] }
    ensures nine { (grid : Grid) (at : Place) → serial (ten_turns grid at) [] 9 ≡ outcome.OutOfSteps [] }
{}

/// A number is read on node 0, cast from there, and printed on node 1. Node 0 says how its task ended, and casts the number: four words.
/// Node 1 says how its task ended, and its text counts one word.
pub fn a_number_is_read_and_printed()
    ensures { (at : Place) → report (read_and_print at) (53 ∷ []) 0
        ≡ record { words = 1; turns = 0; sent = 4 } ∷ record { words = 1; turns = 0; sent = 4 } ∷ [] }
{}

/// Each of two images writes its number into the other's cell, and in the next phase reads its own. Their cells are the words 0 and 1, and the
/// notices of image 0 are 2 and 3, those of image 1 are 4 and 5.
pub fn two_images_put_and_get()
    ensures first { (at : Place) → (phase_accesses (put_and_get at) [] 0 0 ≡ Put 1 (pos 0) ∷ Put 2 (pos 0) ∷ [])
        × (phase_accesses (put_and_get at) [] 0 1 ≡ Put 0 (pos 1) ∷ Put 4 (pos 0) ∷ []) }
    ensures second { (at : Place) → (phase_accesses (put_and_get at) after_first 1 0 ≡ Get 0 ∷ Put 3 (pos 0) ∷ [])
        × (phase_accesses (put_and_get at) after_first 1 1 ≡ Get 1 ∷ Put 5 (pos 0) ∷ []) }
{}

/// An array in blocks over three nodes is filled, shifted by one cell and summed, and node 0 prints the sum. At the shift node 0 sends a word to node
/// 1, and node 1 one to node 2.
pub fn an_array_is_shifted_and_summed()
    ensures { (at : Place) → report (shifted at) [] 0
        ≡ record { words = 5; turns = 6; sent = 21 } ∷ record { words = 5; turns = 6; sent = 15 }
        ∷ record { words = 4; turns = 4; sent = 14 } ∷ [] }
{}

/// An array in blocks over a grid of 2 x 2 nodes is filled, reflected and summed from its second row and column on, and node 0 prints the sum. Each
/// node sends five cells at the reflect, a corner among them.
pub fn corners_are_summed()
    ensures { (at : Place) → report (corners at) [] 0
        ≡ record { words = 12; turns = 8; sent = 35 } ∷ record { words = 12; turns = 6; sent = 26 }
        ∷ record { words = 12; turns = 6; sent = 26 } ∷ record { words = 12; turns = 5; sent = 26 } ∷ [] }
{}
