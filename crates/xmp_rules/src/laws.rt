// The laws of the rules of names.
ghost use Rattle.std.specs.Prelude.{◌↔◌, ℕ, Option};
ghost use Rattle.xmp_base.specs.declared.place.Place.{Place};
ghost use Rattle.xmp_syntax.specs.declared.program.Tree.{Tree};
ghost use Rattle.xmp_rules.specs.Rules.{BreaksAt, Counts, IsUnknown, IsTwice, ReachesOut, IsMisplaced, IsInconstant, StandsIll};

/// Rule N1 breaks at the names that no scope open at their place declares, and at `xmp_sync_all` in a program without a coarray,
/// there alone.
pub fn unknown_names()
    ensures { (t : Tree) (given : Option ℕ) (at : Place) → Counts t given 1 at ↔ BreaksAt IsUnknown t at }
{}

/// Rule N2 breaks at the names that their scope has already declared, at the dummies that their align has already, and at the two names
/// that no program may declare, there alone.
pub fn names_declared_twice()
    ensures { (t : Tree) (given : Option ℕ) (at : Place) → Counts t given 2 at ↔ BreaksAt IsTwice t at }
{}

/// Rule N4 breaks at the first token of an expression that has to be constant and isn't, and of what main returns where that isn't
/// constant, there alone.
pub fn constant_expressions()
    ensures { (t : Tree) (given : Option ℕ) (at : Place) → Counts t given 4 at ↔ BreaksAt IsInconstant t at }
{}

/// Rule N5 breaks, in a function other than main, at the names that mean what lies outside it, other than earlier functions, and at what
/// only main has; and at calls of main; there alone.
pub fn names_outside_functions()
    ensures { (t : Tree) (given : Option ℕ) (at : Place) → Counts t given 5 at ↔ BreaksAt ReachesOut t at }
{}

/// Rule N7 breaks at the name of the last function where that isn't `int main` without parameters, and at each `return` of main but its last
/// statement, there alone.
pub fn main_and_its_return()
    ensures { (t : Tree) (given : Option ℕ) (at : Place) → Counts t given 7 at ↔ BreaksAt IsMisplaced t at }
{}

/// Rule N8 breaks at the name of an array with a constant extent other than 1 to 4,194,304, with more than three dimensions, or that
/// stands elsewhere than at file scope and directly in main's body, and at the word of a mapping that stands elsewhere, there alone.
pub fn arrays_and_their_places()
    ensures { (t : Tree) (given : Option ℕ) (at : Place) → Counts t given 8 at ↔ BreaksAt StandsIll t at }
{}
