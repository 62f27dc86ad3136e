// A law of the trees of texts.
ghost use Rattle.std.specs.Prelude.{◌≡◌, ℕ, List, true};
ghost use Rattle.xmp_syntax.specs.declared.program.Tree.{Tree};
ghost use Rattle.xmp_source.specs.Source.{IsTreeOf};
ghost use Rattle.xmp_fits.specs.NumbersLie.{tree_lies};

/// The numbers of a text's tree lie in their types: an int is below 2^31, a long below 2^63.
pub fn text_numbers_lie()
    ensures { (text : List ℕ) (x : Tree) → IsTreeOf text x → tree_lies x ≡ true }
{}
