// The parts of a program fit.
ghost use Rattle.std.specs.Prelude.{◌≡◌, ℕ, IsTrue, None, Option, true};
ghost use Rattle.xmp_syntax.specs.declared.program.Tree.{Tree};
ghost use Rattle.xmp_prog.specs.declared.parts.ProgParts.{ProgParts};
ghost use Rattle.xmp_prog.specs.Fits.{PartsFit};
ghost use Rattle.xmp_parts.specs.Narrow.{is_count};
ghost use Rattle.xmp_parts.specs.Parts.{IsParts};
ghost use Rattle.xmp_parts.specs.Verdict.{verdict};
ghost use Rattle.xmp_fits.specs.NumbersLie.{tree_lies};

/// For every tree whose numbers lie in their types, and a number of nodes that is missing or 1 to 16: where no rule of names or mappings breaks, the
/// parts of the typed program fit by every clause of `PartsFit`.
pub fn parts_fit()
    ensures { (t : Tree) (given : Option ℕ) (p : ProgParts) → tree_lies t ≡ true → IsTrue (is_count given) → verdict t given ≡ None → IsParts t given p → PartsFit p }
{}
