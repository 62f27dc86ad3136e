// Laws of the verdict on a tree.
ghost use Rattle.std.specs.Prelude.{◌⊎◌, ℕ, Option, None, Some, IsTrue};
ghost use Rattle.xmp_base.specs.declared.refusal.Refusal.{Refusal};
ghost use Rattle.xmp_prog.specs.declared.parts.ProgParts.{ProgParts};
ghost use Rattle.xmp_syntax.specs.declared.program.Tree.{Tree};
ghost use Rattle.xmp_parts.specs.Narrow.{is_count};
ghost use Rattle.xmp_parts.specs.Parts.{IsParts};
ghost use Rattle.xmp_parts.specs.Verdict.{IsVerdict};

/// For each number of nodes that is missing or 1 to 16, a rule of names or mappings breaks in a tree at a place, or none
/// does and the tree has parts.
pub fn every_tree_is_judged()
    ensures { (t : Tree) (given : Option ℕ) → IsTrue (is_count given)
        → ((p : ProgParts) × IsVerdict t given None × IsParts t given p) ⊎ ((r : Refusal) × IsVerdict t given (Some r)) }
{}
