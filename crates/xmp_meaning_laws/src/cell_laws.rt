// Locality by cells.
ghost use Rattle.xmp_prog.specs.declared.statements.Stmt.{Stmt};
ghost use Rattle.xmp_meaning.specs.Context.{Context};
ghost use Rattle.xmp_meaning_laws.specs.Agreement.{IsLocalByCells};

/// A statement without directives does the same from states that agree on the scalars and the cells that it reads.
pub fn statements_are_local_by_cells<X>()
    ensures { (cx : Context) (s : Stmt) → IsLocalByCells X cx s }
{}
