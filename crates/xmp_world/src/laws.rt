// Laws of worlds.
ghost use Rattle.std.specs.Prelude.{◌≡◌, ℕ, List, None, length};
ghost use Rattle.std.specs.List.{AllByRecursion, flat_map};
ghost use Rattle.xmp_prog.specs.declared.parts.ProgParts.{ProgParts};
ghost use Rattle.xmp_nodes.specs.Worlds.{World};
ghost use Rattle.xmp_nodes.specs.Stands.{StandsFor};
ghost use Rattle.xmp_world.specs.Counts.{rows_of};
ghost use Rattle.xmp_world.specs.Reports.{program_report, report_of};

/// Rows of one length, laid one behind the other, are read back.
pub fn rows_are_read_back()
    ensures { (wide : ℕ) (rows : List (List ℕ)) → AllByRecursion (λ row. length row ≡ wide) rows
        → rows_of (length rows) wide (flat_map (λ row. row) rows) ≡ rows }
{}

/// The report on a world that stands for a program that ends by itself is the report on the program.
pub fn worlds_report()
    ensures { (p : ProgParts) (input : List ℕ) (steps : ℕ) (w : World) → StandsFor p input steps w → w.ended ≡ None
        → report_of w ≡ program_report p input steps }
{}
