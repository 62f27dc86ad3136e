// Laws of runs and of statements.
ghost use Rattle.std.specs.Prelude.{ℕ, List};
ghost use Rattle.xmp_dist.specs.declared.dimension.Dim.{Dim};
ghost use Rattle.xmp_map.specs.declared.array_map.ArrayMap.{ArrayMap};
ghost use Rattle.xmp_map.specs.declared.template.Template.{Template};
ghost use Rattle.xmp_prog.specs.declared.parts.ProgParts.{ProgParts};
ghost use Rattle.xmp_prog.specs.declared.expressions.Expr.{Expr};
ghost use Rattle.xmp_prog.specs.declared.statements.LoopHead.{LoopHead};
ghost use Rattle.xmp_prog.specs.declared.statements.Stmt.{Stmt};
ghost use Rattle.xmp_meaning.specs.declared.ends.Flow.{Flow};
ghost use Rattle.xmp_meaning.specs.Runs.{Run};
ghost use Rattle.xmp_meaning.specs.Context.{Context};
ghost use Rattle.xmp_meaning.specs.Handlers.{Handlers, erased};
ghost use Rattle.xmp_meaning.specs.Statements.{stmt_of};
ghost use Rattle.xmp_meaning_laws.specs.Near.{PointsReach};
ghost use Rattle.xmp_meaning_laws.specs.Noted.{AllNotesLie};
ghost use Rattle.xmp_meaning_laws.specs.Laws.{ShapeStays, HandlersAreIdle, IsLocal, OutputUnseen, StepsStay, InputStays, OutputStays, ExpressionsLie, StatementsLie, ProgramsLie, NodeUnasked, LoopsAreCounted, NestsAreCounted, PointsHaveOwners, ShadowIsHeld};

/// A statement leaves the number of scalars, of arrays and of each array's cells. Directives mean nothing here.
pub fn shape_stays<X>()
    ensures { (cx : Context) (s : Stmt) → ShapeStays {X = X} (stmt_of erased cx s) }
{}

/// Where no directive stands, a statement does the same with all handlers that read and write cells where they lie.
pub fn handlers_are_idle<X>()
    ensures { (h : Handlers X) (cx : Context) (s : Stmt) → HandlersAreIdle X h cx s }
{}

/// Without an uncounted loop, in the functions that are called neither, no step is taken, and a run isn't out of steps.
pub fn steps_stay<X>()
    ensures { (p : ProgParts) (node : ℕ) (input : List ℕ) (n : ℕ) (s : Stmt) → StepsStay X p node input n s }
{}

/// A statement doesn't look at its output. Directives mean nothing here.
pub fn output_is_unseen<X>()
    ensures { (cx : Context) (s : Stmt) → OutputUnseen {X = X} (stmt_of erased cx s) }
{}

/// The input is read by `scanf` alone, and the output is written by `printf` alone. Directives mean nothing here.
pub fn input_and_output_stay<X>()
    ensures input { (cx : Context) (s : Stmt) → InputStays X cx s }
    ensures output { (cx : Context) (s : Stmt) → OutputStays X cx s }
{}

/// A statement does the same from states that have the same in what it names. Directives mean nothing here.
pub fn statements_are_local<X>()
    ensures { (cx : Context) (s : Stmt) → IsLocal X cx s }
{}

/// Values lie in their types: what an expression gives, and all variables after it, after a statement and after a program.
pub fn values_lie<X>()
    ensures expressions { (p : ProgParts) (node : ℕ) (input : List ℕ) (n : ℕ) (e : Expr) → ExpressionsLie X p node input n e }
    ensures statements { (p : ProgParts) (node : ℕ) (input : List ℕ) (n : ℕ) (s : Stmt) → StatementsLie X p node input n s }
    ensures programs { (p : ProgParts) (node : ℕ) (input : List ℕ) (steps : ℕ) → ProgramsLie X p node input steps }
{}

/// Where nothing asks for it, in the functions that are called neither, the node's number is of no account.
pub fn node_is_unasked<X>()
    ensures { (p : ProgParts) (node other : ℕ) (input : List ℕ) (n : ℕ) (s : Stmt) → NodeUnasked X p node other input n s }
{}

/// A loop that a program's parts take for counted is counted, where its body leaves its index and the scalars of its bound.
pub fn loops_are_counted<X>()
    ensures { (h : Handlers X) (cx : Context) (head : LoopHead) (body : Run X Flow) → LoopsAreCounted X h cx head body }
{}

/// A nest that a program's parts take for counted makes its turns by their count. Directives mean nothing here.
pub fn nests_are_counted<X>()
    ensures { (cx : Context) (heads : List LoopHead) (body : Stmt) → NestsAreCounted X cx heads body }
{}

/// Each point of a template, one outside it too, has exactly one owner among the nodes of the grid.
pub fn points_have_owners()
    ensures { (t : Template) → PointsHaveOwners t }
{}

/// A node that owns a position of a dimension holds each position within the shadow's widths of it.
pub fn shadows_are_held()
    ensures { (d : Dim) → ShadowIsHeld d }
{}

/// A node that owns a point holds the cells of an array near it, and alone owns those at it.
pub fn points_reach_cells()
    ensures { (m : ArrayMap) → PointsReach m }
{}

/// The indices at the ends of the parts of loop directives are values of `int`, so their traps can be read back.
pub fn notes_lie()
    ensures { (p : ProgParts) (input : List ℕ) (steps : ℕ) → AllNotesLie p input steps }
{}
