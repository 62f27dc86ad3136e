// Laws of nests of counted loops.
ghost use Rattle.std.specs.Prelude.{ℕ, List};
ghost use Rattle.xmp_prog.specs.declared.parts.ProgParts.{ProgParts};
ghost use Rattle.xmp_prog.specs.declared.statements.LoopDirective.{LoopDirective};
ghost use Rattle.xmp_prog.specs.declared.statements.LoopHead.{LoopHead};
ghost use Rattle.xmp_prog.specs.declared.statements.Stmt.{Stmt};
ghost use Rattle.xmp_meaning.specs.declared.ends.Flow.{Flow};
ghost use Rattle.xmp_meaning.specs.Runs.{Run};
ghost use Rattle.xmp_meaning.specs.Context.{Context};
ghost use Rattle.xmp_meaning.specs.Handlers.{Handlers};
ghost use Rattle.xmp_meaning_laws.specs.Tuples.{NestIsFold, TuplesAreKnown, AllTuplesRise, PartIsFold, StatementLeaves, NotedTurnLeaves};

/// A nest does its body for each of its index tuples in turn, and then leaves its indices at the first values outside.
pub fn nests_are_folds<X>()
    ensures { (h : Handlers X) (cx : Context) (heads : List LoopHead) (writes : List ℕ) (body : Run X Flow) → NestIsFold X h cx heads writes body }
{}

/// The index tuples of a nest depend on the scalars of its bounds alone, the indices apart.
pub fn tuples_are_known()
    ensures { (p : ProgParts) (heads : List LoopHead) (writes : List ℕ) → TuplesAreKnown p heads writes }
{}

/// The index tuples of a nest rise in the order of its loops, so each is there once, and their values are values of `int`.
pub fn tuples_rise()
    ensures { (p : ProgParts) (heads : List LoopHead) (writes : List ℕ) → AllTuplesRise p heads writes }
{}

/// A node's part of a loop directive does the body for those index tuples whose point the node owns, in the same order.
pub fn parts_are_folds<X>()
    ensures { (h : Handlers X) (cx : Context) (directive : LoopDirective) (writes : List ℕ) (node : ℕ) (body : Run X Flow)
        → PartIsFold X h cx directive writes node body }
{}

/// A statement leaves the indices and the scalars of the bounds of a nest round it; so does a turn that is noted.
pub fn bodies_leave_bounds<X>()
    ensures statements { (cx : Context) (heads : List LoopHead) (body : Stmt) → StatementLeaves X cx heads body }
    ensures noted { (p : ProgParts) (cx : Context) (directive : LoopDirective) (body : Stmt) → NotedTurnLeaves p cx directive body }
{}
