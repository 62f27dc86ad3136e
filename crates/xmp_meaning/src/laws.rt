// Laws of runs and of statements.
ghost use Rattle.std.specs.Prelude.{◌≡◌, ◌≢◌, ◌+◌, ℕ, List};
ghost use Rattle.std.specs.List.{AllByRecursion};
ghost use Rattle.xmp_prog.specs.declared.parts.ProgParts.{ProgParts};
ghost use Rattle.xmp_prog.specs.declared.expressions.Expr.{Expr};
ghost use Rattle.xmp_prog.specs.declared.statements.LoopDirective.{LoopDirective};
ghost use Rattle.xmp_prog.specs.declared.statements.Stmt.{Stmt};
ghost use Rattle.xmp_meaning.specs.declared.ends.Flow.{Flow};
ghost use Rattle.xmp_meaning.specs.Runs.{Run};
ghost use Rattle.xmp_meaning.specs.Context.{Context};
ghost use Rattle.xmp_meaning.specs.Handlers.{Handlers, erased};
ghost use Rattle.xmp_meaning.specs.Expressions.{expr_of, holds};
ghost use Rattle.xmp_meaning.specs.Calls.{context};
ghost use Rattle.xmp_meaning.specs.Statements.{stmt_of};
ghost use Rattle.xmp_meaning.specs.Programs.{serial};
ghost use Rattle.xmp_meaning.specs.Writes.{scalars_written, arrays_written};
ghost use Rattle.xmp_meaning.specs.Laws.{IsAssociative, StatementsAssociate, BlocksJoin, TurnsAdd, EndsAreFinal, OutputGrows, KeepsScalar, KeepsArray, CallTakesSteps, SameOutcome, NotesApart, TracedIsSerial, PartIsWhole, OneImage, LoopUnrolls, FormatsRead, TurnsAreCounted, CountedTurns, WritesAreOne, AccessesApart};

/// Parts of a run follow each other in one way, however they are grouped.
pub fn sequences_associate<S, A, B, C>()
    ensures parts { IsAssociative S A B C }
    ensures statements { StatementsAssociate S }
{}

/// A block of two lists of statements is the one block, and then the other.
pub fn blocks_join<S>()
    ensures { BlocksJoin S }
{}

/// At most `n + m` turns of a loop are at most `n` turns, and then at most `m`.
pub fn turns_add<S>()
    ensures { TurnsAdd S }
{}

/// Nothing follows a trap or an end of the steps.
pub fn ends_are_final<S, A, B>()
    ensures { EndsAreFinal S A B }
{}

/// What is printed stays in front, also where the run ends early. Directives mean nothing here.
pub fn output_grows<X>()
    ensures { (cx : Context) (s : Stmt) → OutputGrows {X = X} (stmt_of erased cx s) }
{}

/// A statement changes no scalar and no array but those that it writes by name. Directives mean nothing here.
pub fn only_what_is_named<X>()
    ensures scalars { (cx : Context) (s : Stmt) (slot : ℕ) → AllByRecursion (λ n. n ≢ slot) (scalars_written s)
        → KeepsScalar {X = X} slot (stmt_of erased cx s) }
    ensures arrays { (cx : Context) (s : Stmt) (array : ℕ) → AllByRecursion (λ n. n ≢ array) (arrays_written s)
        → KeepsArray {X = X} array (stmt_of erased cx s) }
{}

/// The scalars that a statement writes are those by which the parts of a program are judged.
pub fn writes_are_said_once()
    ensures { (s : Stmt) → WritesAreOne s }
{}

/// A call of a function takes steps, and changes nothing else.
pub fn calls_take_steps<X>()
    ensures { (cx : Context) → CallTakesSteps X cx }
{}

/// With more steps for uncounted loops a program comes to the same outcome, where it isn't out of steps.
pub fn more_steps()
    ensures { (p : ProgParts) (input : List ℕ) (steps more : ℕ) → SameOutcome (serial p input steps) (serial p input (steps + more)) }
{}

/// The run that notes each exchange is the serial run: at each statement, and of the whole program.
pub fn notes_apart()
    ensures statements { (p : ProgParts) (cx : Context) (s : Stmt) → NotesApart p cx s }
    ensures outcome { (p : ProgParts) (input : List ℕ) (steps : ℕ) → TracedIsSerial p input steps }
{}

/// The part of node 0 in a loop directive is the whole loop, where it owns the point of every iteration.
pub fn parts_of_one_node<X>()
    ensures { (p : ProgParts) (h : Handlers X) (cx : Context) (directive : LoopDirective) (body : Run X Flow) → PartIsWhole X p h cx directive body }
{}

/// A coarray program of one image that comes to no `xmp_sync_all` has its serial outcome.
pub fn phases_of_one_image()
    ensures { (p : ProgParts) → OneImage p }
{}

/// The run that notes its accesses is an image's run, the accesses apart.
pub fn accesses_apart()
    ensures { (p : ProgParts) → AccessesApart p }
{}

/// An uncounted loop is its condition, and where that holds a turn, which takes a step, and the loop again.
pub fn loops_unroll<X>()
    ensures { (p : ProgParts) (node : ℕ) (input : List ℕ) (n : ℕ) (e : Expr) (body : Stmt)
        → LoopUnrolls X (holds (expr_of erased (context p node input n) e)) (stmt_of erased (context p node input n) body) }
{}

/// The pieces of a format of `printf` are those that it is spelled of.
pub fn formats_are_read()
    ensures { FormatsRead }
{}

/// A counted loop makes as many turns as there are values of its index inside its bound.
pub fn turns_are_counted()
    ensures { TurnsAreCounted }
{}

/// The turns of a counted loop are those that are counted when it begins: no test fails before, and the index goes up by the step each time.
pub fn counted_turns<X>()
    ensures { CountedTurns X }
{}
