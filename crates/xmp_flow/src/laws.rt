// What happens at each form of statement: one line a form.
ghost use Rattle.std.specs.Prelude.{◌≡◌, ◌∷◌, ◌++◌, ◌&&◌, [], ℕ, ℤ, List, map};
ghost use Rattle.xmp_base.specs.declared.place.Place.{Place};
ghost use Rattle.xmp_paths.specs.Plans.{skip, branch, in_order};
ghost use Rattle.xmp_num.specs.declared.types.Ty.{Ty};
ghost use Rattle.xmp_num.specs.declared.types.BinOp.{BinOp};
ghost use Rattle.xmp_prog.specs.declared.expressions.Access.{Access};
ghost use Rattle.xmp_prog.specs.declared.expressions.Expr.{Expr};
ghost use Rattle.xmp_prog.specs.declared.expressions.Expr.TheVariants as expr;
ghost use Rattle.xmp_prog.specs.declared.statements.LoopHead.{LoopHead};
ghost use Rattle.xmp_prog.specs.declared.statements.LoopDirective.{LoopDirective};
ghost use Rattle.xmp_prog.specs.declared.statements.Plain.{Plain};
ghost use Rattle.xmp_prog.specs.declared.statements.Stmt.{Stmt};
ghost use Rattle.xmp_prog.specs.declared.statements.Stmt.TheVariants as stmt;
ghost use Rattle.xmp_prog.specs.declared.statements.Task.{Task};
ghost use Rattle.xmp_flow.specs.Setting.{Setting, in_task, reads_scalar, wrong_where};
ghost use Rattle.xmp_flow.specs.Elements.{element_read};
ghost use Rattle.xmp_flow.specs.Reads.{reads_of, reads_of_all};
ghost use Rattle.xmp_flow.specs.PlainEvents.{in_form, plain_events};
ghost use Rattle.xmp_flow.specs.LoopEvents.{loop_events};
ghost use Rattle.xmp_flow.specs.Statements.{events_of, if_form, while_events, counted_events};

/// The events of each form of statement, by those of the statements in it.
pub fn forms_of_plans()
    ensures plain { (p : Plain) (s : Setting) → events_of (stmt.Plain p) s ≡ plain_events p s }
    ensures block { (all : List Stmt) (s : Setting) → events_of (stmt.Block all) s ≡ in_order (map (λ x. events_of x s) all) }
    ensures choice { (test : Expr) (a b : Stmt) (s : Setting) → events_of (stmt.If test a b) s
        ≡ in_form s (in_order (reads_of test s ∷ branch (events_of a s) (events_of b s) ∷ [])) (if_form s test a b) }
    ensures uncounted { (test : Expr) (body : Stmt) (at : Place) (s : Setting)
        → events_of (stmt.While test body at) s ≡ while_events test (events_of body) at s }
    ensures counted { (head : LoopHead) (body : Stmt) (s : Setting)
        → events_of (stmt.Counted head body) s ≡ counted_events head (events_of body) s }
    ensures directive { (d : LoopDirective) (body : Stmt) (s : Setting)
        → events_of (stmt.Loop d body) s ≡ loop_events d body (events_of body) s }
    ensures tasks { (all : List Task) (at : Place) (s : Setting)
        → events_of (stmt.Tasks all at) s ≡ in_order (wrong_where s.inside 10 at ∷ map (λ t. events_of t.body (in_task s t.nodes)) all) }
{}

/// The reads of each form of expression, by those of its operands.
pub fn reads_of_forms()
    ensures constant { (v : ℤ) (ty : Ty) (s : Setting) → reads_of (expr.Const v ty) s ≡ skip }
    ensures scalar { (slot : ℕ) (at : Place) (s : Setting) → reads_of (expr.Scalar slot at) s ≡ reads_scalar s slot at }
    ensures cell { (a : Access) (s : Setting) → reads_of (expr.Cell a) s
        ≡ in_order (reads_of_all a.subscripts s ++ element_read s a.array a.subscripts a.at ∷ []) }
    ensures binary { (o : BinOp) (ty : Ty) (a b : Expr) (at : Place) (s : Setting) → reads_of (expr.Binary o ty a b at) s
        ≡ in_order (reads_of a s ∷ reads_of b s ∷ []) }
    ensures both { (a b : Expr) (s : Setting) → reads_of (expr.Both a b) s
        ≡ in_order (reads_of a s ∷ branch (reads_of b s) skip ∷ []) }
    ensures either { (a b : Expr) (s : Setting) → reads_of (expr.Either a b) s
        ≡ in_order (reads_of a s ∷ branch (reads_of b s) skip ∷ []) }
    ensures choice { (a b c : Expr) (s : Setting) → reads_of (expr.Choose a b c) s
        ≡ in_order (reads_of a s ∷ branch (reads_of b s) (reads_of c s) ∷ []) }
    ensures conversion { (ty : Ty) (a : Expr) (s : Setting) → reads_of (expr.Convert ty a) s ≡ reads_of a s }
    ensures call { (function : ℕ) (arguments : List Expr) (at : Place) (s : Setting) → reads_of (expr.Call function arguments at) s
        ≡ in_order (reads_of_all arguments s ++ wrong_where (s.inside && s.loops function) 9 at ∷ []) }
{}
