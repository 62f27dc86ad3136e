// The theorem of the nodes, and what code that runs them may take.
ghost use Rattle.std.specs.Prelude.{◌≡◌, ℕ, List, Option, None};
ghost use Rattle.xmp_base.specs.First.{IsFirst};
ghost use Rattle.xmp_prog.specs.declared.parts.ProgParts.{ProgParts};
ghost use Rattle.xmp_prog.specs.declared.parts.Kind.TheVariants.{Global};
ghost use Rattle.xmp_prog.specs.declared.statements.Stmt.{Stmt};
ghost use Rattle.xmp_prog.specs.Fits.{PartsFit};
ghost use Rattle.xmp_flow.specs.Program.{FlowBreaks};
ghost use Rattle.xmp_meaning.specs.Handlers.{erased};
ghost use Rattle.xmp_meaning.specs.Statements.{stmt_of};
ghost use Rattle.xmp_meaning.specs.Programs.{serial};
ghost use Rattle.xmp_meaning.specs.Traffic.{node_context};
ghost use Rattle.xmp_nodes.specs.Lists.{HasAxes};
ghost use Rattle.xmp_nodes.specs.Lockstep.{lockstep, nodes_end};
ghost use Rattle.xmp_nodes.specs.Worlds.{World, world_after};
ghost use Rattle.xmp_nodes.specs.Stands.{StandsFor};
ghost use Rattle.xmp_nodes.specs.Answers.{answer_of};

/// What all nodes come to in step stands for the program: of every program whose parts fit and in which none of the rules
/// on copies and directives breaks, on every input and with any number of steps, the end, the output, the stores and the
/// counts are the program's.
pub fn nodes_carry_out()
    ensures { (p : ProgParts) (input : List ℕ) (steps : ℕ) → PartsFit p → p.kind ≡ Global → HasAxes p
        → IsFirst (FlowBreaks p) None → StandsFor p input steps (world_after (nodes_end p input steps)) }
{}

/// A world that stands for a program, gathered cell by cell from the owners, answers as the program with its directives
/// erased does.
pub fn worlds_answer()
    ensures { (p : ProgParts) (input : List ℕ) (steps : ℕ) (w : World) → PartsFit p → p.kind ≡ Global → HasAxes p
        → StandsFor p input steps w → answer_of p w ≡ serial p input steps }
{}

/// What a node does alone in a task or a loop directive is what the statement does with its directives erased, over the
/// node's packed store.
pub fn nodes_run_alone()
    ensures { (p : ProgParts) (input : List ℕ) (x : Stmt) (node : ℕ)
        → (lockstep p input x).at node ≡ stmt_of erased (node_context p node input) x }
{}
