// A program that was accepted.
ghost use Rattle.std.specs.Prelude.{◌≡◌};

use std::marker::Model;
use xmp_prog::Prog;

/// A program in which no rule breaks. Contracts see it as the parts of its typed program, which is of the kind Global
/// (coarray programs are refused as yet), and in which no read on any path finds a copy that may be out of date.
#[derive(Drop)]
pub struct Accepted {
    prog: Prog,
}

impl Model for Accepted {
    ghost use Rattle.std.specs.Prelude.{◌≡◌, None};
    ghost use Rattle.xmp_drive.specs.Verdict.{Judged};
    ghost use Rattle.xmp_prog.specs.declared.parts.ProgParts.{ProgParts};
    ghost use Rattle.xmp_prog.specs.declared.parts.Kind.TheVariants.{Global};
    ghost use Rattle.xmp_prog.specs.contracts.expressions.Expr as expr;
    ghost use Rattle.xmp_prog.specs.contracts.statements.Stmt as stmt;
    ghost use Rattle.std.specs.Coded.{codes};

    ghost Value = { ProgParts };

    ghost coded = { Prim.hlevel (codes, expr.the_row.coded, stmt.the_row.coded) };

    ghost view = { λ a. a.prog };

    ghost invariant = { λ a. (a.prog.kind ≡ Global) × Judged a.prog None };
}

impl Accepted {
    ghost use Rattle.std.specs.Prelude.{None};
    ghost use Rattle.xmp_drive.specs.Verdict.{Judged};
    ghost use Rattle.xmp_prog.specs.declared.parts.Kind.TheVariants.{Global};

    pub(crate) fn new(prog: Prog) -> Accepted
        requires kind { prog.kind ≡ Global }
        requires judged { Judged prog None }
        ensures { result ≡ prog }
    {
        Accepted { prog }
    }

    /// The typed program.
    pub fn prog(&self) -> &Prog
        ensures program { result.now ≡ self.now }
        ensures kind { result.now.kind ≡ Global }
        ensures judged { Judged result.now None }
    {
        &self.prog
    }
}
