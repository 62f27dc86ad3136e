// The typed program.
ghost use Rattle.std.specs.Prelude.{◌≡◌};
ghost use Rattle.std.specs.List.{list_any};
ghost use Rattle.xmp_prog.specs.Tests.{is_image};
ghost use Rattle.xmp_prog.specs.Fits.{PartsFit, node_count, has_coarrays};

use crate::parts::{Kind, ProgParts};
use std::marker::Model;

/// A typed program. Contracts see it as its parts, which fit.
#[derive(Drop)]
pub struct Prog {
    parts: ProgParts,
}

impl Model for Prog {
    ghost use Rattle.xmp_prog.specs.declared.parts.ProgParts.{ProgParts};
    ghost use Rattle.xmp_prog.specs.Fits.{PartsFit};
    ghost use Rattle.xmp_prog.specs.contracts.expressions.Expr as expr;
    ghost use Rattle.xmp_prog.specs.contracts.statements.Stmt as stmt;
    ghost use Rattle.std.specs.Coded.{codes};

    ghost Value = { ProgParts };

    ghost coded = { Prim.hlevel (codes, expr.the_row.coded, stmt.the_row.coded) };

    ghost view = { λ p. p.parts };

    ghost invariant = { λ p. PartsFit p.parts };
}

impl Prog {
    /// The program of these parts.
    pub fn new(parts: ProgParts) -> Prog
        requires { PartsFit parts }
        ensures { result ≡ parts }
    {
        Prog { parts }
    }

    /// The parts that the program was made of.
    pub fn parts(&self) -> &ProgParts
        ensures parts { result.now ≡ self.now }
        ensures fit { PartsFit result.now }
    {
        &self.parts
    }

    /// How many nodes execute the program: 1 to 16.
    pub fn nodes(&self) -> u32
        ensures { result ≡ node_count self.now }
    {
        self.parts.grid.count()
    }

    /// Whether the program declares a coarray.
    pub fn kind(&self) -> Kind
        ensures kind { result ≡ self.now.kind }
        ensures coarrays { has_coarrays result ≡ list_any (λ a. is_image a.home) self.now.arrays }
    {
        self.parts.kind
    }
}
