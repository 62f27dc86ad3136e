// Expressions put together of others.
ghost use Rattle.std.specs.Prelude.{◌≡◌, ◌≢◌, IfOk, []};
ghost use Rattle.xmp_syntax.specs.Trees as tree;
ghost use Rattle.xmp_syntax.specs.View.{expr_view, links_view};

use sqlite_items::{Boxed, Items};
use std::alloc::{AllocError, Global};
use xmp_base::Place;
use xmp_syntax::{Expr, Link};

/// The branches of a conditional, with the marks before them.
#[derive(Drop)]
pub struct Branches {
    pub question: Place,
    pub yes: Boxed<Expr>,
    pub colon: Place,
    pub no: Boxed<Expr>,
}

/// A conditional.
#[tactic(auto, using(crate::proofs::Views::view_conditional))]
pub fn conditional(alloc: Global, condition: Expr, branches: Branches) -> Result<Expr, AllocError>
    ensures { IfOk result (λ x. expr_view x ≡ tree.conditional (expr_view condition) branches.question (expr_view branches.yes) branches.colon (expr_view branches.no)) }
{
    let Branches {
        question,
        yes,
        colon,
        no,
    } = branches;
    let condition = Boxed::new(alloc, condition)?;
    Ok(Expr::Conditional(condition, question, yes, colon, no))
}

/// Operands of one level, where there is more than one.
#[tactic(auto, using(crate::proofs::Views::view_chain))]
pub fn chain(
    alloc: Global,
    first: Expr,
    links: Items<Link<Boxed<Expr>>>,
) -> Result<Expr, AllocError>
    ensures none { links ≡ [] → IfOk result (λ x. x ≡ first) }
    ensures some { links ≢ [] → IfOk result (λ x. expr_view x ≡ tree.chain (expr_view first) (links_view links)) }
{
    if links.is_empty() {
        Ok(first)
    } else {
        Ok(Expr::Chain(Boxed::new(alloc, first)?, links))
    }
}
