// What an expression reads.
ghost use Rattle.std.specs.Prelude.{◌≡◌, ◌++◌, ◌∷◌, ◌&&◌, [], map, IfOk};
ghost use Rattle.xmp_paths.specs.Plans.{skip, branch, in_order};
ghost use Rattle.xmp_paths.specs.Flows.{plan_of};
ghost use Rattle.xmp_flow.specs.Setting.{wrong_where};
ghost use Rattle.xmp_flow.specs.Elements.{element_read};
ghost use Rattle.xmp_flow.specs.Reads.{reads_of, reads_of_all};
ghost use Rattle.xmp_flow.specs.Views.{KnowsAll, setting_of};

use crate::elements::element_read;
use crate::scalars::{read_scalar, wrong_where};
use crate::setting::Around;
use sqlite_items::Items;
use std::alloc::{AllocError, Global};
use xmp_base::Place;
use xmp_loops::flag;
use xmp_paths::Flow;
use xmp_prog::{Access, Expr};

/// The reads of an expression.
#[cycle(reads)]
pub fn reads(alloc: Global, s: &Around, e: &Expr) -> Result<Flow, AllocError>
    requires { KnowsAll s.now }
    ensures { IfOk result (λ flow. plan_of flow ≡ reads_of e.now (setting_of s.now)) }
{
    match e {
        Expr::Const(_, _) | Expr::Node | Expr::Nodes => Ok(Flow::nothing(alloc)),
        Expr::Scalar(slot, at) => Ok(read_scalar(alloc, s, *slot, *at)),
        Expr::Cell(access) => reads_of_cell(alloc, s, access),
        Expr::Binary(_, _, a, b, _) => reads_of_both(alloc, s, a.get(), b.get()),
        Expr::Both(a, b) | Expr::Either(a, b) => reads_with_more(alloc, s, a.get(), b.get()),
        Expr::Choose(a, b, c) => reads_of_choice(alloc, s, a.get(), b.get(), c.get()),
        Expr::Convert(_, a) => reads(alloc, s, a.get()),
        Expr::Call(function, arguments, at) => {
            reads_of_call(alloc, s, arguments.as_slice(), *function, *at)
        }
    }
}

// The reads of two expressions.
#[cycle(reads)]
fn reads_of_both(alloc: Global, s: &Around, a: &Expr, b: &Expr) -> Result<Flow, AllocError>
    requires { KnowsAll s.now }
    ensures { IfOk result (λ flow. plan_of flow ≡ in_order (reads_of a.now (setting_of s.now) ∷ reads_of b.now (setting_of s.now) ∷ [])) }
{
    let first = reads(alloc, s, a)?;
    match reads(alloc, s, b) {
        Ok(second) => Flow::both(alloc, first, second),
        Err(e) => {
            std::mem::drop(first);
            Err(e)
        }
    }
}

// The reads of either of two expressions.
#[cycle(reads)]
fn reads_of_either(alloc: Global, s: &Around, a: &Expr, b: &Expr) -> Result<Flow, AllocError>
    requires { KnowsAll s.now }
    ensures { IfOk result (λ flow. plan_of flow ≡ branch (reads_of a.now (setting_of s.now)) (reads_of b.now (setting_of s.now))) }
{
    let left = reads(alloc, s, a)?;
    match reads(alloc, s, b) {
        Ok(right) => Flow::either(alloc, left, right),
        Err(e) => {
            std::mem::drop(left);
            Err(e)
        }
    }
}

// The reads of an expression, or none.
#[cycle(reads)]
fn reads_or_none(alloc: Global, s: &Around, a: &Expr) -> Result<Flow, AllocError>
    requires { KnowsAll s.now }
    ensures { IfOk result (λ flow. plan_of flow ≡ branch (reads_of a.now (setting_of s.now)) skip) }
{
    let reads = reads(alloc, s, a)?;
    Flow::either(alloc, reads, Flow::nothing(alloc))
}

// The reads of an expression, and then those of another or none.
#[cycle(reads)]
fn reads_with_more(alloc: Global, s: &Around, a: &Expr, b: &Expr) -> Result<Flow, AllocError>
    requires { KnowsAll s.now }
    ensures { IfOk result (λ flow. plan_of flow
        ≡ in_order (reads_of a.now (setting_of s.now) ∷ branch (reads_of b.now (setting_of s.now)) skip ∷ [])) }
{
    let first = reads(alloc, s, a)?;
    match reads_or_none(alloc, s, b) {
        Ok(more) => Flow::both(alloc, first, more),
        Err(e) => {
            std::mem::drop(first);
            Err(e)
        }
    }
}

// The reads of a condition, and then those of either of two expressions.
#[cycle(reads)]
fn reads_of_choice(
    alloc: Global,
    s: &Around,
    test: &Expr,
    a: &Expr,
    b: &Expr,
) -> Result<Flow, AllocError>
    requires { KnowsAll s.now }
    ensures { IfOk result (λ flow. plan_of flow
        ≡ in_order (reads_of test.now (setting_of s.now) ∷ branch (reads_of a.now (setting_of s.now)) (reads_of b.now (setting_of s.now)) ∷ [])) }
{
    let first = reads(alloc, s, test)?;
    match reads_of_either(alloc, s, a, b) {
        Ok(either) => Flow::both(alloc, first, either),
        Err(e) => {
            std::mem::drop(first);
            Err(e)
        }
    }
}

// The reads of the arguments of a call, and what is wrong with the call.
#[cycle(reads)]
fn reads_of_call(
    alloc: Global,
    s: &Around,
    arguments: &[Expr],
    function: u32,
    at: Place,
) -> Result<Flow, AllocError>
    requires { KnowsAll s.now }
    ensures { IfOk result (λ flow. plan_of flow
        ≡ in_order (reads_of_all arguments.now (setting_of s.now)
        ++ wrong_where ((setting_of s.now).inside && (setting_of s.now).loops function) 9 at ∷ [])) }
{
    let parts = reads_of_each(alloc, s, arguments)?;
    let wrong = wrong_where(alloc, s.inside && flag(s.loops, function), 9, at);
    with(parts, wrong)
}

// The reads of an element: those of its subscripts, and then its own.
#[cycle(reads)]
fn reads_of_cell(alloc: Global, s: &Around, a: &Access) -> Result<Flow, AllocError>
    requires { KnowsAll s.now }
    ensures { IfOk result (λ flow. plan_of flow
        ≡ in_order (reads_of_all a.now.subscripts (setting_of s.now) ++ element_read (setting_of s.now) a.now.array a.now.subscripts a.now.at ∷ [])) }
{
    let parts = reads_of_each(alloc, s, a.subscripts.as_slice())?;
    let own = element_read(alloc, s, a.array, a.subscripts.as_slice(), a.at);
    with(parts, own)
}

/// The reads of expressions, one by one.
#[cycle(reads)]
pub fn reads_of_each(alloc: Global, s: &Around, es: &[Expr]) -> Result<Items<Flow>, AllocError>
    requires { KnowsAll s.now }
    ensures { IfOk result (λ parts. map plan_of parts ≡ reads_of_all es.now (setting_of s.now)) }
{
    let mut parts = Items::new(alloc);
    'items: for e in es {
        let part = reads(alloc, s, e)?;
        parts.push(part)?;
    }
    Ok(parts)
}

/// Parts in order, with one more behind them.
pub fn with(mut parts: Items<Flow>, last: Flow) -> Result<Flow, AllocError>
    ensures { IfOk result (λ flow. plan_of flow ≡ in_order (map plan_of parts ++ plan_of last ∷ [])) }
{
    parts.push(last)?;
    Ok(Flow::all(parts))
}
