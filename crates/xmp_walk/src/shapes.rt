// Which `for` is a counted loop.
ghost use Rattle.std.specs.Prelude.{◌≡◌};
ghost use Rattle.xmp_prog.specs.declared.expressions.Expr.{out-Expr};
ghost use Rattle.xmp_prog.specs.declared.statements.Stmt.{out-Stmt};
ghost use Rattle.xmp_walk.specs.Counted.{bound_of};
ghost use Rattle.xmp_walk.specs.Statements.{added_by, added_plain, compared_at, is_bump, shape_at, shape_by, shape_of};

use crate::counted::{added_to, bound_of, is_counted};
use crate::loops::{ForParts, Shape};
use xmp_base::Place;
use xmp_names::{Operand, first_place};
use xmp_num::{BinOp, Ty};
use xmp_prog as prog;
use xmp_syntax::{Expr, ForHead, Simple};

// The place of what a comparison compares with.
fn compared_at(test: &Option<Expr>) -> Option<Place>
    ensures { result ≡ compared_at test.now }
{
    match test {
        Some(Expr::Chain(_, links)) => match links.as_slice() {
            [link] => Some(first_place(link.right.get())),
            _ => None,
        },
        _ => None,
    }
}

fn is_bump(next: &Option<Simple>) -> bool
    ensures { result ≡ is_bump next.now }
{
    match next {
        Some(Simple::Postfix(_, _)) => true,
        Some(Simple::Prefix(_, _)) => true,
        _ => false,
    }
}

// What the last part adds to the index.
fn added_plain(index: u32, next: &prog::Plain) -> Option<u32>
    ensures { result ≡ added_plain index next.now }
{
    match next {
        prog::Plain::Set {
            target,
            compound: Some(compound),
            value,
        } => {
            if compound.op == BinOp::Add {
                added_to(index, target, value)
            } else {
                None
            }
        }
        _ => None,
    }
}

fn added_by(index: u32, next: &prog::Stmt) -> Option<u32>
    ensures { result ≡ added_by index (out-Stmt next.now) }
{
    match next {
        prog::Stmt::Plain(plain) => added_plain(index, plain),
        _ => None,
    }
}

// The shape of a loop with this index, this condition and this last part.
fn shape_by(
    index: prog::Name,
    by_one: bool,
    test: &prog::Expr,
    to_at: Option<Place>,
    step: Option<u32>,
    body: &prog::Stmt,
) -> Option<Shape>
    ensures { result ≡ shape_by index.number index.at by_one (bound_of index.number (out-Expr test.now)) to_at step body.now }
{
    let Some((to, inclusive)) = bound_of(index.number, test) else {
        return None;
    };
    let Some(to_at) = to_at else {
        return None;
    };
    let Some(step) = step else {
        return None;
    };
    if is_counted(index.number, to, inclusive, by_one, body) {
        Some(Shape {
            index,
            inclusive,
            step,
            to_at,
        })
    } else {
        None
    }
}

fn shape_at(
    head: &ForHead,
    target: &Operand,
    test: &Operand,
    next: &prog::Stmt,
    body: &prog::Stmt,
) -> Option<Shape>
    ensures { result ≡ shape_at head.now target.now.ty test.now next.now body.now (out-Expr target.now.made) }
{
    match &target.made {
        prog::Expr::Scalar(slot, at) => {
            if target.ty == Some(Ty::Int) {
                let index = prog::Name {
                    number: *slot,
                    at: *at,
                };
                let step = added_by(index.number, next);
                shape_by(
                    index,
                    is_bump(&head.next),
                    &test.made,
                    compared_at(&head.test),
                    step,
                    body,
                )
            } else {
                None
            }
        }
        _ => None,
    }
}

/// The shape of the counted loop that a `for` with these parts and this body is, where it is one.
pub(crate) fn shape_of(head: &ForHead, parts: &ForParts, body: &prog::Stmt) -> Option<Shape>
    ensures { result ≡ shape_of head.now parts.now.first parts.now.test parts.now.next body.now }
{
    match (&parts.first, &parts.test, &parts.next) {
        (Some(first), Some(test), Some(next)) => {
            shape_at(head, &first.get().target, test.get(), next.get(), body)
        }
        _ => None,
    }
}
