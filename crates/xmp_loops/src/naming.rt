// Whether an expression names a scalar, what it is built of, and its type.
ghost use Rattle.std.specs.Prelude.{◌≡◌, ◌||◌, map};
ghost use Rattle.std.specs.List.{list_any};
ghost use Rattle.xmp_prog.specs.Numbers.{is_in};
ghost use Rattle.xmp_prog.specs.Terms.{type_of};
ghost use Rattle.xmp_prog.specs.Counted.{is_bound_operator};
ghost use Rattle.xmp_loops.specs.Forms.{names, names_in, scalar_type};
ghost use Rattle.xmp_loops.specs.Bounds.{is_bound, is_number, may_stand};

use crate::tables::Numbers;
use xmp_num::{BinOp, Ty};
use xmp_prog::{Access, Expr, ProgParts};

/// Whether an expression names a scalar.
#[cycle(names)]
pub fn names(v: u32, e: &Expr) -> bool
    ensures { result ≡ names v e.now }
{
    match e {
        Expr::Const(_, _) | Expr::Node | Expr::Nodes => false,
        Expr::Scalar(slot, _) => *slot == v,
        Expr::Cell(a) => names_in(v, a),
        Expr::Binary(_, _, a, b, _) => names(v, a.get()) || names(v, b.get()),
        Expr::Both(a, b) => names(v, a.get()) || names(v, b.get()),
        Expr::Either(a, b) => names(v, a.get()) || names(v, b.get()),
        Expr::Choose(a, b, c) => { names(v, a.get()) || (names(v, b.get()) || names(v, c.get())) }
        Expr::Convert(_, a) => names(v, a.get()),
        Expr::Call(_, arguments, _) => any_names(v, arguments.as_slice()),
    }
}

#[cycle(names)]
fn names_in(v: u32, a: &Access) -> bool
    ensures { result ≡ names_in v a.now }
{
    if any_names(v, a.subscripts.as_slice()) {
        return true;
    }
    match &a.image {
        Some(e) => names(v, e.get()),
        None => false,
    }
}

#[cycle(names)]
fn any_names(v: u32, es: &[Expr]) -> bool
    ensures { result ≡ list_any (λ b. b) (map (names v) es.now) }
{
    'items: for e in es {
        if names(v, e) {
            return true;
        }
    }
    false
}

/// Whether a number is in a list.
pub fn is_in(ns: &[u32], n: u32) -> bool
    ensures { result ≡ is_in ns.now n }
{
    'items: for m in ns {
        if *m == n {
            return true;
        }
    }
    false
}

fn is_bound_operator(o: BinOp) -> bool
    ensures { result ≡ is_bound_operator o }
{
    matches!(o, BinOp::Add | BinOp::Sub | BinOp::Mul)
}

/// Whether an expression may be a number of a gmove.
pub fn is_number(e: &Expr) -> bool
    ensures { result ≡ is_number e.now }
{
    match e {
        Expr::Const(_, _) | Expr::Scalar(_, _) => true,
        Expr::Binary(o, _, a, b, _) => {
            is_bound_operator(*o) && (is_number(a.get()) && is_number(b.get()))
        }
        Expr::Convert(_, a) => is_number(a.get()),
        _ => false,
    }
}

/// Whether an expression may be a bound of a loop directive's nest.
pub fn is_bound(outer: &[u32], written: &Numbers, e: &Expr) -> bool
    ensures { result ≡ is_bound outer.now written.now e.now }
{
    match e {
        Expr::Const(_, _) => true,
        Expr::Scalar(slot, _) => is_in(outer, *slot) || !written.has(*slot),
        Expr::Binary(o, _, a, b, _) => {
            is_bound_operator(*o)
                && (is_bound(outer, written, a.get()) && is_bound(outer, written, b.get()))
        }
        Expr::Convert(_, a) => is_bound(outer, written, a.get()),
        _ => false,
    }
}

/// The type of a scalar, or int where there is none.
pub fn scalar_type(p: &ProgParts, v: u32) -> Ty
    ensures { result ≡ scalar_type p.now v }
{
    match p.scalars.get(v as usize) {
        Some(ty) => *ty,
        None => Ty::Int,
    }
}

/// The type of an expression.
pub fn type_of(p: &ProgParts, e: &Expr) -> Ty
    ensures { result ≡ type_of p.now e.now }
{
    match e {
        Expr::Const(_, ty) => *ty,
        Expr::Scalar(slot, _) => scalar_type(p, *slot),
        Expr::Cell(a) => match p.arrays.get(a.array as usize) {
            Some(a) => a.ty,
            None => Ty::Int,
        },
        Expr::Binary(
            BinOp::Less
            | BinOp::LessEq
            | BinOp::Greater
            | BinOp::GreaterEq
            | BinOp::Equal
            | BinOp::Differ,
            _,
            _,
            _,
            _,
        ) => Ty::Int,
        Expr::Binary(_, ty, _, _, _) => *ty,
        Expr::Both(_, _) | Expr::Either(_, _) | Expr::Node | Expr::Nodes => Ty::Int,
        Expr::Choose(_, b, _) => type_of(p, b.get()),
        Expr::Convert(ty, _) => *ty,
        Expr::Call(function, _, _) => match p.functions.get(*function as usize) {
            Some(f) => f.result,
            None => Ty::Int,
        },
    }
}
