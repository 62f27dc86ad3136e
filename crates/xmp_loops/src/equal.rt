// Whether two expressions are one, places apart.
ghost use Rattle.std.specs.Prelude.{◌≡◌, map};
ghost use Rattle.xmp_prog.specs.declared.expressions.Expr.{out-Expr};
ghost use Rattle.xmp_prog.specs.declared.expressions.Expr.TheOpen.{Expr-F};
ghost use Rattle.xmp_loops.specs.Same.{all_pass, same, same_access, same_form};

use sqlite_items::at;
use xmp_base::Place;
use xmp_num::{BinOp, Ty};
use xmp_prog::{Access, Expr};

/// Whether two expressions are one, places apart.
#[cycle(same)]
pub fn same(e: &Expr, x: &Expr) -> bool
    ensures { result ≡ same e.now x.now }
{
    match e {
        Expr::Const(v, ty) => match x {
            Expr::Const(w, uy) => v == w && ty == uy,
            _ => false,
        },
        Expr::Scalar(slot, _) => match x {
            Expr::Scalar(other, _) => slot == other,
            _ => false,
        },
        Expr::Cell(a) => match x {
            Expr::Cell(b) => same_access(a, b),
            _ => false,
        },
        Expr::Binary(o, ty, a, b, at) => same_binary(*o, *ty, a.get(), b.get(), *at, x),
        Expr::Both(a, b) => same_both(a.get(), b.get(), x),
        Expr::Either(a, b) => same_either(a.get(), b.get(), x),
        Expr::Choose(a, b, c) => same_choice(a.get(), b.get(), c.get(), x),
        Expr::Convert(ty, a) => same_converted(*ty, a.get(), x),
        Expr::Call(function, arguments, at) => {
            same_call(*function, arguments.as_slice(), *at, x)
        }
        Expr::Node => matches!(x, Expr::Node),
        Expr::Nodes => matches!(x, Expr::Nodes),
    }
}

// Whether an expression is this operation on these operands, places apart.
#[cycle(same)]
fn same_binary(o: BinOp, ty: Ty, a: &Expr, b: &Expr, at: Place, x: &Expr) -> bool
    ensures { result ≡ same_form (Expr-F.Binary o ty (same a.now) (same b.now) at) (out-Expr x.now) }
{
    match x {
        Expr::Binary(q, uy, c, d, _) => {
            o == *q && ty == *uy && same(a, c.get()) && same(b, d.get())
        }
        _ => false,
    }
}

// Whether it is `a && b`.
#[cycle(same)]
fn same_both(a: &Expr, b: &Expr, x: &Expr) -> bool
    ensures { result ≡ same_form (Expr-F.Both (same a.now) (same b.now)) (out-Expr x.now) }
{
    match x {
        Expr::Both(c, d) => same(a, c.get()) && same(b, d.get()),
        _ => false,
    }
}

// Whether it is `a || b`.
#[cycle(same)]
fn same_either(a: &Expr, b: &Expr, x: &Expr) -> bool
    ensures { result ≡ same_form (Expr-F.Either (same a.now) (same b.now)) (out-Expr x.now) }
{
    match x {
        Expr::Either(c, d) => same(a, c.get()) && same(b, d.get()),
        _ => false,
    }
}

// Whether it is `a ? b : c`.
#[cycle(same)]
fn same_choice(a: &Expr, b: &Expr, c: &Expr, x: &Expr) -> bool
    ensures { result ≡ same_form (Expr-F.Choose (same a.now) (same b.now) (same c.now)) (out-Expr x.now) }
{
    match x {
        Expr::Choose(f, g, h) => same(a, f.get()) && same(b, g.get()) && same(c, h.get()),
        _ => false,
    }
}

// Whether it is `a` converted to this type.
#[cycle(same)]
fn same_converted(ty: Ty, a: &Expr, x: &Expr) -> bool
    ensures { result ≡ same_form (Expr-F.Convert ty (same a.now)) (out-Expr x.now) }
{
    match x {
        Expr::Convert(uy, b) => ty == *uy && same(a, b.get()),
        _ => false,
    }
}

// Whether it is a call of this function with these arguments.
#[cycle(same)]
fn same_call(function: u32, arguments: &[Expr], at: Place, x: &Expr) -> bool
    ensures { result ≡ same_form (Expr-F.Call function (map same arguments.now) at) (out-Expr x.now) }
{
    match x {
        Expr::Call(other, values, _) => {
            function == *other && all_same(arguments, values.as_slice())
        }
        _ => false,
    }
}

#[cycle(same)]
fn same_access(a: &Access, x: &Access) -> bool
    ensures { result ≡ same_access a.now x.now }
{
    if a.array != x.array || !all_same(a.subscripts.as_slice(), x.subscripts.as_slice()) {
        return false;
    }
    match &a.image {
        None => x.image.is_none(),
        Some(e) => match &x.image {
            Some(y) => same(e.get(), y.get()),
            None => false,
        },
    }
}

#[cycle(same)]
fn all_same(es: &[Expr], xs: &[Expr]) -> bool
    ensures { result ≡ all_pass (map same es.now) xs.now }
{
    'items: for (k, e) in es.iter().enumerate() {
        match at(xs, k) {
            Some(x) => {
                if !same(e, x) {
                    return false;
                }
            }
            None => return false,
        }
    }
    xs.len() == es.len()
}
