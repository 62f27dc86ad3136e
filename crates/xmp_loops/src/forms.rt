// The forms in which a reduction variable may stand.
ghost use Rattle.std.specs.Prelude.{◌≡◌, ◌&&◌, ◌∷◌, []};
ghost use Rattle.std.specs.Option.{option_copied};
ghost use Rattle.xmp_prog.specs.declared.expressions.Expr.{out-Expr};
ghost use Rattle.xmp_loops.specs.Same.{same};
ghost use Rattle.xmp_loops.specs.Forms.{assignment_form, chosen_form, compared, fits_in, goes_before, goes_behind, guarded_form, if_apart, in_type, is_operator, value_form, variable};
ghost use Rattle.xmp_loops.specs.Views.{read_by};

use crate::equal::same;
use crate::naming::{names, scalar_type, type_of};
use xmp_base::Place;
use xmp_num::{BinOp, RedOp, Ty, convert};
use xmp_prog::{Compound, Expr, ProgParts};

/// The expressions that a form reads, or none where it isn't one.
#[derive(Clone, Copy)]
pub enum Form<'a> {
    Beside,
    One(&'a Expr),
    Two(&'a Expr, &'a Expr),
}

fn is_operator(r: RedOp, o: BinOp) -> bool
    ensures { result ≡ is_operator r o }
{
    match r {
        RedOp::Add => o == BinOp::Add,
        RedOp::Mul => o == BinOp::Mul,
        RedOp::And => o == BinOp::And,
        RedOp::Or => o == BinOp::Or,
        RedOp::Xor => o == BinOp::Xor,
        RedOp::Max | RedOp::Min => false,
    }
}

fn goes_before(r: RedOp, o: BinOp) -> bool
    ensures { result ≡ goes_before r o }
{
    match r {
        RedOp::Max => o == BinOp::Greater,
        RedOp::Min => o == BinOp::Less,
        _ => false,
    }
}

fn goes_behind(r: RedOp, o: BinOp) -> bool
    ensures { result ≡ goes_behind r o }
{
    match r {
        RedOp::Max => o == BinOp::Less,
        RedOp::Min => o == BinOp::Greater,
        _ => false,
    }
}

// Whether an expression is the variable.
fn is_variable(v: u32, at: Place, e: &Expr) -> bool
    ensures { result ≡ same e.now (variable v at) }
{
    match e {
        Expr::Scalar(slot, _) => *slot == v,
        _ => false,
    }
}

// Whether it is the variable in a type.
fn is_variable_in(p: &ProgParts, ty: Ty, v: u32, at: Place, e: &Expr) -> bool
    ensures { result ≡ same e.now (in_type p.now ty (variable v at)) }
{
    if scalar_type(p, v) == ty {
        return is_variable(v, at, e);
    }
    match e {
        Expr::Convert(uy, a) => *uy == ty && is_variable(v, at, a.get()),
        _ => false,
    }
}

// Whether the first is the second in a type.
fn is_in_type(p: &ProgParts, ty: Ty, y: &Expr, x: &Expr) -> bool
    ensures { result ≡ same y.now (in_type p.now ty x.now) }
{
    if type_of(p, x) == ty {
        return same(y, x);
    }
    match x {
        Expr::Const(v, _) => match y {
            Expr::Const(w, uy) => *w == convert(*v, ty) && *uy == ty,
            _ => false,
        },
        _ => match y {
            Expr::Convert(uy, a) => *uy == ty && same(a.get(), x),
            _ => false,
        },
    }
}

// What a test compares with the variable.
fn compared<'a>(p: &ProgParts, v: u32, r: RedOp, q: &'a Expr) -> Option<&'a Expr>
    ensures { option_copied result ≡ compared p.now v r (out-Expr q.now) }
{
    match q {
        Expr::Binary(o, ty, a, b, at) => {
            let fits = *ty == scalar_type(p, v);
            if fits && (goes_before(r, *o) && is_variable(v, *at, b.get())) {
                Some(a.get())
            } else if fits && (goes_behind(r, *o) && is_variable(v, *at, a.get())) {
                Some(b.get())
            } else {
                None
            }
        }
        _ => None,
    }
}

// Whether the variable's type is no wider than that of an operation.
fn fits_in(p: &ProgParts, v: u32, ty: Ty) -> bool
    ensures { result ≡ fits_in p.now v ty }
{
    scalar_type(p, v) == ty || scalar_type(p, v) == Ty::Int
}

fn one_if<'a>(v: u32, test: bool, x: &'a Expr) -> Form<'a>
    ensures { read_by result ≡ if_apart v test (x.now ∷ []) x.now }
{
    if test && !names(v, x) {
        Form::One(x)
    } else {
        Form::Beside
    }
}

fn two_if<'a>(v: u32, test: bool, y: &'a Expr, x: &'a Expr) -> Form<'a>
    ensures { read_by result ≡ if_apart v test (y.now ∷ x.now ∷ []) x.now }
{
    if test && !names(v, x) {
        Form::Two(y, x)
    } else {
        Form::Beside
    }
}

// `q ? x : v`
fn chosen_form<'a>(v: u32, at: Place, x: &'a Expr, w: &Expr, compared: Option<&'a Expr>) -> Form<'a>
    ensures { read_by result ≡ chosen_form v at x.now w.now (option_copied compared.entry) }
{
    match compared {
        Some(y) => two_if(v, same(y, x) && is_variable(v, at, w), y, x),
        None => Form::Beside,
    }
}

fn value_form<'a>(p: &ProgParts, v: u32, r: RedOp, here: Place, e: &'a Expr) -> Form<'a>
    ensures { read_by result ≡ value_form p.now v r here (out-Expr e.now) }
{
    match e {
        Expr::Binary(o, ty, a, x, at) => {
            let test = is_operator(r, *o)
                && (fits_in(p, v, *ty) && is_variable_in(p, *ty, v, *at, a.get()));
            one_if(v, test, x.get())
        }
        Expr::Choose(q, x, w) => {
            let compared = compared(p, v, r, q.get());
            chosen_form(v, here, x.get(), w.get(), compared)
        }
        _ => Form::Beside,
    }
}

/// The form of an assignment to a reduction variable.
pub fn assignment_form<'a>(
    p: &ProgParts,
    v: u32,
    r: RedOp,
    at: Place,
    compound: Option<Compound>,
    x: &'a Expr,
) -> Form<'a>
    ensures { read_by result ≡ assignment_form p.now v r at compound x.now }
{
    match compound {
        Some(c) => one_if(v, is_operator(r, c.op) && fits_in(p, v, c.ty), x),
        None => value_form(p, v, r, at, x),
    }
}

/// The form `if (q) v = x;`.
pub fn guarded_form<'a>(p: &ProgParts, v: u32, r: RedOp, q: &'a Expr, x: &'a Expr) -> Form<'a>
    ensures { read_by result ≡ guarded_form p.now v x.now (compared p.now v r (out-Expr q.now)) }
{
    match compared(p, v, r, q) {
        Some(y) => two_if(v, is_in_type(p, scalar_type(p, v), y, x), y, x),
        None => Form::Beside,
    }
}
