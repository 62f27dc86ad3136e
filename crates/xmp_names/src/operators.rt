// Operators between typed operands.
ghost use Rattle.std.specs.Prelude.{◌≡◌, IfOk, Some};
ghost use Rattle.xmp_names.specs.Rules.{joined as join};
ghost use Rattle.xmp_names.specs.Typing.{operator, arithmetic, as_type, binary, binary_value, both_value, cast, choose, chosen, chosen_value, compare, convert, converted, is_named, operand, shift, typed, either_value, joint, number, operator_of, stands, unary, value_type};

use crate::rules::{Notes, joined, no_notes};
use crate::typed::{Operand, Typed, Value};
use sqlite_items::Boxed;
use std::alloc::{AllocError, Global};
use std::mem::drop;
use xmp_base::Place;
use xmp_lex::Mark;
use xmp_num::{BinOp, Ty};
use xmp_prog::Expr;

/// The kinds of operator between two operands.
#[derive(Clone, Copy)]
pub enum Operator {
    /// of the operands' common type
    Arithmetic(BinOp),
    /// 1 or 0, of operands of a common type
    Compare(BinOp),
    /// of the left operand's type
    Shift(BinOp),
    Both,
    Either,
}

pub(crate) fn operator_of(mark: Mark) -> Operator
    ensures { result ≡ operator_of mark }
{
    match mark {
        Mark::Plus => Operator::Arithmetic(BinOp::Add),
        Mark::Minus => Operator::Arithmetic(BinOp::Sub),
        Mark::Star => Operator::Arithmetic(BinOp::Mul),
        Mark::Slash => Operator::Arithmetic(BinOp::Div),
        Mark::Percent => Operator::Arithmetic(BinOp::Rem),
        Mark::And => Operator::Arithmetic(BinOp::And),
        Mark::Or => Operator::Arithmetic(BinOp::Or),
        Mark::Xor => Operator::Arithmetic(BinOp::Xor),
        Mark::ShiftLeft => Operator::Shift(BinOp::Shl),
        Mark::ShiftRight => Operator::Shift(BinOp::Shr),
        Mark::Less => Operator::Compare(BinOp::Less),
        Mark::LessEqual => Operator::Compare(BinOp::LessEq),
        Mark::Greater => Operator::Compare(BinOp::Greater),
        Mark::GreaterEqual => Operator::Compare(BinOp::GreaterEq),
        Mark::Equal => Operator::Compare(BinOp::Equal),
        Mark::Differ => Operator::Compare(BinOp::Differ),
        Mark::AndAnd => Operator::Both,
        _ => Operator::Either,
    }
}

// The usual arithmetic conversions.
pub fn joint(a: Option<Ty>, b: Option<Ty>) -> Option<Ty>
    ensures { result ≡ joint a b }
{
    match (a, b) {
        (Some(Ty::Int), Some(Ty::Int)) => Some(Ty::Int),
        (Some(_), Some(_)) => Some(Ty::Long),
        _ => None,
    }
}

pub fn value_type(ty: Option<Ty>) -> Ty
    ensures { result ≡ value_type ty }
{
    match ty {
        Some(ty) => ty,
        None => Ty::Int,
    }
}

fn stands(value: Value, ty: Ty, made: Expr) -> Expr
    ensures { result ≡ stands value ty made }
{
    match value {
        Value::Known(v) => Expr::Const(v, ty),
        _ => made,
    }
}

fn binary_value(op: BinOp, ty: Ty, a: Value, b: Value) -> Value
    ensures { result ≡ binary_value op ty a b }
{
    match (a, b) {
        (Value::Named, _) => Value::Named,
        (_, Value::Named) => Value::Named,
        (Value::Known(x), Value::Known(y)) => match xmp_num::binary(op, ty, x, y) {
            Ok(v) => Value::Known(v),
            Err(_) => Value::Trapping,
        },
        _ => Value::Trapping,
    }
}

fn convert(alloc: Global, ty: Ty, made: Expr, value: Value) -> Result<Expr, AllocError>
    ensures { IfOk result (λ e. e ≡ convert ty made value) }
{
    if let Value::Known(v) = value {
        return Ok(Expr::Const(xmp_num::convert(v, ty), ty));
    }
    Ok(Expr::Convert(ty, Boxed::new(alloc, made)?))
}

pub fn as_type(alloc: Global, ty: Ty, x: Operand) -> Result<Expr, AllocError>
    ensures { IfOk result (λ e. e ≡ operand ty x) }
{
    let Operand {
        made,
        ty: from,
        value,
    } = x;
    if from == Some(ty) {
        return Ok(made);
    }
    convert(alloc, ty, made, value)
}

pub(crate) fn number(alloc: Global, v: i64, ty: Ty) -> Typed
    ensures { result ≡ number v ty }
{
    let operand = Operand {
        made: Expr::Const(v, ty),
        ty: Some(ty),
        value: Value::Known(v),
    };
    Typed {
        operand,
        notes: no_notes(alloc),
    }
}

fn finish(ty: Option<Ty>, value: Value, made: Expr, notes: Notes) -> Typed
    ensures { result ≡ typed ty value made notes }
{
    let operand = Operand {
        made: stands(value, value_type(ty), made),
        ty,
        value,
    };
    Typed { operand, notes }
}

fn two(
    alloc: Global,
    op: BinOp,
    ty: Ty,
    left: Expr,
    right: Expr,
    at: Place,
) -> Result<Expr, AllocError>
    ensures { IfOk result (λ e. e ≡ Expr.Binary op ty left right at) }
{
    let (left, right) = two_boxed(alloc, left, right)?;
    Ok(Expr::Binary(op, ty, left, right, at))
}

fn two_boxed(
    alloc: Global,
    left: Expr,
    right: Expr,
) -> Result<(Boxed<Expr>, Boxed<Expr>), AllocError>
    ensures { IfOk result (λ r. (r.0 ≡ left) × (r.1 ≡ right)) }
{
    match Boxed::new(alloc, left) {
        Ok(left) => {
            let right = Boxed::new(alloc, right)?;
            Ok((left, right))
        }
        Err(e) => {
            drop(right);
            Err(e)
        }
    }
}

fn two_of_type(
    alloc: Global,
    op: BinOp,
    ty: Ty,
    left: Operand,
    right: Operand,
    at: Place,
) -> Result<Expr, AllocError>
    ensures { IfOk result (λ e. e ≡ Expr.Binary op ty (operand ty left) (operand ty right) at) }
{
    match boxed_as(alloc, ty, left) {
        Ok(left) => {
            let right = boxed_as(alloc, ty, right)?;
            Ok(Expr::Binary(op, ty, left, right, at))
        }
        Err(e) => {
            drop(right);
            Err(e)
        }
    }
}

/// An operator between two operands.
pub(crate) fn binary(
    alloc: Global,
    op: Operator,
    at: Place,
    a: Typed,
    b: Typed,
) -> Result<Typed, AllocError>
    ensures { IfOk result (λ t. t ≡ binary op at a b) }
{
    let Typed {
        operand: left,
        notes,
    } = a;
    let Typed {
        operand: right,
        notes: more,
    } = b;
    match joined(notes, more) {
        Ok(notes) => by_operator(alloc, op, at, left, right, notes),
        Err(e) => {
            drop((left, right));
            Err(e)
        }
    }
}

fn by_operator(
    alloc: Global,
    op: Operator,
    at: Place,
    left: Operand,
    right: Operand,
    notes: Notes,
) -> Result<Typed, AllocError>
    ensures { IfOk result (λ t. t ≡ operator op at left right notes) }
{
    match op {
        Operator::Arithmetic(op) => arithmetic(alloc, op, at, left, right, notes),
        Operator::Compare(op) => compare(alloc, op, at, left, right, notes),
        Operator::Shift(op) => shift(alloc, op, at, left, right, notes),
        Operator::Both => both(alloc, left, right, notes),
        Operator::Either => either(alloc, left, right, notes),
    }
}

fn arithmetic(
    alloc: Global,
    op: BinOp,
    at: Place,
    left: Operand,
    right: Operand,
    notes: Notes,
) -> Result<Typed, AllocError>
    ensures { IfOk result (λ t. t ≡ arithmetic op at left right notes) }
{
    let ty = joint(left.ty, right.ty);
    let of = value_type(ty);
    let value = binary_value(op, of, left.value, right.value);
    let made = two_of_type(alloc, op, of, left, right, at)?;
    Ok(finish(ty, value, made, notes))
}

fn compare(
    alloc: Global,
    op: BinOp,
    at: Place,
    left: Operand,
    right: Operand,
    notes: Notes,
) -> Result<Typed, AllocError>
    ensures { IfOk result (λ t. t ≡ compare op at left right notes) }
{
    let of = value_type(joint(left.ty, right.ty));
    let value = binary_value(op, of, left.value, right.value);
    let made = two_of_type(alloc, op, of, left, right, at)?;
    Ok(finish(Some(Ty::Int), value, made, notes))
}

fn shift(
    alloc: Global,
    op: BinOp,
    at: Place,
    left: Operand,
    right: Operand,
    notes: Notes,
) -> Result<Typed, AllocError>
    ensures { IfOk result (λ t. t ≡ shift op at left right notes) }
{
    let of = value_type(left.ty);
    let value = binary_value(op, of, left.value, right.value);
    let ty = left.ty;
    let made = two(alloc, op, of, left.made, right.made, at)?;
    Ok(finish(ty, value, made, notes))
}

fn both(alloc: Global, left: Operand, right: Operand, notes: Notes) -> Result<Typed, AllocError>
    ensures { IfOk result (λ t. t
        ≡ typed (Some Ty.Int) (both_value left.value right.value) (Expr.Both left.made right.made) notes) }
{
    let value = both_value(left.value, right.value);
    let (left, right) = two_boxed(alloc, left.made, right.made)?;
    Ok(finish(Some(Ty::Int), value, Expr::Both(left, right), notes))
}

fn either(alloc: Global, left: Operand, right: Operand, notes: Notes) -> Result<Typed, AllocError>
    ensures { IfOk result (λ t. t
        ≡ typed (Some Ty.Int) (either_value left.value right.value) (Expr.Either left.made right.made) notes) }
{
    let value = either_value(left.value, right.value);
    let (left, right) = two_boxed(alloc, left.made, right.made)?;
    Ok(finish(Some(Ty::Int), value, Expr::Either(left, right), notes))
}

// `&&`: only what it needs is evaluated, but a name in it is a name.
fn both_value(a: Value, b: Value) -> Value
    ensures { result ≡ both_value a b }
{
    match (a, b) {
        (Value::Named, _) => Value::Named,
        (_, Value::Named) => Value::Named,
        (Value::Trapping, _) => Value::Trapping,
        (Value::Known(0), _) => Value::Known(0),
        (_, Value::Known(0)) => Value::Known(0),
        (_, Value::Known(_)) => Value::Known(1),
        _ => Value::Trapping,
    }
}

fn either_value(a: Value, b: Value) -> Value
    ensures { result ≡ either_value a b }
{
    match (a, b) {
        (Value::Named, _) => Value::Named,
        (_, Value::Named) => Value::Named,
        (Value::Trapping, _) => Value::Trapping,
        (Value::Known(0), Value::Known(0)) => Value::Known(0),
        (Value::Known(0), Value::Trapping) => Value::Trapping,
        _ => Value::Known(1),
    }
}

/// A cast that is written.
pub(crate) fn cast(alloc: Global, ty: Ty, x: Typed) -> Result<Typed, AllocError>
    ensures { IfOk result (λ t. t ≡ cast ty x) }
{
    let Typed { operand, notes } = x;
    let Operand { made, value, .. } = operand;
    let made = convert(alloc, ty, made, value)?;
    let operand = Operand {
        made,
        ty: Some(ty),
        value: converted(ty, value),
    };
    Ok(Typed { operand, notes })
}

/// A prefix operator, written by a binary one.
pub(crate) fn unary(alloc: Global, mark: Mark, at: Place, x: Typed) -> Result<Typed, AllocError>
    ensures { IfOk result (λ t. t ≡ unary mark at x) }
{
    match mark {
        Mark::Minus => {
            let zero = number(alloc, 0, Ty::Int);
            binary(alloc, Operator::Arithmetic(BinOp::Sub), at, zero, x)
        }
        Mark::Tilde => {
            let ones = number(alloc, -1, Ty::Int);
            binary(alloc, Operator::Arithmetic(BinOp::Xor), at, x, ones)
        }
        Mark::Bang => {
            let zero = number(alloc, 0, Ty::Int);
            binary(alloc, Operator::Compare(BinOp::Equal), at, x, zero)
        }
        _ => Ok(x),
    }
}

/// `test ? yes : no`
pub(crate) fn choose(alloc: Global, test: Typed, yes: Typed, no: Typed) -> Result<Typed, AllocError>
    ensures { IfOk result (λ t. t ≡ choose test yes no) }
{
    let Typed {
        operand: test,
        notes,
    } = test;
    let Typed {
        operand: yes,
        notes: of_yes,
    } = yes;
    let Typed {
        operand: no,
        notes: of_no,
    } = no;
    match three_joined(notes, of_yes, of_no) {
        Ok(notes) => chosen(alloc, test, yes, no, notes),
        Err(e) => {
            drop((test, yes, no));
            Err(e)
        }
    }
}

fn three_joined(first: Notes, second: Notes, third: Notes) -> Result<Notes, AllocError>
    ensures { IfOk result (λ n. n ≡ join (join first second) third) }
{
    let notes = joined(first, second)?;
    joined(notes, third)
}

fn chosen(
    alloc: Global,
    test: Operand,
    yes: Operand,
    no: Operand,
    notes: Notes,
) -> Result<Typed, AllocError>
    ensures { IfOk result (λ t. t ≡ chosen test yes no notes) }
{
    let ty = joint(yes.ty, no.ty);
    let of = value_type(ty);
    let value = chosen_value(of, test.value, yes.value, no.value);
    let made = three(alloc, test.made, of, yes, no)?;
    Ok(finish(ty, value, made, notes))
}

// A condition with two operands in a type. Each is boxed before the next is made, so that it is let go whole.
fn three(alloc: Global, test: Expr, ty: Ty, yes: Operand, no: Operand) -> Result<Expr, AllocError>
    ensures { IfOk result (λ e. e ≡ Expr.Choose test (operand ty yes) (operand ty no)) }
{
    match Boxed::new(alloc, test) {
        Ok(test) => two_chosen(alloc, test, ty, yes, no),
        Err(e) => {
            drop((yes, no));
            Err(e)
        }
    }
}

fn two_chosen(
    alloc: Global,
    test: Boxed<Expr>,
    ty: Ty,
    yes: Operand,
    no: Operand,
) -> Result<Expr, AllocError>
    ensures { IfOk result (λ e. e ≡ Expr.Choose test (operand ty yes) (operand ty no)) }
{
    match boxed_as(alloc, ty, yes) {
        Ok(yes) => {
            let no = boxed_as(alloc, ty, no)?;
            Ok(Expr::Choose(test, yes, no))
        }
        Err(e) => {
            drop(no);
            Err(e)
        }
    }
}

// An operand in a type, in a box.
fn boxed_as(alloc: Global, ty: Ty, x: Operand) -> Result<Boxed<Expr>, AllocError>
    ensures { IfOk result (λ e. e ≡ operand ty x) }
{
    let made = as_type(alloc, ty, x)?;
    Boxed::new(alloc, made)
}

fn chosen_value(ty: Ty, test: Value, yes: Value, no: Value) -> Value
    ensures { result ≡ chosen_value ty test yes no }
{
    if is_named(test) || is_named(yes) || is_named(no) {
        return Value::Named;
    }
    match test {
        Value::Known(x) => {
            if x == 0 {
                converted(ty, no)
            } else {
                converted(ty, yes)
            }
        }
        _ => Value::Trapping,
    }
}

fn is_named(value: Value) -> bool
    ensures { result ≡ is_named value }
{
    match value {
        Value::Named => true,
        _ => false,
    }
}

fn converted(ty: Ty, value: Value) -> Value
    ensures { result ≡ converted ty value }
{
    match value {
        Value::Known(v) => Value::Known(xmp_num::convert(v, ty)),
        other => other,
    }
}
