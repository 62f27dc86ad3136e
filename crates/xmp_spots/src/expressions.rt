// Image expressions: what an expression gives on each image, where that depends on nothing else.
ghost use Rattle.std.specs.Prelude.{◌≡◌, IfOk, slice_get};
ghost use Rattle.xmp_num.specs.Arithmetic.{binary_of, wrap};
ghost use Rattle.xmp_meaning.specs.Expressions.{as_truth};
ghost use Rattle.xmp_spots.specs.Images.{row_of, is_variable, is_built, given, joined, converted, chosen, value_on, image_values};

use crate::variables::Variables;
use std::alloc::Global;
use xmp_base::{NoMemory, Words};
use xmp_num::{BinOp, Ty, binary, convert};
use xmp_prog::Expr;

// Whether a scalar is an image variable.
fn is_variable(values: &Variables, slot: u32) -> bool
    ensures { result ≡ is_variable values.now slot }
{
    match values.row(slot as usize) {
        Some(row) => !row.is_empty(),
        None => false,
    }
}

// Its value on an image, where it is one.
fn variable_on(values: &Variables, slot: u32, image: u32) -> Option<i64>
    ensures { result ≡ slice_get (row_of values.now slot) image }
{
    match values.row(slot as usize) {
        Some(row) => row.get(image as usize).copied(),
        None => None,
    }
}

// An operator on two values, where both are there and it doesn't trap.
fn applied(op: BinOp, ty: Ty, a: Option<i64>, b: Option<i64>) -> Option<i64>
    ensures { result ≡ joined (λ x y. given (binary_of op ty x y)) a b }
{
    let (Some(x), Some(y)) = (a, b) else {
        return None;
    };
    match binary(op, ty, x, y) {
        Ok(value) => Some(value),
        Err(_) => None,
    }
}

// 1 for a value other than 0, else 0.
fn truth(a: Option<i64>) -> Option<i64>
    ensures { result ≡ converted as_truth a }
{
    match a {
        Some(0) => Some(0),
        Some(_) => Some(1),
        None => None,
    }
}

// A value of a type.
fn converted(ty: Ty, a: Option<i64>) -> Option<i64>
    ensures { result ≡ converted (wrap ty) a }
{
    match a {
        Some(value) => Some(convert(value, ty)),
        None => None,
    }
}

// What follows a condition.
fn chosen(a: Option<i64>, b: Option<i64>, c: Option<i64>) -> Option<i64>
    ensures { result ≡ chosen a b c }
{
    match a {
        None => None,
        Some(0) => c,
        Some(_) => b,
    }
}

// Whether an expression has nothing but numbers, the two calls for node numbers, image variables, operators and
// conversions.
#[cycle(is_built)]
fn is_built(values: &Variables, e: &Expr) -> bool
    ensures { result ≡ is_built values.now e.now }
{
    match e {
        Expr::Const(_, _) => true,
        Expr::Scalar(slot, _) => is_variable(values, *slot),
        Expr::Cell(_) => false,
        Expr::Binary(_, _, a, b, _) => is_built(values, a.get()) && is_built(values, b.get()),
        Expr::Both(a, b) => is_built(values, a.get()) && is_built(values, b.get()),
        Expr::Either(a, b) => is_built(values, a.get()) && is_built(values, b.get()),
        Expr::Choose(a, b, c) => {
            is_built(values, a.get()) && is_built(values, b.get()) && is_built(values, c.get())
        }
        Expr::Convert(_, a) => is_built(values, a.get()),
        Expr::Call(_, _, _) => false,
        Expr::Node => true,
        Expr::Nodes => true,
    }
}

// The value of such an expression on one of so many images.
#[cycle(value_on)]
fn value_on(count: u32, values: &Variables, image: u32, e: &Expr) -> Option<i64>
    ensures { result ≡ value_on count values.now image e.now }
{
    match e {
        Expr::Const(value, _) => Some(*value),
        Expr::Scalar(slot, _) => variable_on(values, *slot, image),
        Expr::Cell(_) => None,
        Expr::Binary(op, ty, a, b, _) => {
            let x = value_on(count, values, image, a.get());
            applied(*op, *ty, x, value_on(count, values, image, b.get()))
        }
        Expr::Both(a, b) => {
            let x = value_on(count, values, image, a.get());
            chosen(x, truth(value_on(count, values, image, b.get())), Some(0))
        }
        Expr::Either(a, b) => {
            let x = value_on(count, values, image, a.get());
            chosen(x, Some(1), truth(value_on(count, values, image, b.get())))
        }
        Expr::Choose(a, b, c) => {
            let x = value_on(count, values, image, a.get());
            let y = value_on(count, values, image, b.get());
            chosen(x, y, value_on(count, values, image, c.get()))
        }
        Expr::Convert(ty, a) => converted(*ty, value_on(count, values, image, a.get())),
        Expr::Call(_, _, _) => None,
        Expr::Node => Some(i64::from(image)),
        Expr::Nodes => Some(i64::from(count)),
    }
}

/// The values of an image expression on each of so many images, in order, or nothing where the expression is none: it has
/// something else than numbers, `xmp_node_num()`, `xmp_num_nodes()`, image variables, operators and conversions, or traps
/// on some image. The rows have the values of the image variables by slot, and an empty row for each other scalar.
pub fn image_values(
    alloc: Global,
    count: u32,
    values: &Variables,
    e: &Expr,
) -> Result<Option<Words>, NoMemory>
    ensures { IfOk result (λ found. found ≡ image_values count values.now e.now) }
{
    if !is_built(values, e) {
        return Ok(None);
    }
    let mut found = Words::new(alloc);
    'images: for image in 0..count {
        match value_on(count, values, image, e) {
            Some(value) => found.push(value)?,
            None => return Ok(None),
        }
    }
    Ok(Some(found))
}
