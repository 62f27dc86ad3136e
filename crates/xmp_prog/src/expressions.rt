// Typed expressions.

use sqlite_items::{Boxed, Items};
use xmp_base::Place;
use xmp_num::{BinOp, Ty};

/// An expression. Unary forms are written by `Binary`: `-e` is `0 - e`, `~e` is `e ^ -1`, `!e` is `e == 0`.
/// A constant expression stands as one `Const`.
#[cycle(expression)]
#[derive(Drop)]
pub enum Expr {
    /// a constant, which lies in its type
    Const(i64, Ty),
    /// a scalar by its slot, with the place of its name
    Scalar(u32, Place),
    /// an element of an array
    Cell(Access),
    /// an operator, the type of its operands, the operands, and the operator's place
    Binary(BinOp, Ty, Boxed<Expr>, Boxed<Expr>, Place),
    /// `a && b`
    Both(Boxed<Expr>, Boxed<Expr>),
    /// `a || b`
    Either(Boxed<Expr>, Boxed<Expr>),
    /// `a ? b : c`
    Choose(Boxed<Expr>, Boxed<Expr>, Boxed<Expr>),
    /// a conversion to a type: a written cast, or one of the usual arithmetic conversions
    Convert(Ty, Boxed<Expr>),
    /// a call of a function by its number, its arguments, and the place of its name
    Call(u32, Items<Expr>, Place),
    /// `xmp_node_num()`
    Node,
    /// `xmp_num_nodes()`
    Nodes,
}

/// An element of an array by the array's number: its subscripts, the image that is asked where one is written, and the
/// place of the array's name.
#[cycle(expression)]
#[derive(Drop)]
pub struct Access {
    pub array: u32,
    pub subscripts: Items<Expr>,
    pub image: Option<Boxed<Expr>>,
    pub at: Place,
}
