// Expressions.
use crate::parts::{Call, Inside, Link, Placed, Reference};
use sqlite_items::{Boxed, Items};
use xmp_base::Place;
use xmp_lex::Mark;
use xmp_num::Ty;

#[derive(Drop)]
pub enum Expr {
    Number(Place, i64, Ty),
    Read(Reference<Boxed<Expr>>),
    Call(Call<Boxed<Expr>>),
    Parens(Inside<Boxed<Expr>>),
    Unary(Placed<Mark>, Boxed<Expr>),
    /// The type in its parentheses, and the operand.
    Cast(Inside<Placed<Ty>>, Boxed<Expr>),
    /// Operands of one level with the operators between them, at least one. They group from the left.
    Chain(Boxed<Expr>, Items<Link<Boxed<Expr>>>),
    /// `condition ? yes : no`, with the places of `?` and `:`
    Conditional(Boxed<Expr>, Place, Boxed<Expr>, Place, Boxed<Expr>),
}
