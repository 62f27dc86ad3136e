// Declarations of scalars and arrays.
use crate::expression::Expr;
use crate::parts::{CommaList, Inside, Name, TypeWords};
use sqlite_items::Items;
use xmp_base::Place;

#[derive(Drop)]
pub enum Declarator {
    /// A scalar, with `=` and its value where it has one.
    Scalar(Name, Option<(Place, Expr)>),
    /// An array with its extents, and the places of `:`, `[`, `*` and `]` where it is a coarray.
    Array(Name, Items<Inside<Expr>>, Option<(Place, Inside<Place>)>),
}

#[derive(Drop)]
pub struct Declaration {
    pub ty: TypeWords,
    pub items: CommaList<Declarator>,
    pub end: Place,
}
