// Typed expressions.
use crate::rules::Notes;
use sqlite_items::Items;
use xmp_num::Ty;
use xmp_prog::Expr;

/// What is known of a value before the run.
#[derive(Clone, Copy)]
pub enum Value {
    /// a name stands in the expression
    Named,
    /// it has no name, and its evaluation traps
    Trapping,
    Known(i64),
}

/// An expression: what is made of it, its type where it has one, and what is known of its value.
#[derive(Drop)]
pub struct Operand {
    pub made: Expr,
    pub ty: Option<Ty>,
    pub value: Value,
}

/// An expression, and what is noted of it.
#[derive(Drop)]
pub struct Typed {
    pub operand: Operand,
    pub notes: Notes,
}

/// Expressions in a row: what is made of them, their types, and what is noted of them.
#[derive(Drop)]
pub struct Parts {
    pub made: Items<Expr>,
    pub types: Items<Option<Ty>>,
    pub notes: Notes,
}
