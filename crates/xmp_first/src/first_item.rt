use xmp_num::BinOp;

/// An item of an expression: the index, a number or an operator.
#[derive(Clone, Copy, Debug, PartialEq, Eq)]
pub enum Item {
    Index,
    Number(i32),
    Op(BinOp),
}
