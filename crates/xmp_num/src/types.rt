/// A type of C with 32 (`int`) or 64 (`long`) bits in two's complement.
#[derive(Clone, Copy, Debug, PartialEq, Eq)]
pub enum Ty {
    Int,
    Long,
}

/// Why a program stops: a division by zero, a subscript outside its array, a shift by a negative
/// count or by the width of its type or more, sections that don't fit each other.
#[derive(Clone, Copy, Debug, PartialEq, Eq)]
pub enum TrapKind {
    Zero,
    Subscript,
    Shift,
    Section,
}

/// The binary operators of C that have two operands of one type. `Differ` is `!=`.
#[derive(Clone, Copy, Debug, PartialEq, Eq)]
pub enum BinOp {
    Add,
    Sub,
    Mul,
    Div,
    Rem,
    Shl,
    Shr,
    And,
    Or,
    Xor,
    Less,
    LessEq,
    Greater,
    GreaterEq,
    Equal,
    Differ,
}

/// The operations of a `reduction` clause: `+ * & | ^ max min`.
#[derive(Clone, Copy, Debug, PartialEq, Eq)]
pub enum RedOp {
    Add,
    Mul,
    And,
    Or,
    Xor,
    Max,
    Min,
}
