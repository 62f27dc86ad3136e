// Typed statements.

use crate::expressions::{Access, Expr};
use sqlite_items::{Boxed, Items};
use xmp_base::{Bytes, Place};
use xmp_map::NodeSet;
use xmp_num::{BinOp, RedOp, Ty};

/// A scalar by its slot, or an array by its number, with the place of its name.
#[derive(Clone, Copy, Debug, PartialEq, Eq)]
pub struct Name {
    pub number: u32,
    pub at: Place,
}

/// What an assignment or an input writes: a scalar by its slot, with the place of its name, or an element of an array.
#[derive(Drop)]
pub enum Target {
    Scalar(u32, Place),
    Cell(Access),
}

/// The operator of a compound assignment, the type that it works in, and its place. `v++` is `v += 1`.
#[derive(Clone, Copy, Debug, PartialEq, Eq)]
pub struct Compound {
    pub op: BinOp,
    pub ty: Ty,
    pub at: Place,
}

/// The head of a counted loop: `for (index = from; index < to; index += step)`, or `index <= to` where it is inclusive,
/// with the places of the index's first name and of the first tokens of `from` and `to`.
#[derive(Drop)]
pub struct LoopHead {
    pub index: Name,
    pub from: Expr,
    pub to: Expr,
    pub inclusive: bool,
    pub step: u32,
    pub from_at: Place,
    pub to_at: Place,
}

/// A position in the `on` part of a loop directive.
#[derive(Clone, Copy, Debug, PartialEq, Eq)]
pub enum Point {
    /// `*`
    Any,
    /// an index by its slot, and the constant that is added to it
    Index { slot: u32, offset: i32 },
}

/// A reduction variable and its operation.
#[derive(Clone, Copy, Debug, PartialEq, Eq)]
pub struct Reduction {
    pub op: RedOp,
    pub variable: Name,
}

/// A loop directive: its template by number, one point for each dimension of it, the heads of the nest with the
/// outermost first, the reductions, and the place of the word `loop`.
#[derive(Drop)]
pub struct LoopDirective {
    pub template: u32,
    pub points: Items<Point>,
    pub nest: Items<LoopHead>,
    pub reductions: Items<Reduction>,
    pub at: Place,
}

/// A number of a gmove's subscript or section, with the place of its first token.
#[derive(Drop)]
pub struct Number {
    pub value: Expr,
    pub at: Place,
}

/// A subscript or a section of a side of a gmove. A step that isn't written is 1, and `:` is the whole dimension,
/// `0 : extent : 1`; numbers that aren't written have the place of the side's name.
#[derive(Drop)]
pub enum Part {
    One(Number),
    Many {
        base: Number,
        length: Number,
        step: Number,
    },
}

/// A side of a gmove: a scalar, or an array with one part for each dimension.
#[derive(Drop)]
pub enum MoveSide {
    Scalar(Name),
    Array(Name, Items<Part>),
}

/// The statements that hold no statement. Places are those of the first word, of a directive that of its directive word,
/// and of a declaration and a call that of the name.
#[derive(Drop)]
pub enum Plain {
    /// a declaration of a scalar, and its initialiser
    Declare {
        slot: u32,
        value: Option<Expr>,
        at: Place,
    },
    /// an assignment; a compound one has its operator
    Set {
        target: Target,
        compound: Option<Compound>,
        value: Expr,
    },
    /// `return`
    Return(Expr),
    /// a call of a function by its number, whose result isn't used
    Call {
        function: u32,
        arguments: Items<Expr>,
        at: Place,
    },
    /// `printf`
    Print {
        format: Bytes,
        arguments: Items<Expr>,
        at: Place,
    },
    /// `scanf` of one number, of the target's type
    Scan {
        target: Target,
        at: Place,
    },
    /// `xmp_sync_all`
    Sync {
        status: Name,
        at: Place,
    },
    /// `reflect`
    Reflect {
        arrays: Items<Name>,
        at: Place,
    },
    /// `barrier`
    Barrier {
        at: Place,
    },
    /// `bcast` of scalars from one node
    Cast {
        variables: Items<Name>,
        from: NodeSet,
        at: Place,
    },
    /// `gmove`, with the assignment under it
    Gmove {
        target: MoveSide,
        source: MoveSide,
        at: Place,
    },
}

/// A statement.
#[cycle(statement)]
#[derive(Drop)]
pub enum Stmt {
    /// one that holds no statement
    Plain(Plain),
    /// statements in order
    Block(Items<Stmt>),
    /// `if`; without an `else` the second statement is an empty block
    If(Expr, Boxed<Stmt>, Boxed<Stmt>),
    /// an uncounted loop, with the place of its loop word
    While(Expr, Boxed<Stmt>, Place),
    /// a counted loop
    Counted(LoopHead, Boxed<Stmt>),
    /// a loop directive, with the body of its nest
    Loop(LoopDirective, Boxed<Stmt>),
    /// the tasks of a `tasks`, with the place of its directive word; a task by itself is a list of one
    Tasks(Items<Task>, Place),
}

/// A task: the nodes that execute it, its statement, and the place of the word `task`.
#[cycle(statement)]
#[derive(Drop)]
pub struct Task {
    pub nodes: NodeSet,
    pub body: Stmt,
    pub at: Place,
}
