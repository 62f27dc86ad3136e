// Statements and the directives among them.
use crate::declaration::Declaration;
use crate::directive::{DirectiveLine, LoopLine, Mapping, NodesSet, Sections, TaskLine};
use crate::expression::Expr;
use crate::parts::{Call, CommaList, Format, Inside, Name, Next, Placed, Reference};
use sqlite_items::{Boxed, Items};
use xmp_base::Place;
use xmp_lex::Mark;

/// An assignment, an increment or decrement, or a call.
#[derive(Drop)]
pub enum Simple {
    Assign(Reference<Boxed<Expr>>, Placed<Mark>, Expr),
    /// `reference ++` or `reference --`
    Postfix(Reference<Boxed<Expr>>, Placed<Mark>),
    /// `++ reference` or `-- reference`
    Prefix(Placed<Mark>, Reference<Boxed<Expr>>),
    Call(Call<Boxed<Expr>>),
}

/// The first part of `for`.
#[derive(Drop)]
pub enum ForFirst {
    /// The target, `=` and the value.
    Assign(Reference<Boxed<Expr>>, Place, Expr),
    /// `int`, the name, `=` and the value.
    Declare(Place, Name, Place, Expr),
}

/// `for`, and in parentheses its three parts with their semicolons.
#[derive(Drop)]
pub struct ForHead {
    pub word: Place,
    pub open: Place,
    pub first: Option<ForFirst>,
    pub first_end: Place,
    pub test: Option<Expr>,
    pub test_end: Place,
    pub next: Option<Simple>,
    pub close: Place,
}

/// A statement or directive with no statement inside. The last place is that of `;`, where there is one.
#[derive(Drop)]
pub enum Plain {
    Empty(Place),
    Simple(Simple, Place),
    Return(Place, Expr, Place),
    /// `printf`, and in parentheses the format and the values with their commas.
    Print(Place, Inside<(Format, Items<Next<Expr>>)>, Place),
    /// `scanf`, and in parentheses the format, `,`, `&` and the target.
    Scan(Place, Inside<(Format, Place, Place, Reference<Boxed<Expr>>)>, Place),
    /// `xmp_sync_all`, and in parentheses `&` and the target.
    Sync(Place, Inside<(Place, Reference<Boxed<Expr>>)>, Place),
    Reflect(DirectiveLine, Inside<CommaList<Name>>),
    Barrier(DirectiveLine),
    /// The names, `from` and the set of nodes.
    Bcast(DirectiveLine, Inside<CommaList<Name>>, Place, NodesSet),
    /// The target, `=` and the source.
    Gmove(DirectiveLine, Sections, Place, Sections, Place),
}

/// What stands in a block.
#[derive(Drop)]
pub enum BlockItem<S> {
    Mapping(Mapping),
    Declaration(Declaration),
    Stmt(S),
}

#[derive(Drop)]
pub enum Stmt {
    Plain(Plain),
    Block(Inside<Items<BlockItem<Boxed<Stmt>>>>),
    /// `if`, the condition, the statement, and `else` with its statement.
    If(Place, Inside<Expr>, Boxed<Stmt>, Option<(Place, Boxed<Stmt>)>),
    While(Place, Inside<Expr>, Boxed<Stmt>),
    For(ForHead, Boxed<Stmt>),
    Loop(LoopLine, ForHead, Boxed<Stmt>),
    Task(TaskLine, Boxed<Stmt>),
    /// The line, and in braces the tasks.
    Tasks(DirectiveLine, Inside<Items<(TaskLine, Boxed<Stmt>)>>),
}
