//! The syntax tree of a program and its grammar: the types of trees, what fits the grammar, which tokens a tree is
//! spelled with, and the laws of both.
//!
//! No function stands here but laws; trees are made in xmp_parse and spelled in xmp_tree.
#![tactic(auto)]

mod declaration;
mod directive;
mod expression;
mod laws;
mod parts;
mod program;
mod statement;

pub use declaration::{Declaration, Declarator};
pub use directive::{
    AlignDimension, DirectiveLine, DistForm, LoopLine, Mapping, NodesSet, Piece, Point, Reduction,
    ReductionOperator, Section, Sections, TaskLine,
};
pub use expression::Expr;
pub use laws::{
    begins_a_program, first_bad_token, never_program_and_refused, never_stuck_and_deep,
    one_deep_token, one_stuck_token, one_tree, same_tokens, shorter_begins,
};
pub use parts::{
    Call, CommaList, Format, Image, Inside, Link, Name, Next, Placed, Reference, Several, Single,
    TypeWords,
};
pub use program::{Function, Parameters, TopItem, Tree};
pub use statement::{BlockItem, ForFirst, ForHead, Plain, Simple, Stmt};
