//! The syntax tree of a program with its spelling: the types and laws of xmp_syntax, and the tokens of a tree.
#![tactic(auto)]

mod rest;
mod spelling;
mod spelling_lines;
mod spelling_lists;
mod spelling_program;
mod spelling_statements;

pub use spelling_program::tokens_of;
pub use xmp_syntax::{
    AlignDimension, BlockItem, Call, CommaList, Declaration, Declarator, DirectiveLine, DistForm,
    Expr, ForFirst, ForHead, Format, Function, Image, Inside, Link, LoopLine, Mapping, Name, Next,
    NodesSet, Parameters, Piece, Placed, Plain, Point, Reduction, ReductionOperator, Reference,
    Section, Sections, Several, Simple, Single, Stmt, TaskLine, TopItem, Tree, TypeWords,
    begins_a_program, never_program_and_refused, one_stuck_token, one_tree, same_tokens,
    shorter_begins,
};
