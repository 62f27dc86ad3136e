//! The typed program: what elaboration makes of a text whose names, types and mappings are right, and what every later
//! step reads. Names are numbers here, each expression has its type, and mappings are grids, templates and array maps.
#![tactic(auto)]

mod expressions;
mod parts;
mod program;
mod statements;

pub use expressions::{Access, Expr};
pub use parts::{Array, Function, Home, Kind, ProgParts, Start};
pub use program::Prog;
pub use statements::{
    Compound, LoopDirective, LoopHead, MoveSide, Name, Number, Part, Plain, Point, Reduction, Stmt,
    Target, Task,
};

#[cfg(test)]
mod tests;
