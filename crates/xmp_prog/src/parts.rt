// The parts of a typed program.

use crate::expressions::Expr;
use crate::statements::Stmt;
use sqlite_items::Items;
use xmp_map::{ArrayMap, Grid, Template};
use xmp_num::Ty;

/// Whether a program declares a coarray.
#[derive(Clone, Copy, Debug, PartialEq, Eq)]
pub enum Kind {
    Global,
    Coarray,
}

/// Where the cells of an array lie.
#[derive(Clone, Copy, Debug, PartialEq, Eq)]
pub enum Home {
    /// all of them at each node: an array without an align
    Copy,
    /// over a template by its number, as a map says
    Spread(u32, ArrayMap),
    /// all of them at each image: a coarray
    Image,
}

/// An array: the type of its cells, how many subscripts each dimension has, and where the cells lie.
#[derive(Drop)]
pub struct Array {
    pub ty: Ty,
    pub extents: Items<u32>,
    pub home: Home,
}

/// A function other than main: the type of its result, the slots of its parameters, and its body.
#[derive(Drop)]
pub struct Function {
    pub result: Ty,
    pub parameters: Items<u32>,
    pub body: Stmt,
}

/// The initialiser of a scalar at file scope.
#[derive(Drop)]
pub struct Start {
    pub slot: u32,
    pub value: Expr,
}

/// The parts of a typed program: the grid of its nodes, its kind, the type of each scalar and parameter by slot, its
/// arrays, templates and functions in the order of their declarations, the initialisers at file scope, and the body of main.
#[derive(Drop)]
pub struct ProgParts {
    pub grid: Grid,
    pub kind: Kind,
    pub scalars: Items<Ty>,
    pub arrays: Items<Array>,
    pub templates: Items<Template>,
    pub functions: Items<Function>,
    pub start: Items<Start>,
    pub body: Stmt,
}
