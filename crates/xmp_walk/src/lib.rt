//! The walk over a program: from the tree to the parts of the typed program, with the list of the rules of names that break,
//! each at its place. The definition is one recursion on the tree, and the code makes the same list. Here are declarations,
//! statements, loops, functions and the whole program; names and expressions, and the lines of directives, stand below.
//! The rows that show it are texts: xmp_elab/src, docs/LANGUAGE.md.
#![tactic(auto)]

mod blocks;
mod counted;
mod declarations;
mod functions;
mod loops;
mod program;
mod shapes;
mod statements;

pub use loops::{First, ForParts, Shape};
pub use program::walk_program;
pub use xmp_directives::LoopParts;
pub use xmp_names::{
    Align, AlignPoint, Array, Broken, Distribution, Environment, Form, LoopUse, Mappings, Meaning,
    Mode, NodesLine, Notes, Operand, Operator, Parts, Region, Rule, Shadow, Signature,
    TemplateLine, Typed, Value, World, fits_format, is_scan_format,
};
