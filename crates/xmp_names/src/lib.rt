//! Names and expressions of a program: what a name means where it stands, the type of an expression and what is known of
//! its value, and the steps by which a walk over the tree notes which rules of names break. Each call answers what the
//! definitions in specs/ give. The rows that show it are texts: xmp_elab/src/name_texts.rt, docs/LANGUAGE.md.
#![tactic(auto)]

mod expressions;
mod formats;
mod lists;
mod mappings;
mod names;
mod operators;
mod rules;
mod sizes;
mod typed;
mod walk;
mod world;

pub use formats::{Mode, fits_format, is_scan_format};
pub use lists::{is_same, notation, only, only_notation, part_at};
pub use mappings::{
    Align, AlignPoint, Distribution, Form, LoopUse, Mappings, NodesLine, Notation, Shadow,
    TemplateLine,
};
pub use names::{Array, Environment, Meaning, Region, Signature};
pub use operators::{Operator, as_type, joint, value_type};
pub use rules::{Broken, Notes, Rule, deeper, no_notes};
pub use sizes::{
    extents_in, given_or_one, held, is_extent, is_small, line_sizes, lower_at, range_size,
};
pub use typed::{Operand, Parts, Typed, Value};
pub use walk::{first_place, is_known, is_main};
pub use world::World;
