//! The reader of tokens, and what every part of the grammar is read with: expressions, references, lists and brackets.
//!
//! Each function reads one part of the grammar at the front of the tokens that are left: `goes` says that every reading
//! of a program that comes to it goes on behind the part, or that the first bad token is the one that it answers.
//! Tests stand above, in xmp_text_tests.
#![tactic(auto)]

mod changes;
mod depth;
mod effect;
mod expressions;
mod joined;
mod kinds;
mod marks;
mod parts;
mod reader;

pub use changes::{reference, simple};
pub use depth::Depth;
pub use effect::{Effect, start};
pub use expressions::{expression, level};
pub use marks::Class;
pub use parts::{
    Exprs, NameLists, Names, Part, any_dims, any_several, comma_list, dims, in_braces, in_parens,
    more_parts, several, type_words,
};
pub use reader::{Parsed, Reader, Stop};
