//! The parser: from the tokens of a text to its program, or to the first token at which they are none.
//!
//! It reads statements, declarations, functions and programs with the readers of xmp_reader (expressions, lists) and
//! xmp_line_reader (directives). Tests stand above, in xmp_text_tests.
#![tactic(auto)]

mod blocks;
mod declarations;
mod for_heads;
mod functions;
mod laws;
mod parameter_lists;
mod plain_statements;
mod programs;
mod refusals;

pub use laws::{never_parsed_and_refused, one_syntax_refusal};
pub use programs::parse;
