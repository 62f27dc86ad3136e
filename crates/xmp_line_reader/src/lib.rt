//! The readers of directives' lines: mappings, lines that hold no statement, and the heads of those that hold one.
//! Their contracts have the form of those of xmp_reader; tests stand above, in xmp_text_tests.
#![tactic(auto)]

mod heads;
mod lines;
mod mappings;
mod nodes;
mod words;

pub use heads::{loop_line, task_line, tasks_line};
pub use lines::plain_line;
pub use mappings::{mapping, mapping_line};
pub use words::{DirectiveWord, MappingWord, directive_word, mapping_word};
