//! The rules of names and mappings in the language's own words, and the laws that the checker's list of broken rules has
//! each of them exactly where it breaks: the declarations in scope at each place of a program, and a sentence for each rule.
#![tactic(auto)]

mod laws;

pub use laws::{
    arrays_and_their_places, constant_expressions, main_and_its_return, names_declared_twice,
    names_outside_functions, unknown_names,
};
