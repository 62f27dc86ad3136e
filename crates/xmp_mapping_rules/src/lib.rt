//! The rules of mappings that are judged over a whole program: they read what the walk has kept in the world, each line with
//! the first line on its array or template, and answer the list of the rules that break, as the definition gives it. The rows
//! that show it are texts: xmp_elab/src/mapping_texts.rt, docs/LANGUAGE.md.
#![tactic(auto)]

mod align_rules;
mod cell_rules;
mod lines;
mod nodes_rules;
mod numbers;
mod rules_of_mappings;
mod shadow_rules;
mod template_rules;

pub use lines::Lines;
pub use rules_of_mappings::mapping_rules;
