//! The tokens of a text, and its macros.
#![tactic(auto)]

mod bytes;
mod cut;
mod definitions;
mod hash;
mod laws;
mod macros;
mod mode;
mod output;
mod spaces;
mod token;
mod tokens;
mod words;

pub use cut::lex;
pub use laws::{
    cut_or_refused, expanded_or_refused, fresh_line, never_cut_and_refused,
    never_expanded_and_refused, one_cut, one_expansion, one_lex_refusal, one_macro_refusal,
    some_expansion, token_places,
};
pub use macros::expand;
pub use token::{Mark, Reserved, Token, TokenKind};
