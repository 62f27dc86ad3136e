//! C's numbers: operators, conversions, reductions and decimal text.
#![tactic(auto)]

mod arithmetic;
mod decimal;
mod reduction;
mod types;

pub use arithmetic::{binary, convert};
pub use decimal::{render, scan};
pub use reduction::{combine, unit};
pub use types::{BinOp, RedOp, TrapKind, Ty};
