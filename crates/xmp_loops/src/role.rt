// What a scalar is to the loop directive that stands round a statement.

use xmp_num::RedOp;

#[derive(Clone, Copy)]
pub enum Role {
    /// The directive doesn't write it; outside loop directives every scalar.
    Shared,
    /// an index of the directive's nest
    Index,
    /// a reduction variable, with its operation
    Reduced(RedOp),
    /// written in it, and neither of these: each iteration has to assign it before it reads it
    Own,
}
