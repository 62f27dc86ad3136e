// Where a statement stands, as the code has it.

use xmp_loops::{Numbers, Roles};
use xmp_prog::{LoopDirective, ProgParts};

/// The program; the nodes that execute the statement; whether a task or a loop directive stands round it, and the
/// innermost such loop directive; what each scalar is to it, by slot, and shared where there is none; whether it writes
/// each array; whether each function loops; and whether this is a number of a gmove.
#[derive(Clone, Copy)]
pub struct Around<'a> {
    pub program: &'a ProgParts,
    pub nodes: u16,
    pub all: u16,
    pub inside: bool,
    pub over: Option<&'a LoopDirective>,
    pub roles: &'a Roles,
    pub written: &'a Numbers,
    pub loops: &'a [bool],
    pub moving: bool,
}
