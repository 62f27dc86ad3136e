// A transfer between the stores of all nodes.

use crate::words::Place;
use xmp_move::MoveKind;
use xmp_num::Ty;

/// What is moved, the words of a state that are read and those that are written, and the type that they are converted to, where they
/// are.
#[derive(Drop)]
pub struct Transfer {
    pub kind: MoveKind,
    pub source: Place,
    pub target: Place,
    pub converts: Option<Ty>,
}
