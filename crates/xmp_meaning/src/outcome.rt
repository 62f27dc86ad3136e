// What a run of a whole program comes to.

use xmp_base::{Bytes, Place, Table};
use xmp_num::TrapKind;

/// What a program's run comes to, with what it printed. Where it ends by itself, `arrays` has a row for each distributed array in the order
/// of their declarations, its cells in row-major order; in a coarray program it has a row for each coarray and image, by coarray and then
/// by image.
#[derive(Drop)]
pub enum Outcome {
    Ended {
        out: Bytes,
        arrays: Table,
    },
    Trapped {
        out: Bytes,
        kind: TrapKind,
        at: Place,
    },
    OutOfSteps {
        out: Bytes,
    },
}
