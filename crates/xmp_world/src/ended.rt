// How a run of all nodes ends.

use xmp_base::Place;
use xmp_num::TrapKind;

/// The program ended by itself, or trapped, or a turn of an uncounted loop would begin and no step was left.
#[derive(Clone, Copy, PartialEq, Eq, Debug)]
pub enum End {
    Ended,
    Trapped(TrapKind, Place),
    OutOfSteps,
}
