// Where a node stops.

use xmp_base::Place;
use xmp_num::TrapKind;

/// Why a node does not go on by itself.
#[derive(Clone, Copy, Debug, PartialEq, Eq)]
pub enum Stop {
    /// it stands at an exchange, by the number of its meeting
    Exchange(u32),
    /// it asks for a shared word
    Get(u32),
    /// it gives a shared word a value
    Put(u32, i64),
    /// it waits for all images
    Sync,
    /// its program has ended
    Ended,
    /// its program has trapped
    Trapped(TrapKind, Place),
    /// no step is left
    OutOfSteps,
}
