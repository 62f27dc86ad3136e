// How a statement or a run ends.

use xmp_base::Place;
use xmp_num::TrapKind;

/// Why a run ends before its program does.
#[derive(Clone, Copy, Debug, PartialEq, Eq)]
pub enum End {
    /// a trap, with its place
    Trapped(TrapKind, Place),
    /// a turn of an uncounted loop would begin, and no step is left
    OutOfSteps,
    /// the end of a phase of a coarray program: what the other images do in it isn't known yet
    PhaseEnd,
}

/// How a statement ends: the next one follows, or its function returns a value.
#[derive(Clone, Copy, Debug, PartialEq, Eq)]
pub enum Flow {
    Next,
    Returned(i64),
}

/// Why a step of an interpreter gives no value: the run ends there, or memory runs out.
#[derive(Clone, Copy, Debug, PartialEq, Eq)]
pub enum Halt {
    End(End),
    NoMemory,
}
