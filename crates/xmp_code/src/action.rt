// What an instruction does, as it is decided before anything changes.

use xmp_base::Place;
use xmp_instr::Stop;
use xmp_num::{TrapKind, Ty};

/// What is done to the open calls, the guard and the counts of a node.
#[derive(Clone, Copy)]
pub enum Control {
    /// opens a call at an instruction
    Call(u32),
    /// ends the open call
    Return,
    /// takes a step
    Turn,
    /// counts a turn
    Count,
    /// opens a guard
    Guard(u32),
    /// closes the guard
    Unguard,
}

/// What an instruction does to its node.
#[derive(Clone, Copy)]
pub enum Action {
    /// takes so many values, adds one, and goes on
    Value(usize, i64),
    /// takes so many values, and goes on
    Take(usize),
    /// takes so many values, writes another into the word of a slot, and goes on
    Write(usize, usize, i64),
    /// takes so many values, and goes on at another instruction
    Go(usize, usize),
    /// takes a slot, reads a number of a type into it, and goes on
    Read(Ty, usize),
    /// goes on with other calls, another guard or other counts
    Control(Control),
    /// prints by a format, which takes so many values, and goes on
    Print(u32, usize),
    /// stands at a meeting, which takes so many values
    Meet(u32, usize),
    /// traps
    Trap(TrapKind, Place),
    /// stops
    Halt(Stop),
    /// has no next state
    Stuck,
}
