// The instructions of a node.

use xmp_base::Place;
use xmp_num::{BinOp, Ty};

/// An instruction. It works on a stack of values, on the words of the node's store by their slots, and on rows of the
/// code's tables by their numbers. A number of an instruction is where it stands in the list, from 0 on.
#[derive(Clone, Copy)]
pub enum Instr {
    /// adds a value
    Push(i64),
    /// takes a value away
    Drop,
    /// adds the top value once more
    Dup,
    /// adds the word of a slot
    Load(u32),
    /// takes a value into a slot
    Save(u32),
    /// a base and a length: an index becomes the word that far behind the base, or 0 outside
    LoadAt(u32, u32),
    /// a base and a length: takes an index and a value, which it writes there where the index is inside
    SaveAt(u32, u32),
    /// traps unless the top value is at least 0 and below this number
    Bound(u32, Place),
    /// two values `a` and `b` become `a * n + b`
    Fold(u32),
    /// a map and a dimension of it: a subscript becomes its local position, or -1 where the node does not hold it
    Local(u32, u32),
    /// an operator, the type of its operands and its place: two values become one
    Bin(BinOp, Ty, Place),
    /// converts a value to a type
    Conv(Ty),
    /// goes on at another instruction
    Jump(u32),
    /// takes a value, and goes on at another instruction where it is 0
    JumpZero(u32),
    /// opens a call at an instruction
    Call(u32),
    /// ends the open call; its result is on top
    Return,
    /// takes one step of those that are left
    Turn,
    /// a template and the number of its dimensions: as many positions become 1 where the node owns the point, else 0
    Mine(u32, u32),
    /// a template and a dimension of it: a position and an end become the first position before the end that is owned
    NextMine(u32, u32),
    /// counts a turn of a loop directive
    Count,
    /// opens a guard
    Guard(u32),
    /// closes the open guard, if there is one
    Unguard,
    /// adds 1 plus the kind of the trap that was noted, or 0
    Noted,
    /// takes the arguments of a format, and prints
    Print(u32),
    /// takes a slot, and reads a number of a type into it
    Scan(Ty),
    /// takes the numbers of a meeting, and stops there
    Exchange(u32),
    /// a shared word's number becomes its value
    Get,
    /// takes a shared word's number and a value
    Put,
    /// stops until all images do
    Sync,
    /// takes a notice, and ends trapped where it is not 0
    Lift(Place),
    /// ends
    End,
}
