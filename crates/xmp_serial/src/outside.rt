// Runs from outside: the parts of a program's run over a store of any layout.
ghost use Rattle.std.specs.Prelude.{◌≡◌, map};
ghost use Rattle.xmp_meaning.specs.Runs.{Does, Gave};
ghost use Rattle.xmp_meaning.specs.Handlers.{erased};
ghost use Rattle.xmp_meaning.specs.Expressions.{expr_of, holds};
ghost use Rattle.xmp_meaning.specs.Loops.{entering, inside, step_up};
ghost use Rattle.xmp_meaning.specs.Programs.{starts};
ghost use Rattle.xmp_meaning.specs.Sections.{numbers};
ghost use Rattle.xmp_meaning.specs.Statements.{plain_of, stmt_of};
ghost use Rattle.xmp_serial.specs.Ends.{DoesAs};
ghost use Rattle.xmp_serial.specs.Lines.{context_of};
ghost use Rattle.xmp_serial.specs.Moves.{chosen_of};

use crate::calls::{ByFunction, call_to};
use crate::exec;
use crate::frame::Frame;
use crate::layout::Layout;
use crate::sections::Chosen;
use crate::state::State;
use sqlite_items::Items;
use std::alloc::Global;
use xmp_meaning::{Flow, Halt};
use xmp_prog::{Expr, LoopHead, MoveSide, Plain, Stmt};

/// What the parts of a run are read against: where the store keeps its arrays' cells, the number of the node that runs, and the input.
/// Each part does what the meaning says with the program's directives erased.
#[derive(Drop)]
pub struct Interpreter<'a, 'p> {
    pub alloc: Global,
    pub layout: &'a Layout<'p>,
    pub node: u32,
    pub input: &'a [u8],
}

impl Interpreter<'_, '_> {
    /// The initialisers at file scope, in order.
    pub fn starts(&self, state: &mut State) -> Result<Flow, Halt>
        ensures { Does (starts erased (context_of self.now.layout.now.program.now self.now.layout.now.packed self.now.node self.now.input.now) self.now.layout.now.program.now.start state.old) result state.new }
    {
        let callee = ByFunction {
            layout: self.layout,
            node: self.node,
            depth: self.layout.program.functions.len(),
            call: call_to,
        };
        let frame = Frame {
            alloc: self.alloc,
            program: &*self.layout.program,
            packed: self.layout.packed,
            lines: self.layout.lines.as_slice(),
            node: self.node,
            input: self.input,
            callee: &callee,
        };
        frame.starts(self.layout.program.start.as_slice(), state)
    }

    /// A statement that holds no statement.
    pub fn plain(&self, s: &Plain, state: &mut State) -> Result<Flow, Halt>
        ensures { Does (plain_of erased (context_of self.now.layout.now.program.now self.now.layout.now.packed self.now.node self.now.input.now) s.now state.old) result state.new }
    {
        let callee = ByFunction {
            layout: self.layout,
            node: self.node,
            depth: self.layout.program.functions.len(),
            call: call_to,
        };
        let frame = Frame {
            alloc: self.alloc,
            program: &*self.layout.program,
            packed: self.layout.packed,
            lines: self.layout.lines.as_slice(),
            node: self.node,
            input: self.input,
            callee: &callee,
        };
        frame.exec_plain(s, state)
    }

    /// A whole statement.
    pub fn statement(&self, s: &Stmt, state: &mut State) -> Result<Flow, Halt>
        ensures { Does (stmt_of erased (context_of self.now.layout.now.program.now self.now.layout.now.packed self.now.node self.now.input.now) s.now state.old) result state.new }
    {
        let callee = ByFunction {
            layout: self.layout,
            node: self.node,
            depth: self.layout.program.functions.len(),
            call: call_to,
        };
        let frame = Frame {
            alloc: self.alloc,
            program: &*self.layout.program,
            packed: self.layout.packed,
            lines: self.layout.lines.as_slice(),
            node: self.node,
            input: self.input,
            callee: &callee,
        };
        frame.exec(s, state)
    }

    /// Whether a condition holds.
    pub fn holds(&self, e: &Expr, state: &mut State) -> Result<bool, Halt>
        ensures { Does (holds (expr_of erased (context_of self.now.layout.now.program.now self.now.layout.now.packed self.now.node self.now.input.now) e.now) state.old) result state.new }
    {
        let callee = ByFunction {
            layout: self.layout,
            node: self.node,
            depth: self.layout.program.functions.len(),
            call: call_to,
        };
        let frame = Frame {
            alloc: self.alloc,
            program: &*self.layout.program,
            packed: self.layout.packed,
            lines: self.layout.lines.as_slice(),
            node: self.node,
            input: self.input,
            callee: &callee,
        };
        Ok(frame.eval(e, state)? != 0)
    }

    /// The entry of a counted loop: its first value, its index and its bound. It gives how many turns there are at most.
    pub fn entering(&self, head: &LoopHead, state: &mut State) -> Result<u64, Halt>
        ensures { Does (entering erased (context_of self.now.layout.now.program.now self.now.layout.now.packed self.now.node self.now.input.now) head.now state.old) result state.new }
    {
        let callee = ByFunction {
            layout: self.layout,
            node: self.node,
            depth: self.layout.program.functions.len(),
            call: call_to,
        };
        let frame = Frame {
            alloc: self.alloc,
            program: &*self.layout.program,
            packed: self.layout.packed,
            lines: self.layout.lines.as_slice(),
            node: self.node,
            input: self.input,
            callee: &callee,
        };
        frame.entering(head, state)
    }

    /// The test of a counted loop, whose bound is evaluated anew.
    pub fn inside(&self, head: &LoopHead, state: &mut State) -> Result<bool, Halt>
        ensures { Does (inside erased (context_of self.now.layout.now.program.now self.now.layout.now.packed self.now.node self.now.input.now) head.now state.old) result state.new }
    {
        let callee = ByFunction {
            layout: self.layout,
            node: self.node,
            depth: self.layout.program.functions.len(),
            call: call_to,
        };
        let frame = Frame {
            alloc: self.alloc,
            program: &*self.layout.program,
            packed: self.layout.packed,
            lines: self.layout.lines.as_slice(),
            node: self.node,
            input: self.input,
            callee: &callee,
        };
        frame.inside(head, state)
    }

    /// The numbers of a side of a gmove, from left to right; a scalar has none.
    pub fn numbers(&self, side: &MoveSide, state: &mut State) -> Result<Items<Chosen>, Halt>
        ensures { DoesAs (map chosen_of) (numbers erased (context_of self.now.layout.now.program.now self.now.layout.now.packed self.now.node self.now.input.now) side.now state.old) result state.new }
    {
        let callee = ByFunction {
            layout: self.layout,
            node: self.node,
            depth: self.layout.program.functions.len(),
            call: call_to,
        };
        let frame = Frame {
            alloc: self.alloc,
            program: &*self.layout.program,
            packed: self.layout.packed,
            lines: self.layout.lines.as_slice(),
            node: self.node,
            input: self.input,
            callee: &callee,
        };
        frame.numbers(side, state)
    }
}

/// The step of a counted loop: its index goes up.
pub fn step_up(head: &LoopHead, state: &mut State)
    ensures { step_up head.now state.old ≡ Gave Flow.Next state.new }
{
    exec::step_up(head, state);
}
