// Whole programs.
ghost use Rattle.std.specs.Prelude.{◌≡◌, IfOk, length};
ghost use Rattle.xmp_meaning.specs.Calls.{call_of};
ghost use Rattle.xmp_meaning.specs.Runs.{Does};
ghost use Rattle.xmp_serial.specs.Lines.{context_at};
ghost use Rattle.xmp_meaning.specs.Handlers.{erased};
ghost use Rattle.xmp_meaning.specs.Programs.{program, serial, starts};
ghost use Rattle.xmp_serial.specs.Outcomes.{IsOutcome};

use crate::callee::Callee;
use crate::calls::{ByFunction, call_to};
use crate::frame::Frame;
use crate::layout::Layout;
use crate::outcome::outcome_of;
use crate::state::State;
use std::alloc::Global;
use xmp_base::NoMemory;
use xmp_meaning::{Flow, Halt, Location, Outcome};
use xmp_prog::{Prog, ProgParts, Start};

impl<C: Callee> Frame<'_, C> {
    /// The initialisers at file scope, in order.
    pub fn starts(&self, all: &[Start], state: &mut State) -> Result<Flow, Halt>
        requires { C.ready self.now.callee.now }
        ensures { Does (starts erased (context_at self.now.program.now self.now.packed self.now.node self.now.input.now (C.calls self.now.callee.now)) all.now state.old) result state.new }
    {
        'starts: for start in all {
            let value = self.eval(&start.value, state)?;
            self.store(Location::Scalar(start.slot), value, state);
        }
        Ok(Flow::Next)
    }

    /// The initialisers at file scope, and then main's statement.
    fn run(&self, state: &mut State) -> Result<Flow, Halt>
        requires { C.ready self.now.callee.now }
        ensures { Does (program erased (context_at self.now.program.now self.now.packed self.now.node self.now.input.now (C.calls self.now.callee.now)) state.old) result state.new }
    {
        match self.starts(self.program.start.as_slice(), state)? {
            Flow::Next => self.exec(&self.program.body, state),
            Flow::Returned(value) => Ok(Flow::Returned(value)),
        }
    }
}

/// What the program comes to with its directives erased, on this input, with so many steps for the turns of uncounted loops.
/// Want of memory is answered also where an array's cells can't be counted in 64 bits or a width of a format is above 255, which
/// no program has that fits.
pub fn serial(alloc: Global, p: &Prog, input: &[u8], steps: u64) -> Result<Outcome, NoMemory>
    ensures { IfOk result (λ outcome. outcome ≡ serial p.now input.now steps) }
{
    serial_of_parts(alloc, p.parts(), input, steps)
}

fn serial_of_parts(
    alloc: Global,
    program: &ProgParts,
    input: &[u8],
    steps: u64,
) -> Result<Outcome, NoMemory>
    ensures { IfOk result (λ outcome. outcome ≡ serial program.now input.now steps) }
{
    let layout = Layout::whole(alloc, program)?;
    let mut state = State::beginning(alloc, &layout, steps)?;
    let ended = run(alloc, &layout, input, &mut state);
    outcome_of(alloc, program, ended, state)
}

/// A whole run of a program over whole rows.
fn run(alloc: Global, layout: &Layout, input: &[u8], state: &mut State) -> Result<Flow, Halt>
    ensures { Does (program erased (context_at layout.now.program.now layout.now.packed 0 input.now (call_of layout.now.program.now 0 (length layout.now.program.now.functions))) state.old) result state.new }
{
    let callee = ByFunction {
        layout,
        node: 0,
        depth: layout.program.functions.len(),
        call: call_to,
    };
    let frame = Frame {
        alloc,
        program: &*layout.program,
        packed: layout.packed,
        lines: layout.lines.as_slice(),
        node: 0,
        input,
        callee: &callee,
    };
    frame.run(state)
}
