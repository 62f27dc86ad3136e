// Calls of functions.
ghost use Rattle.std.specs.Prelude.{◌≡◌, IfOk};
ghost use Rattle.xmp_meaning.specs.Runs.{Does, Gave};
ghost use Rattle.xmp_meaning.specs.Calls.{bind, call_of, frame, invoke, returned};
ghost use Rattle.xmp_serial.specs.Lines.{context_at};
ghost use Rattle.xmp_serial.specs.Ends.{Tells};

use crate::callee::Callee;
use crate::frame::Frame;
use crate::layout::Layout;
use crate::lists::split;
use crate::rows::{Rows, zeros};
use crate::state::State;
use std::alloc::Global;
use xmp_base::{Bytes, NoMemory};
use xmp_meaning::{Flow, Halt, Location};
use xmp_num::convert;
use xmp_prog::{Function, ProgParts};

/// The calls of the first `depth` functions at a node, by a function value.
#[derive(Clone, Copy)]
pub struct ByFunction<'a, 'p, F> {
    pub layout: &'a Layout<'p>,
    pub node: u32,
    pub depth: usize,
    pub call: F,
}

impl<F: Fn(Global, usize, &Layout, u32, u32, &[i64], &mut u64) -> Result<i64, Halt>> Callee
    for ByFunction<'_, '_, F> {
    ghost use Rattle.xmp_meaning.specs.Calls.{call_of};
    ghost use Rattle.xmp_serial.specs.Lines.{context_at};
    ghost use Rattle.xmp_serial.specs.Nests.{Nests};

    ghost calls = { λ c. call_of c.layout.now.program.now c.node c.depth };

    ghost ready = { λ c. Nests c.depth (F.pre c.call) (F.post c.call) };

    fn call(
        &self,
        alloc: Global,
        function: u32,
        arguments: &[i64],
        steps: &mut u64,
    ) -> Result<i64, Halt> {
        (self.call)(
            alloc,
            self.depth,
            self.layout,
            self.node,
            function,
            arguments,
            steps,
        )
    }
}

impl<C: Callee> Frame<'_, C> {
    /// The arguments into the parameters, in order.
    fn bind(&self, slots: &[u32], mut values: &[i64], state: &mut State)
        ensures { bind self.now.program.now slots.now values.entry.now state.old ≡ Gave tt state.new }
    {
        'slots: for slot in slots {
            match split(values) {
                Some((value, rest)) => {
                    self.store(Location::Scalar(*slot), *value, state);
                    values = rest;
                }
                None => return,
            }
        }
    }

    /// A function's statement, and its value converted to the function's type.
    fn invoke(&self, f: &Function, arguments: &[i64], state: &mut State) -> Result<i64, Halt>
        requires { C.ready self.now.callee.now }
        ensures { Does (invoke (context_at self.now.program.now self.now.packed self.now.node self.now.input.now (C.calls self.now.callee.now)) f.now arguments.now state.old) result state.new }
    {
        self.bind(f.parameters.as_slice(), arguments, state);
        let flow = self.exec(&f.body, state)?;
        Ok(convert(returned(flow), f.result))
    }

    /// A function in a state of its own, where every scalar begins at 0.
    fn invoke_anew(&self, f: &Function, arguments: &[i64], steps: &mut u64) -> Result<i64, Halt>
        requires { C.ready self.now.callee.now }
        ensures { Tells (invoke (context_at self.now.program.now self.now.packed self.now.node self.now.input.now (C.calls self.now.callee.now)) f.now arguments.now (frame self.now.program.now steps.old)) result steps.new }
    {
        let mut state = match new_frame(self.alloc, self.program, *steps) {
            Ok(state) => state,
            Err(NoMemory) => return Err(Halt::NoMemory),
        };
        let result = self.invoke(f, arguments, &mut state);
        *steps = state.steps();
        result
    }
}

/// A function that reaches its end returns 0.
fn returned(flow: Flow) -> i64
    ensures { result ≡ returned flow }
{
    match flow {
        Flow::Next => 0,
        Flow::Returned(value) => value,
    }
}

/// What a call begins with.
fn new_frame(alloc: Global, program: &ProgParts, steps: u64) -> Result<State, NoMemory>
    ensures { IfOk result (λ state. state ≡ frame program.now steps) }
{
    let scalars = zeros(alloc, program.scalars.len())?;
    Ok(State::new(scalars, Rows::new(alloc), Bytes::new(alloc), steps))
}

/// A call of a function, one of the first `depth`, at a node.
pub fn call_to(
    alloc: Global,
    depth: usize,
    layout: &Layout,
    node: u32,
    function: u32,
    arguments: &[i64],
    steps: &mut u64,
) -> Result<i64, Halt>
    ensures { Tells (call_of layout.now.program.now node depth function arguments.now steps.old) result steps.new }
{
    let number = function as usize;
    if number >= depth {
        return Ok(0);
    }
    let f = match layout.program.functions.get(number) {
        Some(f) => f,
        None => return Ok(0),
    };
    let callee = ByFunction {
        layout,
        node,
        depth: number,
        call: call_to,
    };
    let frame = Frame {
        alloc,
        program: &*layout.program,
        packed: None,
        lines: layout.whole.as_slice(),
        node,
        input: &[],
        callee: &callee,
    };
    frame.invoke_anew(f, arguments, steps)
}
