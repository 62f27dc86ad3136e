// What statements do.
ghost use Rattle.std.specs.Prelude.{◌≡◌, ◌+ℤ◌, pos, map, FitsSigned};
ghost use Rattle.std.specs.Int.{w32};
ghost use Rattle.xmp_num.specs.Arithmetic.{wrap};
ghost use Rattle.xmp_meaning.specs.Runs.{Does, Gave};
ghost use Rattle.xmp_serial.specs.Lines.{context_at};
ghost use Rattle.xmp_meaning.specs.Handlers.{erased, task_run};
ghost use Rattle.xmp_meaning.specs.Expressions.{expr_of, holds};
ghost use Rattle.xmp_meaning.specs.Loops.{counted, entering, inside, is_inside, nest, step_up, turn, turn_count, while_loop};
ghost use Rattle.xmp_meaning.specs.Blocks.{block, then_run, turns};
ghost use Rattle.xmp_serial.specs.Turns.{Turns, gap, run_of, task_of};

use crate::callee::Callee;
use crate::eval::natural;
use crate::frame::Frame;
use crate::lists::split;
use crate::state::State;
use xmp_meaning::{Flow, Halt};
use xmp_num::{Ty, convert};
use xmp_prog::{Expr, LoopHead, Stmt, Task};

impl<C: Callee> Frame<'_, C> {
    /// Does a statement.
    #[cycle(exec)]
    pub fn exec(&self, s: &Stmt, state: &mut State) -> Result<Flow, Halt>
        requires { C.ready self.now.callee.now }
        ensures { Does (run_of (context_at self.now.program.now self.now.packed self.now.node self.now.input.now (C.calls self.now.callee.now)) s.now state.old) result state.new }
    {
        match s {
            Stmt::Plain(plain) => self.exec_plain(plain, state),
            Stmt::Block(all) => self.exec_all(all.as_slice(), state),
            Stmt::If(e, a, b) => {
                if self.eval(e, state)? == 0 {
                    self.exec(b.get(), state)
                } else {
                    self.exec(a.get(), state)
                }
            }
            Stmt::While(e, body, _) => self.exec_while(body.get(), e, state),
            Stmt::Counted(head, body) => self.exec_counted(body.get(), head, &[], state),
            Stmt::Loop(directive, body) => {
                self.exec_nest(body.get(), directive.nest.as_slice(), state)
            }
            Stmt::Tasks(all, _) => self.exec_tasks(all.as_slice(), state),
        }
    }

    /// Does statements in their order.
    #[cycle(exec)]
    fn exec_all(&self, all: &[Stmt], state: &mut State) -> Result<Flow, Halt>
        requires { C.ready self.now.callee.now }
        ensures { Does (block (map (run_of (context_at self.now.program.now self.now.packed self.now.node self.now.input.now (C.calls self.now.callee.now))) all.now) state.old) result state.new }
    {
        'all: for s in all {
            match self.exec(s, state)? {
                Flow::Next => {}
                Flow::Returned(value) => return Ok(Flow::Returned(value)),
            }
        }
        Ok(Flow::Next)
    }

    /// Does the statements of tasks in their order.
    #[cycle(exec)]
    fn exec_tasks(&self, all: &[Task], state: &mut State) -> Result<Flow, Halt>
        requires { C.ready self.now.callee.now }
        ensures { Does (block (map task_run (map (task_of (context_at self.now.program.now self.now.packed self.now.node self.now.input.now (C.calls self.now.callee.now))) all.now)) state.old) result state.new }
    {
        'tasks: for task in all {
            match self.exec(&task.body, state)? {
                Flow::Next => {}
                Flow::Returned(value) => return Ok(Flow::Returned(value)),
            }
        }
        Ok(Flow::Next)
    }

    /// An uncounted loop: as many turns as there are steps, and one more, which can't begin.
    #[cycle(exec)]
    fn exec_while(&self, body: &Stmt, test: &Expr, state: &mut State) -> Result<Flow, Halt>
        requires { C.ready self.now.callee.now }
        ensures { Does (while_loop (holds (expr_of erased (context_at self.now.program.now self.now.packed self.now.node self.now.input.now (C.calls self.now.callee.now)) test.now)) (run_of (context_at self.now.program.now self.now.packed self.now.node self.now.input.now (C.calls self.now.callee.now)) body.now) state.old) result state.new }
    {
        let most = state.steps();
        'turns: for _turn in 0..most {
            match self.while_turn(body, test, state) {
                Ok(None) => {}
                Ok(Some(flow)) => return Ok(flow),
                Err(halt) => return Err(halt),
            }
        }
        match self.while_turn(body, test, state) {
            Ok(None) => Ok(Flow::Next),
            Ok(Some(flow)) => Ok(flow),
            Err(halt) => Err(halt),
        }
    }

    /// A turn of an uncounted loop, or how the loop ends.
    #[cycle(exec)]
    fn while_turn(&self, body: &Stmt, test: &Expr, state: &mut State) -> Result<Option<Flow>, Halt>
        requires { C.ready self.now.callee.now }
        ensures { Turns (holds (expr_of erased (context_at self.now.program.now self.now.packed self.now.node self.now.input.now (C.calls self.now.callee.now)) test.now)) (turn (run_of (context_at self.now.program.now self.now.packed self.now.node self.now.input.now (C.calls self.now.callee.now)) body.now)) state.old result state.new }
    {
        let value = self.eval(test, state)?;
        if value == 0 {
            return Ok(Some(Flow::Next));
        }
        state.take_step()?;
        match self.exec(body, state)? {
            Flow::Next => Ok(None),
            Flow::Returned(value) => Ok(Some(Flow::Returned(value))),
        }
    }

    /// Counted loops one in the other, the outermost first, round a statement.
    #[cycle(exec)]
    fn exec_nest(&self, body: &Stmt, heads: &[LoopHead], state: &mut State) -> Result<Flow, Halt>
        requires { C.ready self.now.callee.now }
        ensures { Does (nest erased (context_at self.now.program.now self.now.packed self.now.node self.now.input.now (C.calls self.now.callee.now)) heads.now (run_of (context_at self.now.program.now self.now.packed self.now.node self.now.input.now (C.calls self.now.callee.now)) body.now) state.old) result state.new }
    {
        match split(heads) {
            Some((head, inner)) => self.exec_counted(body, head, inner, state),
            None => self.exec(body, state),
        }
    }

    /// A counted loop, with loops inside it round a statement.
    #[cycle(exec)]
    fn exec_counted(
        &self,
        body: &Stmt,
        head: &LoopHead,
        inner: &[LoopHead],
        state: &mut State,
    ) -> Result<Flow, Halt>
        requires { C.ready self.now.callee.now }
        ensures { Does (counted erased (context_at self.now.program.now self.now.packed self.now.node self.now.input.now (C.calls self.now.callee.now)) head.now (nest erased (context_at self.now.program.now self.now.packed self.now.node self.now.input.now (C.calls self.now.callee.now)) inner.now (run_of (context_at self.now.program.now self.now.packed self.now.node self.now.input.now (C.calls self.now.callee.now)) body.now)) state.old) result state.new }
    {
        let most = self.entering(head, state)?;
        self.count_up(body, head, inner, most, state)
    }

    /// The entry of a counted loop: the index gets its first value, and then the bound is evaluated; it gives how many turns there are at most.
    pub fn entering(&self, head: &LoopHead, state: &mut State) -> Result<u64, Halt>
        requires { C.ready self.now.callee.now }
        ensures { Does (entering erased (context_at self.now.program.now self.now.packed self.now.node self.now.input.now (C.calls self.now.callee.now)) head.now state.old) result state.new }
    {
        let from = to_int(self.eval(&head.from, state)?);
        state.set_scalar(head.index.number, from);
        let to = to_int(self.eval(&head.to, state)?);
        Ok(turn_count(from, to, head.inclusive, head.step))
    }

    /// At most so many turns of a counted loop.
    #[cycle(exec)]
    fn count_up(
        &self,
        body: &Stmt,
        head: &LoopHead,
        inner: &[LoopHead],
        most: u64,
        state: &mut State,
    ) -> Result<Flow, Halt>
        requires { C.ready self.now.callee.now }
        ensures { Does (turns most (inside erased (context_at self.now.program.now self.now.packed self.now.node self.now.input.now (C.calls self.now.callee.now)) head.now) (then_run (nest erased (context_at self.now.program.now self.now.packed self.now.node self.now.input.now (C.calls self.now.callee.now)) inner.now (run_of (context_at self.now.program.now self.now.packed self.now.node self.now.input.now (C.calls self.now.callee.now)) body.now)) (step_up head.now)) state.old) result state.new }
    {
        'turns: for _turn in 0..most {
            match self.counted_turn(body, head, inner, state) {
                Ok(None) => {}
                Ok(Some(flow)) => return Ok(flow),
                Err(halt) => return Err(halt),
            }
        }
        Ok(Flow::Next)
    }

    /// A turn of a counted loop, or how the loop ends.
    #[cycle(exec)]
    fn counted_turn(
        &self,
        body: &Stmt,
        head: &LoopHead,
        inner: &[LoopHead],
        state: &mut State,
    ) -> Result<Option<Flow>, Halt>
        requires { C.ready self.now.callee.now }
        ensures { Turns (inside erased (context_at self.now.program.now self.now.packed self.now.node self.now.input.now (C.calls self.now.callee.now)) head.now) (then_run (nest erased (context_at self.now.program.now self.now.packed self.now.node self.now.input.now (C.calls self.now.callee.now)) inner.now (run_of (context_at self.now.program.now self.now.packed self.now.node self.now.input.now (C.calls self.now.callee.now)) body.now)) (step_up head.now)) state.old result state.new }
    {
        if !self.inside(head, state)? {
            return Ok(Some(Flow::Next));
        }
        match self.exec_nest(body, inner, state)? {
            Flow::Next => {
                step_up(head, state);
                Ok(None)
            }
            Flow::Returned(value) => Ok(Some(Flow::Returned(value))),
        }
    }

    /// Whether the index is inside the bound, which is evaluated anew.
    pub fn inside(&self, head: &LoopHead, state: &mut State) -> Result<bool, Halt>
        requires { C.ready self.now.callee.now }
        ensures { Does (inside erased (context_at self.now.program.now self.now.packed self.now.node self.now.input.now (C.calls self.now.callee.now)) head.now state.old) result state.new }
    {
        let i = state.scalar(head.index.number);
        let to = to_int(self.eval(&head.to, state)?);
        Ok(is_inside(head.inclusive, i, to))
    }
}

/// Whether an index is inside a bound.
fn is_inside(inclusive: bool, i: i64, to: i64) -> bool
    ensures { result ≡ is_inside inclusive i to }
{
    if inclusive { i <= to } else { i < to }
}

/// The index goes up.
pub fn step_up(head: &LoopHead, state: &mut State)
    ensures { step_up head.now state.old ≡ Gave Flow.Next state.new }
{
    let i = state.scalar(head.index.number);
    state.set_scalar(head.index.number, plus(i, head.step));
}

#[tactic(auto, using(crate::proofs::Steps::steps))]
fn plus(i: i64, step: u32) -> i64
    ensures { result ≡ wrap Ty.Int (i +ℤ pos step) }
{
    to_int(i.wrapping_add(i64::from(step)))
}

#[tactic(auto, using(crate::proofs::Steps::steps))]
fn to_int(value: i64) -> i64
    ensures value { result ≡ wrap Ty.Int value }
    ensures fits { FitsSigned w32 result }
{
    convert(value, Ty::Int)
}

/// How far a bound is above the first value.
fn gap(from: i64, to: i64, inclusive: bool) -> i64
    requires from { FitsSigned w32 from }
    requires to { FitsSigned w32 to }
    ensures { result ≡ gap from to inclusive }
{
    to - from + i64::from(inclusive)
}

/// How many turns a counted loop makes at most: none where its step is 0.
fn turn_count(from: i64, to: i64, inclusive: bool, step: u32) -> u64
    requires from { FitsSigned w32 from }
    requires to { FitsSigned w32 to }
    ensures { result ≡ turn_count from to inclusive step }
{
    if step == 0 {
        return 0;
    }
    (natural(gap(from, to, inclusive)) + (u64::from(step) - 1)) / u64::from(step)
}
