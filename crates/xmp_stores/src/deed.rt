// What every node does by itself, on its own store.
ghost use Rattle.xmp_meaning.specs.Handlers.{erased};
ghost use Rattle.xmp_meaning.specs.Expressions.{expr_of, holds};
ghost use Rattle.xmp_meaning.specs.Loops.{entering, inside, step_up};
ghost use Rattle.xmp_meaning.specs.Programs.{starts};
ghost use Rattle.xmp_meaning.specs.Runs.{Does, take_step};
ghost use Rattle.xmp_meaning.specs.Statements.{plain_of};

use xmp_meaning::{Flow, Halt};
use xmp_prog::{Expr, LoopHead, Plain};
use xmp_serial::{Interpreter, State, step_up};

/// One trait, so that the loop over the nodes stands once.
pub trait Deed {
    ghost use Rattle.std.specs.Prelude.{ℕ};
    ghost use Rattle.xmp_meaning.specs.Context.{Context};
    ghost use Rattle.xmp_meaning.specs.Runs.{Run, Does};
    ghost use Rattle.xmp_stores.specs.Contexts.{context_by};

    type Gives: Drop;

    /// What a node does, in a context.
    ghost does: { Self → (node : ℕ) → Context → Run (Unit {0}) Self.Gives };

    fn run(&self, node: u32, at: &Interpreter, state: &mut State) -> Result<Self::Gives, Halt>
        ensures { Does (does self.now node (context_by at.now) state.old) result state.new };
}

/// The initialisers at file scope.
#[derive(Drop)]
pub struct Starting {}

/// A statement that holds none.
#[derive(Drop)]
pub struct Plainly<'a> {
    pub statement: &'a Plain,
}

/// A condition.
#[derive(Drop)]
pub struct Holding<'a> {
    pub condition: &'a Expr,
}

/// The entry of a counted loop.
#[derive(Drop)]
pub struct Entering<'a> {
    pub head: &'a LoopHead,
}

/// The test of a counted loop.
#[derive(Drop)]
pub struct Inside<'a> {
    pub head: &'a LoopHead,
}

/// The step of a counted loop.
#[derive(Drop)]
pub struct SteppingUp<'a> {
    pub head: &'a LoopHead,
}

/// A step of the budget.
#[derive(Drop)]
pub struct TakingStep {}

impl Deed for Starting {
    type Gives = Flow;

    ghost does = { λ d node c. starts erased c c.program.start };

    fn run(&self, node: u32, at: &Interpreter, state: &mut State) -> Result<Flow, Halt> {
        at.starts(state)
    }
}

impl Deed for Plainly<'_> {
    type Gives = Flow;

    ghost does = { λ d node c. plain_of erased c d.statement.now };

    fn run(&self, node: u32, at: &Interpreter, state: &mut State) -> Result<Flow, Halt> {
        at.plain(self.statement, state)
    }
}

impl Deed for Holding<'_> {
    type Gives = bool;

    ghost does = { λ d node c. holds (expr_of erased c d.condition.now) };

    fn run(&self, node: u32, at: &Interpreter, state: &mut State) -> Result<bool, Halt> {
        at.holds(self.condition, state)
    }
}

impl Deed for Entering<'_> {
    type Gives = u64;

    ghost does = { λ d node c. entering erased c d.head.now };

    fn run(&self, node: u32, at: &Interpreter, state: &mut State) -> Result<u64, Halt> {
        at.entering(self.head, state)
    }
}

impl Deed for Inside<'_> {
    type Gives = bool;

    ghost does = { λ d node c. inside erased c d.head.now };

    fn run(&self, node: u32, at: &Interpreter, state: &mut State) -> Result<bool, Halt> {
        at.inside(self.head, state)
    }
}

impl Deed for SteppingUp<'_> {
    type Gives = Flow;

    ghost does = { λ d node c. step_up d.head.now };

    fn run(&self, node: u32, at: &Interpreter, state: &mut State) -> Result<Flow, Halt> {
        step_up(self.head, state);
        Ok(Flow::Next)
    }
}

impl Deed for TakingStep {
    type Gives = ();

    ghost does = { λ d node c. take_step };

    fn run(&self, node: u32, at: &Interpreter, state: &mut State) -> Result<(), Halt> {
        state.take_step()
    }
}
