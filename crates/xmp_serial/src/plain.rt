// What the statements that hold no statement do.
ghost use Rattle.std.specs.Prelude.{◌≡◌, []};
ghost use Rattle.xmp_meaning.specs.Runs.{Does};
ghost use Rattle.xmp_serial.specs.Lines.{context_at};
ghost use Rattle.xmp_meaning.specs.Handlers.{erased};
ghost use Rattle.xmp_meaning.specs.Statements.{plain_of};

use crate::callee::Callee;
use crate::frame::Frame;
use crate::state::State;
use sqlite_items::Items;
use xmp_meaning::{Flow, Halt};
use xmp_prog::Plain;

impl<C: Callee> Frame<'_, C> {
    /// Does a statement that holds no statement.
    pub fn exec_plain(&self, s: &Plain, state: &mut State) -> Result<Flow, Halt>
        requires { C.ready self.now.callee.now }
        ensures { Does (plain_of erased (context_at self.now.program.now self.now.packed self.now.node self.now.input.now (C.calls self.now.callee.now)) s.now state.old) result state.new }
    {
        match s {
            Plain::Declare { slot, value, .. } => self.declare(*slot, value, state),
            Plain::Set {
                target,
                compound,
                value,
            } => self.assign(target, compound, value, state),
            Plain::Return(e) => {
                let value = self.eval(e, state)?;
                Ok(Flow::Returned(value))
            }
            Plain::Call {
                function,
                arguments,
                ..
            } => {
                let values = self.eval_each(arguments.as_slice(), Items::new(self.alloc), state)?;
                self.call(*function, values.as_slice(), state)?;
                Ok(Flow::Next)
            }
            Plain::Print {
                format,
                arguments,
                ..
            } => {
                let values = self.eval_each(arguments.as_slice(), Items::new(self.alloc), state)?;
                state.print(self.alloc, format.as_slice(), values.as_slice())?;
                Ok(Flow::Next)
            }
            Plain::Scan { target, .. } => self.scan(target, state),
            Plain::Sync { status, .. } => {
                state.set_scalar(status.number, 0);
                Ok(Flow::Next)
            }
            Plain::Gmove { target, source, .. } => self.gmove(target, source, state),
            Plain::Reflect { .. } | Plain::Barrier { .. } | Plain::Cast { .. } => Ok(Flow::Next),
        }
    }
}
