// Assignments, declarations and inputs.
ghost use Rattle.std.specs.Prelude.{◌≡◌, Some};
ghost use Rattle.xmp_num.specs.Decimal.{scan_of};
ghost use Rattle.xmp_meaning.specs.Handlers.{erased};
ghost use Rattle.xmp_meaning.specs.Runs.{Does, Gave};
ghost use Rattle.xmp_serial.specs.Lines.{context_at};
ghost use Rattle.xmp_meaning.specs.Assignments.{assign, at_target, declare, initialise, location_type, new_value, scan, store, store_read, value_at};

use crate::callee::Callee;
use crate::declared::{array_type, scalar_type};
use crate::frame::Frame;
use crate::state::State;
use xmp_meaning::{End, Flow, Halt, Location};
use xmp_num::{Ty, binary, convert};
use xmp_prog::{Compound, Expr, Target};

impl<C: Callee> Frame<'_, C> {
    /// Writes a value, converted to the location's type.
    pub fn store(&self, to: Location, value: i64, state: &mut State)
        ensures { store erased (context_at self.now.program.now self.now.packed self.now.node self.now.input.now (C.calls self.now.callee.now)) to value state.old ≡ Gave tt state.new }
    {
        match to {
            Location::Scalar(slot) => {
                state.set_scalar(slot, convert(value, scalar_type(self.program, slot)));
            }
            Location::Cell(array, at) => {
                state.set_cell(array, at, convert(value, array_type(self.program, array)));
            }
        }
    }

    /// The right side of an assignment; a compound form reads the old value first, and joins the two.
    #[inline(always)]
    fn new_value(
        &self,
        location: Location,
        compound: &Option<Compound>,
        e: &Expr,
        state: &mut State,
    ) -> Result<i64, Halt>
        requires { C.ready self.now.callee.now }
        ensures { Does (new_value erased (context_at self.now.program.now self.now.packed self.now.node self.now.input.now (C.calls self.now.callee.now)) location compound.now e.now state.old) result state.new }
    {
        match compound {
            None => self.eval(e, state),
            Some(c) => self.joined(location, c, e, state),
        }
    }

    /// The old value, and then the right side, joined.
    fn joined(
        &self,
        location: Location,
        c: &Compound,
        e: &Expr,
        state: &mut State,
    ) -> Result<i64, Halt>
        requires { C.ready self.now.callee.now }
        ensures { Does (new_value erased (context_at self.now.program.now self.now.packed self.now.node self.now.input.now (C.calls self.now.callee.now)) location (Some c.now) e.now state.old) result state.new }
    {
        let old = value_at(state, location);
        let value = self.eval(e, state)?;
        match binary(c.op, c.ty, old, value) {
            Ok(value) => Ok(value),
            Err(kind) => Err(Halt::End(End::Trapped(kind, c.at))),
        }
    }

    /// An assignment to a location.
    #[inline(always)]
    fn assign_at(
        &self,
        location: Location,
        compound: &Option<Compound>,
        e: &Expr,
        state: &mut State,
    ) -> Result<Flow, Halt>
        requires { C.ready self.now.callee.now }
        ensures { Does (assign erased (context_at self.now.program.now self.now.packed self.now.node self.now.input.now (C.calls self.now.callee.now)) compound.now e.now location state.old) result state.new }
    {
        let value = self.new_value(location, compound, e, state)?;
        self.store(location, value, state);
        Ok(Flow::Next)
    }

    /// An assignment: the target's subscripts, and then the rest.
    pub fn assign(
        &self,
        to: &Target,
        compound: &Option<Compound>,
        e: &Expr,
        state: &mut State,
    ) -> Result<Flow, Halt>
        requires { C.ready self.now.callee.now }
        ensures { Does (at_target erased (context_at self.now.program.now self.now.packed self.now.node self.now.input.now (C.calls self.now.callee.now)) to.now (assign erased (context_at self.now.program.now self.now.packed self.now.node self.now.input.now (C.calls self.now.callee.now)) compound.now e.now) state.old) result state.new }
    {
        match to {
            Target::Scalar(slot, _) => self.assign_at(Location::Scalar(*slot), compound, e, state),
            Target::Cell(access) => {
                let at = self.cell_of(access, state)?;
                self.assign_at(Location::Cell(access.array, at), compound, e, state)
            }
        }
    }

    fn initialise(&self, slot: u32, value: &Option<Expr>, state: &mut State) -> Result<Flow, Halt>
        requires { C.ready self.now.callee.now }
        ensures { Does (initialise erased (context_at self.now.program.now self.now.packed self.now.node self.now.input.now (C.calls self.now.callee.now)) slot value.now state.old) result state.new }
    {
        match value {
            None => Ok(Flow::Next),
            Some(e) => {
                let value = self.eval(e, state)?;
                self.store(Location::Scalar(slot), value, state);
                Ok(Flow::Next)
            }
        }
    }

    /// A declaration, which sets its variable to 0 each time, and then to its initialiser.
    pub fn declare(&self, slot: u32, value: &Option<Expr>, state: &mut State) -> Result<Flow, Halt>
        requires { C.ready self.now.callee.now }
        ensures { Does (declare erased (context_at self.now.program.now self.now.packed self.now.node self.now.input.now (C.calls self.now.callee.now)) slot value.now state.old) result state.new }
    {
        state.set_scalar(slot, 0);
        self.initialise(slot, value, state)
    }

    fn location_type(&self, location: Location) -> Ty
        ensures { result ≡ location_type self.now.program.now location }
    {
        match location {
            Location::Scalar(slot) => scalar_type(self.program, slot),
            Location::Cell(array, _) => array_type(self.program, array),
        }
    }

    fn store_read(&self, to: Location, value: Option<i64>, state: &mut State)
        ensures { store_read erased (context_at self.now.program.now self.now.packed self.now.node self.now.input.now (C.calls self.now.callee.now)) to value state.old ≡ Gave Flow.Next state.new }
    {
        if let Some(value) = value {
            self.store(to, value, state);
        }
    }

    /// Reads one number of the input into a location.
    fn scan_into(&self, location: Location, state: &mut State)
        ensures { scan erased (context_at self.now.program.now self.now.packed self.now.node self.now.input.now (C.calls self.now.callee.now)) location state.old ≡ Gave Flow.Next state.new }
    {
        let (value, taken) = scan_at(self.input, state.taken(), self.location_type(location));
        state.set_taken(taken);
        self.store_read(location, value, state);
    }

    /// Reads one number of the input into a target, whose subscripts come first.
    pub fn scan(&self, to: &Target, state: &mut State) -> Result<Flow, Halt>
        requires { C.ready self.now.callee.now }
        ensures { Does (at_target erased (context_at self.now.program.now self.now.packed self.now.node self.now.input.now (C.calls self.now.callee.now)) to.now (scan erased (context_at self.now.program.now self.now.packed self.now.node self.now.input.now (C.calls self.now.callee.now))) state.old) result state.new }
    {
        match to {
            Target::Scalar(slot, _) => {
                self.scan_into(Location::Scalar(*slot), state);
                Ok(Flow::Next)
            }
            Target::Cell(access) => {
                let at = self.cell_of(access, state)?;
                self.scan_into(Location::Cell(access.array, at), state);
                Ok(Flow::Next)
            }
        }
    }
}

/// The value at a location.
pub fn value_at(state: &State, location: Location) -> i64
    ensures { value_at erased location state.now ≡ Gave result state.now }
{
    match location {
        Location::Scalar(slot) => state.scalar(slot),
        Location::Cell(array, at) => state.cell(array, at),
    }
}

/// What is read at a place of the input; behind its end there is nothing.
fn scan_at(input: &[u8], at: usize, ty: Ty) -> (Option<i64>, usize)
    ensures { result ≡ scan_of ty input.now at }
{
    if at <= input.len() {
        return xmp_num::scan(input, at, ty);
    }
    (None, at)
}
