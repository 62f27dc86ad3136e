// The values of expressions.
ghost use Rattle.std.specs.Prelude.{◌≡◌, ◌*◌, ◌+ℤ◌, [], map, pos, if◌then◌else◌, IfSome};
ghost use Rattle.xmp_prog.specs.declared.expressions.Expr.TheOpen.{Expr-F};
ghost use Rattle.xmp_meaning.specs.Handlers.{erased};
ghost use Rattle.xmp_map.specs.RowMajor.{product};
ghost use Rattle.xmp_meaning.specs.Runs.{Does, and_then, cell, pure};
ghost use Rattle.xmp_serial.specs.Ends.{OrNoMemory};
ghost use Rattle.xmp_serial.specs.Lines.{AreAxes, context_at, layout_of, number_along};
ghost use Rattle.xmp_meaning.specs.Layouts.{axes};
ghost use Rattle.xmp_meaning.specs.Declarations.{extents, is_coarray};
ghost use Rattle.xmp_meaning.specs.Expressions.{as_truth, call, cell_of, checked, each, expr_of, expr_step, natural, within};

use crate::callee::Callee;
use crate::declared::node_count;
use crate::frame::Frame;
use crate::lines::Axis;
use crate::lists::push;
use crate::state::State;
use sqlite_items::{Items, at};
use xmp_base::Place;
use xmp_meaning::{End, Halt};
use xmp_num::{BinOp, TrapKind, Ty, binary, convert};
use xmp_prog::{Access, Expr};

impl<C: Callee> Frame<'_, C> {
    /// The value of an expression. A function sets all its locals to 0 when it begins, so the leaves wait for none, and each other
    /// form has a function of its own.
    #[cycle(eval)]
    #[inline(always)]
    pub fn eval(&self, e: &Expr, state: &mut State) -> Result<i64, Halt>
        requires { C.ready self.now.callee.now }
        ensures { Does (expr_of erased (context_at self.now.program.now self.now.packed self.now.node self.now.input.now (C.calls self.now.callee.now)) e.now state.old) result state.new }
    {
        match e {
            Expr::Const(value, _) => Ok(*value),
            Expr::Scalar(slot, _) => Ok(state.scalar(*slot)),
            Expr::Cell(access) => self.eval_cell(access, state),
            Expr::Binary(op, ty, a, b, at) => {
                self.eval_binary(*op, *ty, a.get(), b.get(), *at, state)
            }
            Expr::Both(a, b) => self.eval_both(a.get(), b.get(), state),
            Expr::Either(a, b) => self.eval_either(a.get(), b.get(), state),
            Expr::Choose(a, b, c) => self.eval_choice(a.get(), b.get(), c.get(), state),
            Expr::Convert(ty, a) => self.eval_converted(*ty, a.get(), state),
            Expr::Call(function, arguments, _) => {
                self.eval_call(*function, arguments.as_slice(), state)
            }
            Expr::Node => Ok(i64::from(self.node)),
            Expr::Nodes => Ok(i64::from(node_count(self.program))),
        }
    }

    /// The value of an element.
    #[cycle(eval)]
    #[inline(never)]
    fn eval_cell(&self, access: &Access, state: &mut State) -> Result<i64, Halt>
        requires { C.ready self.now.callee.now }
        ensures { Does (and_then (cell_of erased (context_at self.now.program.now self.now.packed self.now.node self.now.input.now (C.calls self.now.callee.now)) access.now state.old) (cell access.now.array)) result state.new }
    {
        let at = self.cell_of(access, state)?;
        Ok(state.cell(access.array, at))
    }

    /// An operator on the values of its operands.
    #[cycle(eval)]
    #[inline(never)]
    fn eval_binary(
        &self,
        op: BinOp,
        ty: Ty,
        a: &Expr,
        b: &Expr,
        at: Place,
        state: &mut State,
    ) -> Result<i64, Halt>
        requires { C.ready self.now.callee.now }
        ensures { Does (expr_step erased (context_at self.now.program.now self.now.packed self.now.node self.now.input.now (C.calls self.now.callee.now)) (Expr-F.Binary op ty (expr_of erased (context_at self.now.program.now self.now.packed self.now.node self.now.input.now (C.calls self.now.callee.now)) a.now) (expr_of erased (context_at self.now.program.now self.now.packed self.now.node self.now.input.now (C.calls self.now.callee.now)) b.now) at) state.old) result state.new }
    {
        let x = self.eval(a, state)?;
        let y = self.eval(b, state)?;
        match binary(op, ty, x, y) {
            Ok(value) => Ok(value),
            Err(kind) => Err(Halt::End(End::Trapped(kind, at))),
        }
    }

    /// `a && b`.
    #[cycle(eval)]
    #[inline(never)]
    fn eval_both(&self, a: &Expr, b: &Expr, state: &mut State) -> Result<i64, Halt>
        requires { C.ready self.now.callee.now }
        ensures { Does (expr_step erased (context_at self.now.program.now self.now.packed self.now.node self.now.input.now (C.calls self.now.callee.now)) (Expr-F.Both (expr_of erased (context_at self.now.program.now self.now.packed self.now.node self.now.input.now (C.calls self.now.callee.now)) a.now) (expr_of erased (context_at self.now.program.now self.now.packed self.now.node self.now.input.now (C.calls self.now.callee.now)) b.now)) state.old) result state.new }
    {
        if self.eval(a, state)? == 0 {
            return Ok(0);
        }
        let y = self.eval(b, state)?;
        Ok(truth_of(y))
    }

    /// `a || b`.
    #[cycle(eval)]
    #[inline(never)]
    fn eval_either(&self, a: &Expr, b: &Expr, state: &mut State) -> Result<i64, Halt>
        requires { C.ready self.now.callee.now }
        ensures { Does (expr_step erased (context_at self.now.program.now self.now.packed self.now.node self.now.input.now (C.calls self.now.callee.now)) (Expr-F.Either (expr_of erased (context_at self.now.program.now self.now.packed self.now.node self.now.input.now (C.calls self.now.callee.now)) a.now) (expr_of erased (context_at self.now.program.now self.now.packed self.now.node self.now.input.now (C.calls self.now.callee.now)) b.now)) state.old) result state.new }
    {
        if self.eval(a, state)? == 0 {
            let y = self.eval(b, state)?;
            return Ok(truth_of(y));
        }
        Ok(1)
    }

    /// `a ? b : c`.
    #[cycle(eval)]
    #[inline(never)]
    fn eval_choice(&self, a: &Expr, b: &Expr, c: &Expr, state: &mut State) -> Result<i64, Halt>
        requires { C.ready self.now.callee.now }
        ensures { Does (expr_step erased (context_at self.now.program.now self.now.packed self.now.node self.now.input.now (C.calls self.now.callee.now)) (Expr-F.Choose (expr_of erased (context_at self.now.program.now self.now.packed self.now.node self.now.input.now (C.calls self.now.callee.now)) a.now) (expr_of erased (context_at self.now.program.now self.now.packed self.now.node self.now.input.now (C.calls self.now.callee.now)) b.now) (expr_of erased (context_at self.now.program.now self.now.packed self.now.node self.now.input.now (C.calls self.now.callee.now)) c.now)) state.old) result state.new }
    {
        if self.eval(a, state)? == 0 {
            self.eval(c, state)
        } else {
            self.eval(b, state)
        }
    }

    /// A value converted to a type.
    #[cycle(eval)]
    #[inline(never)]
    fn eval_converted(&self, ty: Ty, a: &Expr, state: &mut State) -> Result<i64, Halt>
        requires { C.ready self.now.callee.now }
        ensures { Does (expr_step erased (context_at self.now.program.now self.now.packed self.now.node self.now.input.now (C.calls self.now.callee.now)) (Expr-F.Convert ty (expr_of erased (context_at self.now.program.now self.now.packed self.now.node self.now.input.now (C.calls self.now.callee.now)) a.now)) state.old) result state.new }
    {
        let x = self.eval(a, state)?;
        Ok(convert(x, ty))
    }

    /// A call's value.
    #[cycle(eval)]
    #[inline(never)]
    fn eval_call(&self, function: u32, arguments: &[Expr], state: &mut State) -> Result<i64, Halt>
        requires { C.ready self.now.callee.now }
        ensures { Does (and_then (each (map (expr_of erased (context_at self.now.program.now self.now.packed self.now.node self.now.input.now (C.calls self.now.callee.now))) arguments.now) [] state.old) (call (context_at self.now.program.now self.now.packed self.now.node self.now.input.now (C.calls self.now.callee.now)) function)) result state.new }
    {
        let values = self.eval_each(arguments, Items::new(self.alloc), state)?;
        self.call(function, values.as_slice(), state)
    }

    /// The values so far, and then those of the expressions from left to right.
    #[cycle(eval)]
    pub fn eval_each(
        &self,
        es: &[Expr],
        mut values: Items<i64>,
        state: &mut State,
    ) -> Result<Items<i64>, Halt>
        requires { C.ready self.now.callee.now }
        ensures { Does (each (map (expr_of erased (context_at self.now.program.now self.now.packed self.now.node self.now.input.now (C.calls self.now.callee.now))) es.now) values state.old) result state.new }
    {
        'items: for e in es {
            let value = self.eval(e, state)?;
            push(&mut values, value)?;
        }
        Ok(values)
    }

    /// Which cell of its array an element is. The subscripts are evaluated and checked from left to right. Want of memory is answered also
    /// where 64 bits don't hold the number.
    #[cycle(eval)]
    pub fn cell_of(&self, access: &Access, state: &mut State) -> Result<i64, Halt>
        requires { C.ready self.now.callee.now }
        ensures { Does (cell_of erased (context_at self.now.program.now self.now.packed self.now.node self.now.input.now (C.calls self.now.callee.now)) access.now state.old) result state.new }
    {
        let axes = self.axes(access.array);
        match self.cell_number(access.subscripts.as_slice(), axes, access.at, state) {
            Ok(at) => match &access.image {
                None => self.in_image(access.array, self.own_image(access.array), at),
                Some(e) => match self.eval(e.get(), state) {
                    Ok(image) => self.in_image(access.array, natural(image), at),
                    Err(halt) => Err(halt),
                },
            },
            Err(halt) => Err(halt),
        }
    }

    /// The number of a cell in its row, of which the subscripts before give `so_far`.
    #[cycle(eval)]
    fn cell_number(
        &self,
        subscripts: &[Expr],
        mut axes: &[Axis],
        at: Place,
        state: &mut State,
    ) -> Result<i64, Halt>
        requires { C.ready self.now.callee.now }
        ensures { Does (and_then (checked (map (expr_of erased (context_at self.now.program.now self.now.packed self.now.node self.now.input.now (C.calls self.now.callee.now))) subscripts.now) (map (λ a. a.extent) axes.entry.now) at state.old) (λ xs. pure (number_along axes.entry.now (pos 0) xs))) result state.new }
    {
        let mut so_far = 0i64;
        'subscripts: for e in subscripts {
            let [axis, rest @ ..] = axes else {
                return Ok(so_far);
            };
            let value = self.eval(e, state)?;
            let Some(x) = within(value, axis.extent) else {
                return Err(Halt::End(End::Trapped(TrapKind::Subscript, at)));
            };
            let Some(number) = axis.number(so_far, x) else {
                return Err(Halt::NoMemory);
            };
            so_far = number;
            axes = rest;
        }
        Ok(so_far)
    }

    /// The axes of an array.
    fn axes(&self, array: u32) -> &[Axis]
        ensures { AreAxes result.now (extents self.now.program.now array) (axes (layout_of self.now.packed) self.now.program.now array) }
    {
        match at(self.lines, array as usize) {
            Some(line) => line.axes.as_slice(),
            None => &[],
        }
    }

    fn own_image(&self, array: u32) -> u64
        ensures { result ≡ (if is_coarray self.now.program.now array then self.now.node else 0) }
    {
        match at(self.lines, array as usize) {
            Some(line) => {
                if line.of_images {
                    u64::from(self.node)
                } else {
                    0
                }
            }
            None => 0,
        }
    }

    /// How many cells an image has of an array.
    fn image_cells(&self, array: u32) -> usize
        ensures { result ≡ product (extents self.now.program.now array) }
    {
        match at(self.lines, array as usize) {
            Some(line) => line.cells,
            None => 1,
        }
    }

    /// The number of a cell of an image, or want of memory where 64 bits don't hold it.
    fn in_image(&self, array: u32, image: u64, at: i64) -> Result<i64, Halt>
        ensures { OrNoMemory (pos (image * product (extents self.now.program.now array)) +ℤ at) result }
    {
        if image == 0 {
            return Ok(at);
        }
        match behind(image, self.image_cells(array), at) {
            Some(number) => Ok(number),
            None => Err(Halt::NoMemory),
        }
    }

    /// Calls a function, which changes the steps left and nothing else.
    pub fn call(&self, function: u32, arguments: &[i64], state: &mut State) -> Result<i64, Halt>
        requires { C.ready self.now.callee.now }
        ensures { Does (call (context_at self.now.program.now self.now.packed self.now.node self.now.input.now (C.calls self.now.callee.now)) function arguments.now state.old) result state.new }
    {
        let mut steps = state.steps();
        let result = self
            .callee
            .call(self.alloc, function, arguments, &mut steps);
        state.set_steps(steps);
        result
    }
}

/// A subscript inside its extent.
pub fn within(value: i64, extent: u32) -> Option<u32>
    ensures { result ≡ within value extent }
{
    if value >= 0 && value < i64::from(extent) {
        Some(value as u32)
    } else {
        None
    }
}

/// A number behind so many rows of cells, where 64 bits hold it.
fn behind(rows: u64, cells: usize, at: i64) -> Option<i64>
    ensures { IfSome result (λ n. n ≡ pos (rows * cells) +ℤ at) }
{
    let before = (rows as usize).checked_mul(cells)?;
    i64::try_from(before).ok()?.checked_add(at)
}

/// The number that is counted; 0 for a negative one.
pub fn natural(value: i64) -> u64
    ensures { result ≡ natural value }
{
    if value < 0 { 0 } else { value as u64 }
}

/// 1 for a value other than 0, else 0.
fn truth_of(value: i64) -> i64
    ensures { result ≡ as_truth value }
{
    if value == 0 { 0 } else { 1 }
}
