// Instructions on the values of the stack.
ghost use Rattle.std.specs.Prelude.{◌≡◌, true};
ghost use Rattle.std.specs.Option.{option_map};
ghost use Rattle.xmp_instr.specs.Effects.{noted_value};
ghost use Rattle.xmp_meaning.specs.Expressions.{within};
ghost use Rattle.xmp_instr.specs.declared.instr.Instr.TheVariants as i;
ghost use Rattle.xmp_code.specs.States.{node_of, note_of};
ghost use Rattle.xmp_code.specs.Actions.{IsActionOf, is_value};

use crate::action::Action;
use crate::ends::{folded, kind_number};
use crate::state::{Note, State};
use xmp_base::Place;
use xmp_instr::{CodeParts, Instr};
use xmp_num::{BinOp, TrapKind, Ty, binary, convert};

/// A number from 0 on and below a limit.
pub fn within(value: i64, limit: u64) -> Option<usize>
    ensures { result ≡ within value limit }
{
    if value >= 0 && (value as u64) < limit {
        Some(value as usize)
    } else {
        None
    }
}

fn bound(code: &CodeParts, state: &State, n: u32, at: Place) -> Action
    ensures { IsActionOf code.now (i.Bound n at) (node_of state.now) result }
{
    match state.stack.top() {
        Some(x) => match within(x, u64::from(n)) {
            Some(_) => Action::Take(0),
            None => Action::Trap(TrapKind::Subscript, at),
        },
        None => Action::Stuck,
    }
}

fn fold(code: &CodeParts, state: &State, n: u32) -> Action
    ensures { IsActionOf code.now (i.Fold n) (node_of state.now) result }
{
    match state.stack.two() {
        Some((a, b)) => Action::Value(2, folded(a, i64::from(n), b)),
        None => Action::Stuck,
    }
}

fn combined(code: &CodeParts, state: &State, op: BinOp, ty: Ty, at: Place) -> Action
    ensures { IsActionOf code.now (i.Bin op ty at) (node_of state.now) result }
{
    match state.stack.two() {
        Some((a, b)) => match binary(op, ty, a, b) {
            Ok(v) => Action::Value(2, v),
            Err(kind) => Action::Trap(kind, at),
        },
        None => Action::Stuck,
    }
}

/// 1 plus the kind of a trap that was noted, or 0.
fn noted_value(noted: &Option<Note>) -> i64
    ensures { result ≡ noted_value (option_map note_of noted.now) }
{
    match noted {
        Some(note) => i64::from(1 + kind_number(note.kind)),
        None => 0,
    }
}

/// The action of an instruction on the stack's values.
pub fn of_values(code: &CodeParts, state: &State, instr: Instr) -> Action
    requires { is_value instr ≡ true }
    ensures { IsActionOf code.now instr (node_of state.now) result }
{
    match instr {
        Instr::Push(v) => Action::Value(0, v),
        Instr::Drop => match state.stack.top() {
            Some(_) => Action::Take(1),
            None => Action::Stuck,
        },
        Instr::Dup => match state.stack.top() {
            Some(x) => Action::Value(0, x),
            None => Action::Stuck,
        },
        Instr::Bound(n, at) => bound(code, state, n, at),
        Instr::Fold(n) => fold(code, state, n),
        Instr::Bin(op, ty, at) => combined(code, state, op, ty, at),
        Instr::Conv(ty) => match state.stack.top() {
            Some(x) => Action::Value(1, convert(x, ty)),
            None => Action::Stuck,
        },
        Instr::Noted => Action::Value(0, noted_value(&state.data.noted)),
        _ => unreachable!(),
    }
}
