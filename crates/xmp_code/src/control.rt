// Instructions on the order of instructions, on calls, guards and counts.
ghost use Rattle.std.specs.Prelude.{◌≡◌, ◌+◌, ◌<◌, ◌^◌, true};
ghost use Rattle.xmp_instr.specs.declared.instr.Instr.TheVariants as i;
ghost use Rattle.xmp_code.specs.States.{node_of};
ghost use Rattle.xmp_code.specs.Actions.{IsActionOf, is_control};

use crate::action::{Action, Control};
use crate::state::State;
use xmp_instr::{CodeParts, Instr};

fn jump_zero(code: &CodeParts, state: &State, k: u32) -> Action
    requires { state.now.place + 1 < 2 ^ 64 }
    ensures { IsActionOf code.now (i.JumpZero k) (node_of state.now) result }
{
    match state.stack.top() {
        Some(x) => {
            if x == 0 {
                Action::Go(1, k as usize)
            } else {
                Action::Go(1, state.place + 1)
            }
        }
        None => Action::Stuck,
    }
}

fn call(code: &CodeParts, state: &State, k: u32) -> Action
    ensures { IsActionOf code.now (i.Call k) (node_of state.now) result }
{
    if state.frame.calls.len() < code.calls as usize {
        Action::Control(Control::Call(k))
    } else {
        Action::Stuck
    }
}

/// The action of an instruction on the order of instructions, on calls, guards or counts.
pub fn of_control(code: &CodeParts, state: &State, instr: Instr) -> Action
    requires group { is_control instr ≡ true }
    requires place { state.now.place + 1 < 2 ^ 64 }
    ensures { IsActionOf code.now instr (node_of state.now) result }
{
    match instr {
        Instr::Jump(k) => Action::Go(0, k as usize),
        Instr::JumpZero(k) => jump_zero(code, state, k),
        Instr::Call(k) => call(code, state, k),
        Instr::Return => Action::Control(Control::Return),
        Instr::Turn => Action::Control(Control::Turn),
        Instr::Count => Action::Control(Control::Count),
        Instr::Guard(g) => Action::Control(Control::Guard(g)),
        Instr::Unguard => Action::Control(Control::Unguard),
        _ => unreachable!(),
    }
}
