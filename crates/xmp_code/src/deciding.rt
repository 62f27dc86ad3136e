// What the instruction at which a node stands does.
ghost use Rattle.std.specs.Prelude.{◌≡◌, ◌+◌, ◌<◌, ◌^◌, length, slice_get, Some};
ghost use Rattle.xmp_instr.specs.Valid.{InRange, IsValid};
ghost use Rattle.xmp_code.specs.States.{node_of};
ghost use Rattle.xmp_code.specs.Actions.{IsActionOf};

use crate::action::Action;
use crate::control::of_control;
use crate::points::of_points;
use crate::shared::{of_shared, of_told};
use crate::state::State;
use crate::values::of_values;
use crate::words::of_words;
use xmp_instr::{CodeParts, Instr};

/// The action of an instruction.
pub fn action_of(code: &CodeParts, state: &State, instr: Instr) -> Action
    requires valid { IsValid code.now }
    requires here { slice_get code.now.instrs state.now.place ≡ Some instr }
    requires range { InRange code.now instr }
    requires words { length state.now.data.words.items ≡ code.now.words }
    requires place { state.now.place + 1 < 2 ^ 64 }
    ensures { IsActionOf code.now instr (node_of state.now) result }
{
    match instr {
        Instr::Push(_)
        | Instr::Drop
        | Instr::Dup
        | Instr::Bound(..)
        | Instr::Fold(_)
        | Instr::Bin(..)
        | Instr::Conv(_)
        | Instr::Noted => of_values(code, state, instr),
        Instr::Load(_) | Instr::Save(_) | Instr::LoadAt(..) | Instr::SaveAt(..) => {
            of_words(code, state, instr)
        }
        Instr::Local(..) | Instr::Mine(..) | Instr::NextMine(..) => of_points(code, state, instr),
        Instr::Jump(_)
        | Instr::JumpZero(_)
        | Instr::Call(_)
        | Instr::Return
        | Instr::Turn
        | Instr::Count
        | Instr::Guard(_)
        | Instr::Unguard => of_control(code, state, instr),
        Instr::Get | Instr::Put | Instr::Sync | Instr::Lift(_) | Instr::End => {
            of_shared(code, state, instr)
        }
        Instr::Print(_) | Instr::Scan(_) | Instr::Exchange(_) => of_told(code, state, instr),
    }
}
