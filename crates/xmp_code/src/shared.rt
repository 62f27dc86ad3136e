// Instructions on shared words, on input and output, and on meetings.
ghost use Rattle.std.specs.Prelude.{◌≡◌, true, length, slice_get, Some};
ghost use Rattle.xmp_instr.specs.Depths.{needs};
ghost use Rattle.xmp_instr.specs.Valid.{IsValid};
ghost use Rattle.xmp_instr.specs.declared.instr.Instr.TheVariants as i;
ghost use Rattle.xmp_code.specs.States.{node_of};
ghost use Rattle.xmp_code.specs.Actions.{IsActionOf, is_shared, is_told};

use crate::action::Action;
use crate::ends::kind_of_number;
use crate::state::State;
use crate::values::within;
use xmp_base::Place;
use xmp_instr::{CodeParts, Instr, Stop};
use xmp_num::Ty;

const WORDS: u64 = 1 << 32;

fn get(code: &CodeParts, state: &State) -> Action
    ensures { IsActionOf code.now i.Get (node_of state.now) result }
{
    match state.stack.top() {
        Some(w) => match within(w, WORDS) {
            Some(w) => Action::Halt(Stop::Get(w as u32)),
            None => Action::Stuck,
        },
        None => Action::Stuck,
    }
}

fn put(code: &CodeParts, state: &State) -> Action
    ensures { IsActionOf code.now i.Put (node_of state.now) result }
{
    match state.stack.two() {
        Some((w, v)) => match within(w, WORDS) {
            Some(w) => Action::Halt(Stop::Put(w as u32, v)),
            None => Action::Stuck,
        },
        None => Action::Stuck,
    }
}

fn lift(code: &CodeParts, state: &State, at: Place) -> Action
    ensures { IsActionOf code.now (i.Lift at) (node_of state.now) result }
{
    let Some(notice) = state.stack.top() else {
        return Action::Stuck;
    };
    match within(notice, 5) {
        None => Action::Stuck,
        Some(0) => Action::Take(1),
        Some(k) => {
            let place = match &state.data.noted {
                Some(note) => note.at,
                None => at,
            };
            Action::Halt(Stop::Trapped(kind_of_number(k as u64 - 1), place))
        }
    }
}

/// The action of an instruction on shared words, or of the end.
pub fn of_shared(code: &CodeParts, state: &State, instr: Instr) -> Action
    requires { is_shared instr ≡ true }
    ensures { IsActionOf code.now instr (node_of state.now) result }
{
    match instr {
        Instr::Get => get(code, state),
        Instr::Put => put(code, state),
        Instr::Sync => Action::Halt(Stop::Sync),
        Instr::Lift(at) => lift(code, state, at),
        Instr::End => Action::Halt(Stop::Ended),
        _ => unreachable!(),
    }
}

fn scan(code: &CodeParts, state: &State, ty: Ty) -> Action
    requires { length state.now.data.words.items ≡ code.now.words }
    ensures { IsActionOf code.now (i.Scan ty) (node_of state.now) result }
{
    match state.stack.top() {
        Some(slot) => match within(slot, u64::from(code.words)) {
            Some(slot) => Action::Read(ty, slot),
            None => Action::Stuck,
        },
        None => Action::Stuck,
    }
}

/// How many values an instruction that stands at a place takes: by so many the depth falls behind it.
fn taken(code: &CodeParts, place: usize, instr: Instr) -> usize
    requires valid { IsValid code.now }
    requires here { slice_get code.now.instrs place ≡ Some instr }
    requires told { is_told instr ≡ true }
    ensures { result ≡ needs code.now instr }
{
    let depths = code.depths.as_slice();
    (depths[place] - depths[place + 1]) as usize
}

/// The action of an instruction that prints, reads or meets.
pub fn of_told(code: &CodeParts, state: &State, instr: Instr) -> Action
    requires group { is_told instr ≡ true }
    requires valid { IsValid code.now }
    requires here { slice_get code.now.instrs state.now.place ≡ Some instr }
    requires words { length state.now.data.words.items ≡ code.now.words }
    ensures { IsActionOf code.now instr (node_of state.now) result }
{
    match instr {
        Instr::Print(f) => Action::Print(f, taken(code, state.place, instr)),
        Instr::Scan(ty) => scan(code, state, ty),
        Instr::Exchange(e) => Action::Meet(e, taken(code, state.place, instr)),
        _ => unreachable!(),
    }
}
