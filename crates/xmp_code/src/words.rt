// Instructions on the words of the store.
ghost use Rattle.std.specs.Prelude.{◌≡◌, true, length};
ghost use Rattle.xmp_move.specs.Stores.{word_at};
ghost use Rattle.xmp_instr.specs.Valid.{InRange};
ghost use Rattle.xmp_instr.specs.declared.instr.Instr.TheVariants as i;
ghost use Rattle.xmp_code.specs.States.{node_of};
ghost use Rattle.xmp_code.specs.Actions.{IsActionOf, is_word};

use crate::action::Action;
use crate::state::State;
use crate::values::within;
use xmp_instr::{CodeParts, Instr};

/// The word of a slot, or 0 where there is none.
pub fn word_at(words: &[i64], slot: usize) -> i64
    ensures { result ≡ word_at words.now slot }
{
    match words.get(slot) {
        Some(word) => *word,
        None => 0,
    }
}

fn save(code: &CodeParts, state: &State, slot: u32) -> Action
    requires range { InRange code.now (i.Save slot) }
    requires words { length state.now.data.words.items ≡ code.now.words }
    ensures { IsActionOf code.now (i.Save slot) (node_of state.now) result }
{
    match state.stack.top() {
        Some(v) => Action::Write(1, slot as usize, v),
        None => Action::Stuck,
    }
}

fn load_at(code: &CodeParts, state: &State, base: u32, n: u32) -> Action
    ensures { IsActionOf code.now (i.LoadAt base n) (node_of state.now) result }
{
    match state.stack.top() {
        Some(x) => match within(x, u64::from(n)) {
            Some(k) => Action::Value(1, word_at(state.data.words.as_slice(), base as usize + k)),
            None => Action::Value(1, 0),
        },
        None => Action::Stuck,
    }
}

fn save_at(code: &CodeParts, state: &State, base: u32, n: u32) -> Action
    requires range { InRange code.now (i.SaveAt base n) }
    requires words { length state.now.data.words.items ≡ code.now.words }
    ensures { IsActionOf code.now (i.SaveAt base n) (node_of state.now) result }
{
    match state.stack.two() {
        Some((x, v)) => match within(x, u64::from(n)) {
            Some(k) => Action::Write(2, base as usize + k, v),
            None => Action::Take(2),
        },
        None => Action::Stuck,
    }
}

/// The action of an instruction on the words of the store.
pub fn of_words(code: &CodeParts, state: &State, instr: Instr) -> Action
    requires group { is_word instr ≡ true }
    requires range { InRange code.now instr }
    requires words { length state.now.data.words.items ≡ code.now.words }
    ensures { IsActionOf code.now instr (node_of state.now) result }
{
    match instr {
        Instr::Load(slot) => {
            Action::Value(0, word_at(state.data.words.as_slice(), slot as usize))
        }
        Instr::Save(slot) => save(code, state, slot),
        Instr::LoadAt(base, n) => load_at(code, state, base, n),
        Instr::SaveAt(base, n) => save_at(code, state, base, n),
        _ => unreachable!(),
    }
}
