// How a node goes on from a meeting.
ghost use Rattle.std.specs.Prelude.{◌≡◌, ◌+◌, ◌++◌, ◌<◌, ◌^◌, vec_capacity, OnErr, OnOk};
ghost use Rattle.std.specs.Option.{option_map};
ghost use Rattle.xmp_move.specs.Stores.{packed, write_all};
ghost use Rattle.xmp_instr.specs.Effects.{text_before};
ghost use Rattle.xmp_instr.specs.Node.{Over};
ghost use Rattle.xmp_instr.specs.Resumed.{ended, gone_on};
ghost use Rattle.xmp_code.specs.States.{mark_of, node_of};
ghost use Rattle.xmp_code.specs.Acting.{Keeps};
ghost use Rattle.xmp_code.specs.Ends.{said_of};
ghost use Rattle.xmp_machine.specs.Resuming.{IsPast, words_by};

use crate::heard::{words_said, write_all};
use xmp_base::{NoMemory, Place};
use xmp_code::{Mode, State, TrapSaid};
use xmp_message::Message;
use xmp_num::TrapKind;

/// Where the text of the node's task begins.
pub fn mark_of(mode: Mode) -> Option<usize>
    ensures { result ≡ mark_of mode }
{
    match mode {
        Mode::Meets(_, mark) => mark,
        _ => None,
    }
}

/// Drops the text behind a mark.
pub fn cut(out: &mut Vec<u8>, mark: Option<usize>)
    ensures items { out.new.items ≡ text_before mark out.old.items }
    ensures room { vec_capacity out.new ≡ vec_capacity out.old }
{
    if let Some(mark) = mark {
        out.truncate(mark);
    }
}

/// Adds text to what stands before a mark; or changes nothing.
pub fn append(out: &mut Vec<u8>, mark: Option<usize>, text: &[u8]) -> Result<(), NoMemory>
    ensures ok { OnOk result (out.new.items ≡ text_before mark out.old.items ++ text.now) }
    ensures err { OnErr result (out.new.items ≡ out.old.items) }
{
    out.reserve(text.len())?;
    cut(out, mark);
    match out.extend_from_slice(text) {
        Ok(()) => Ok(()),
        Err(_) => unreachable!(),
    }
}

/// Goes on behind the exchange, without the text of the node's task.
pub fn go_on(state: &mut State)
    requires { state.old.place + 1 < 2 ^ 64 }
    ensures node { node_of state.new ≡ gone_on (node_of state.old) (node_of state.old).state }
    ensures keeps { Keeps state.old state.new }
    ensures past { IsPast state.new.talk.mode }
{
    cut(&mut state.data.out, mark_of(state.talk.mode));
    state.talk.mode = Mode::Going;
    state.talk.moving = None;
    state.place += 1;
}

/// Is over by a trap that was said.
fn end_over(state: &mut State, kind: TrapKind, at: Place)
    ensures node { node_of state.new ≡ record (node_of state.old) { stage = Over kind at } }
    ensures keeps { Keeps state.old state.new }
    ensures past { IsPast state.new.talk.mode }
{
    cut(&mut state.data.out, mark_of(state.talk.mode));
    state.talk.mode = Mode::Over(kind, at);
    state.talk.moving = None;
}

/// Is over by a trap that was said, or goes on.
pub fn end_with(state: &mut State, trap: Option<TrapSaid>)
    requires { state.old.place + 1 < 2 ^ 64 }
    ensures node { node_of state.new ≡ ended (node_of state.old) (node_of state.old).state (option_map said_of trap) }
    ensures keeps { Keeps state.old state.new }
    ensures past { IsPast state.new.talk.mode }
{
    match trap {
        Some(trap) => end_over(state, trap.kind, trap.at),
        None => go_on(state),
    }
}

/// Writes the words of a cast into the slots. The node that says them has them there.
pub fn write_cast(words: &mut [i64], node: u32, heard: &[Option<Message>], slots: &[u32], from: u32)
    ensures { words.new ≡ write_all words.old slots.now (words_by node (packed words.old slots.now) heard.now from) }
{
    if from != node {
        write_all(words, slots, words_said(heard, from));
    }
}
