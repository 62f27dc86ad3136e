// How a node goes on from each meeting.
ghost use Rattle.std.specs.Prelude.{◌≡◌, ◌+◌, ◌<◌, ◌≤◌, ◌^◌, ◌++◌, ℕ, length, map, slice_get, true, IfOk, IfSome, IsSome, OnErr, OnOk, Some};
ghost use Rattle.std.specs.List.{range_with_len};
ghost use Rattle.std.specs.Option.{option_map};
ghost use Rattle.xmp_move.specs.Plans.{IsPlanOf};
ghost use Rattle.xmp_move.specs.Stores.{packed, write_all};
ghost use Rattle.xmp_instr.specs.Effects.{text_before, text_behind};
ghost use Rattle.xmp_instr.specs.Meetings.{filled_slots};
ghost use Rattle.xmp_instr.specs.Resumed.{all_of, earliest_trap, gone_on, resumed, resumed_from};
ghost use Rattle.xmp_instr.specs.Serving.{HasHeard, is_heard, of_all_others};
ghost use Rattle.xmp_instr.specs.Valid.{IsValid, MoveFits};
ghost use Rattle.xmp_code.specs.declared.state.Mode.TheVariants as mode;
ghost use Rattle.xmp_code.specs.States.{node_of};
ghost use Rattle.xmp_code.specs.Acting.{Keeps};
ghost use Rattle.xmp_code.specs.Ends.{said_of_each};
ghost use Rattle.xmp_code.specs.Fitting.{IsMovingOf, SameBut, StateFits};
ghost use Rattle.xmp_code.specs.Running.{IsTasks, MayLack};
ghost use Rattle.xmp_machine.specs.Resuming.{IsPast, end_by, first_trap_by, gone_from_loop, gone_from_tasks, moved_words, own_task_words, part_words, reduced_words, standing_in, task_end_by, task_text_by, texts_by, words_by};

use crate::moving::write_moved;
use crate::reducing::{earliest, reduce};
use crate::resuming::{append, end_with, go_on, write_cast};
use crate::saying::{part_end, task_end};
use crate::tasks::{Known, first_trap, texts_to_trap};
use crate::telling::text_behind;
use sqlite_items::Items;
use std::alloc::Global;
use xmp_base::NoMemory;
use xmp_code::{Mode, State, TrapSaid, end_words};
use xmp_instr::{CodeParts, Meeting, Reduced};
use xmp_move::MoveKind;

fn end_cast(state: &mut State, node: u32, slots: &[u32], from: u32)
    requires { state.old.place + 1 < 2 ^ 64 }
    ensures node { node_of state.new ≡ gone_on (node_of state.old) (record (node_of state.old).state {
      words = write_all state.old.data.words.items slots.now
          (words_by node (packed state.old.data.words.items slots.now) state.old.talk.heard.items from);
    }) }
    ensures keeps { Keeps state.old state.new }
    ensures past { IsPast state.new.talk.mode }
{
    let heard = state.talk.heard.as_slice();
    write_cast(state.data.words.as_mut_slice(), node, heard, slots, from);
    go_on(state);
}

/// Writes the words of a transfer.
fn move_words(state: &mut State, code: &CodeParts, kind: &MoveKind)
    requires valid { IsValid code.now }
    requires kind { MoveFits code.now kind.now }
    requires words { length state.old.data.words.items ≡ code.now.words }
    requires moving { IfSome state.old.talk.moving (λ m. IsMovingOf kind.now code.now.node state.old.data.words.items m) }
    requires moves { IsSome state.old.talk.moving }
    requires long { IfSome state.old.talk.moving (λ m. (k : ℕ) → k < code.now.nodes
        → length (words_by code.now.node m.own state.old.talk.heard.items k) ≡ length (filled_slots kind.now m.numbers.items code.now.node k)) }
    ensures words { IfSome state.old.talk.moving (λ m. state.new.data.words.items
        ≡ moved_words code.now kind.now m.numbers.items m.own state.old.talk.heard.items code.now.nodes state.old.data.words.items) }
    ensures same { state.new ≡ record state.old { «data» = record state.old.«data» { words = state.new.data.words } } }
{
    match &state.talk.moving {
        Some(moving) => {
            let heard = state.talk.heard.as_slice();
            write_moved(code, kind, moving, heard, state.data.words.as_mut_slice());
        }
        None => unreachable!(),
    }
}

// ---- the end of a loop directive

fn loop_end(state: &State, code: &CodeParts) -> Option<Option<TrapSaid>>
    ensures { said_of_each result ≡ option_map earliest_trap
        (all_of (map (end_by code.now.node (part_words state.now) state.now.talk.heard.items) (range_with_len 0 code.now.nodes))) }
{
    let own = end_words(part_end(&state.data.noted));
    earliest(code.nodes, code.node, &own, state.talk.heard.as_slice())
}

fn reduce_all(state: &mut State, code: &CodeParts, reduced: &[Reduced])
    requires nodes { 1 ≤ code.now.nodes }
    requires next { state.old.place + 1 < 2 ^ 64 }
    ensures node { node_of state.new ≡ gone_on (node_of state.old) (record (node_of state.old).state {
      words = reduced_words code.now.nodes code.now.node state.old.talk.heard.items 0 reduced.now state.old.data.words.items;
    }) }
    ensures keeps { Keeps state.old state.new }
    ensures past { IsPast state.new.talk.mode }
{
    let heard = state.talk.heard.as_slice();
    let words = state.data.words.as_mut_slice();
    reduce(code.nodes, code.node, heard, reduced, words);
    go_on(state);
}

fn end_loop(state: &mut State, code: &CodeParts, reduced: &[Reduced])
    requires nodes { 1 ≤ code.now.nodes }
    requires next { state.old.place + 1 < 2 ^ 64 }
    requires ends { IsSome (option_map earliest_trap
        (all_of (map (end_by code.now.node (part_words state.old) state.old.talk.heard.items) (range_with_len 0 code.now.nodes)))) }
    ensures node { IfSome (option_map earliest_trap
        (all_of (map (end_by code.now.node (part_words state.old) state.old.talk.heard.items) (range_with_len 0 code.now.nodes))))
        (λ trap. node_of state.new ≡ gone_from_loop trap
        (reduced_words code.now.nodes code.now.node state.old.talk.heard.items 0 reduced.now state.old.data.words.items) (node_of state.old)) }
    ensures keeps { Keeps state.old state.new }
    ensures past { IsPast state.new.talk.mode }
{
    match loop_end(state, code) {
        Some(None) => reduce_all(state, code, reduced),
        Some(trap) => end_with(state, trap),
        None => unreachable!(),
    }
}

// ---- the end of tasks

fn tasks_end(state: &State, code: &CodeParts, sets: &[Items<u32>]) -> Option<Option<TrapSaid>>
    ensures { said_of_each result
        ≡ first_trap_by (task_end_by code.now.node (own_task_words state.now) state.now.talk.heard.items) sets.now }
{
    let known = Known {
        node: code.node,
        end: end_words(task_end(&state.data.noted)),
        text: &[],
        heard: state.talk.heard.as_slice(),
    };
    first_trap(&known, sets)
}

fn task_texts(
    alloc: Global,
    state: &State,
    code: &CodeParts,
    sets: &[Items<u32>],
    mark: Option<usize>,
) -> Result<Vec<u8>, NoMemory>
    ensures { IfOk result (λ texts. texts.items
        ≡ texts_by (task_end_by code.now.node (own_task_words state.now) state.now.talk.heard.items)
        (task_text_by code.now.node (text_behind mark state.now.data.out.items) state.now.talk.heard.items) sets.now) }
{
    let known = Known {
        node: code.node,
        end: end_words(task_end(&state.data.noted)),
        text: text_behind(state.data.out.as_slice(), mark),
        heard: state.talk.heard.as_slice(),
    };
    texts_to_trap(alloc, &known, sets)
}

/// Adds the texts of tasks to what was printed; or changes nothing.
fn add_texts(
    alloc: Global,
    state: &mut State,
    code: &CodeParts,
    sets: &[Items<u32>],
    at: (u32, Option<usize>),
) -> Result<(), NoMemory>
    ensures ok { OnOk result (state.new.data.out.items ≡ text_before at.1 state.old.data.out.items
        ++ texts_by (task_end_by code.now.node (own_task_words state.old) state.old.talk.heard.items)
        (task_text_by code.now.node (text_behind at.1 state.old.data.out.items) state.old.talk.heard.items) sets.now) }
    ensures marked { OnOk result (state.new ≡ record state.old {
      «data» = record state.old.«data» { out = state.new.data.out };
      talk = record state.old.talk { mode = mode.Meets at.0 None };
    }) }
    ensures err { OnErr result (state.new.data.out.items ≡ state.old.data.out.items) }
    ensures same { OnErr result (state.new ≡ record state.old { «data» = record state.old.«data» { out = state.new.data.out } }) }
{
    let texts = task_texts(alloc, state, code, sets, at.1)?;
    append(&mut state.data.out, at.1, texts.as_slice())?;
    state.talk.mode = Mode::Meets(at.0, None);
    Ok(())
}

fn end_tasks(
    alloc: Global,
    state: &mut State,
    code: &CodeParts,
    sets: &[Items<u32>],
    at: (u32, Option<usize>),
) -> Result<(), NoMemory>
    requires mode { state.old.talk.mode ≡ mode.Meets at.0 at.1 }
    requires next { state.old.place + 1 < 2 ^ 64 }
    requires ends { IsSome (first_trap_by (task_end_by code.now.node (own_task_words state.old) state.old.talk.heard.items) sets.now) }
    ensures node { OnOk result (IfSome (first_trap_by (task_end_by code.now.node (own_task_words state.old) state.old.talk.heard.items) sets.now)
        (λ trap. node_of state.new ≡ gone_from_tasks code.now.node trap
        (texts_by (task_end_by code.now.node (own_task_words state.old) state.old.talk.heard.items)
        (task_text_by code.now.node (text_behind at.1 state.old.data.out.items) state.old.talk.heard.items) sets.now) (node_of state.old))) }
    ensures keeps { Keeps state.old state.new }
    ensures past { OnOk result (IsPast state.new.talk.mode) }
    ensures err { OnErr result ((node_of state.new ≡ node_of state.old) × SameBut state.old state.new) }
    ensures lacks { OnErr result (code.now.node ≡ 0) }
{
    let Some(trap) = tasks_end(state, code, sets) else {
        unreachable!();
    };
    if code.node == 0 {
        add_texts(alloc, state, code, sets, at)?;
    }
    end_with(state, trap);
    Ok(())
}

// ---- all meetings

/// Goes on from this meeting, where all others are heard; or changes nothing where memory lacks.
fn resume_at(
    alloc: Global,
    state: &mut State,
    code: &CodeParts,
    at: (u32, Option<usize>),
) -> Result<(), NoMemory>
    requires valid { IsValid code.now }
    requires state { StateFits code.now state.old }
    requires mode { state.old.talk.mode ≡ mode.Meets at.0 at.1 }
    requires heard { of_all_others code.now (is_heard (standing_in state.old at.0 at.1)) ≡ true }
    requires goes { IsSome (resumed_from code.now (node_of state.old) (standing_in state.old at.0 at.1) (slice_get code.now.meetings at.0)) }
    ensures ok { OnOk result (resumed_from code.now (node_of state.old) (standing_in state.old at.0 at.1) (slice_get code.now.meetings at.0)
        ≡ Some (node_of state.new)) }
    ensures keeps { Keeps state.old state.new }
    ensures past { OnOk result (IsPast state.new.talk.mode) }
    ensures err { OnErr result ((node_of state.new ≡ node_of state.old) × SameBut state.old state.new) }
    ensures lacks { OnErr result ((code.now.node ≡ 0) × IsTasks (slice_get code.now.meetings at.0)) }
{
    let _count = code.instrs.len();
    match code.meetings.get(at.0 as usize) {
        Some(Meeting::Barrier) => go_on(state),
        Some(Meeting::Cast { slots, from }) => end_cast(state, code.node, slots.as_slice(), *from),
        Some(Meeting::Move { kind, .. }) => {
            move_words(state, code, kind);
            go_on(state);
        }
        Some(Meeting::LoopEnd(reduced)) => end_loop(state, code, reduced.as_slice()),
        Some(Meeting::TaskEnd(sets)) => {
            return end_tasks(alloc, state, code, sets.as_slice(), at);
        }
        None => unreachable!(),
    }
    Ok(())
}

/// Goes on from a meeting, where all others are heard; or changes nothing where memory lacks.
pub fn resume(alloc: Global, state: &mut State, code: &CodeParts) -> Result<(), NoMemory>
    requires valid { IsValid code.now }
    requires state { StateFits code.now state.old }
    requires heard { HasHeard code.now (node_of state.old).stage }
    requires goes { IsSome (resumed code.now (node_of state.old)) }
    ensures ok { OnOk result (resumed code.now (node_of state.old) ≡ Some (node_of state.new)) }
    ensures fits { StateFits code.now state.new }
    ensures err { OnErr result (node_of state.new ≡ node_of state.old) }
    ensures lacks { OnErr result (MayLack code.now (node_of state.old)) }
    ensures muted { state.new.data.muted ≡ state.old.data.muted }
{
    match state.talk.mode {
        Mode::Meets(e, mark) => resume_at(alloc, state, code, (e, mark)),
        _ => Ok(()),
    }
}
