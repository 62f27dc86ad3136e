// What a node that stands at a meeting says to another, and how many words it awaits, by the meeting.
ghost use Rattle.std.specs.Prelude.{◌≡◌, ◌++◌, ◌==◌, ◌<◌, [], if◌then◌else◌, length, map, slice_get, IfOk};
ghost use Rattle.std.specs.List.{AllByRecursion};
ghost use Rattle.std.specs.Option.{option_map};
ghost use Rattle.xmp_move.specs.Plans.{IsPlanOf};
ghost use Rattle.xmp_move.specs.Stores.{packed};
ghost use Rattle.xmp_instr.specs.Effects.{text_behind};
ghost use Rattle.xmp_instr.specs.Meetings.{filled_slots, said, sent_slots, task_text, task_words, words_due_at};
ghost use Rattle.xmp_instr.specs.Meetings as meetings;
ghost use Rattle.xmp_instr.specs.Serving.{AtMeeting, MayHear, MayTell};
ghost use Rattle.xmp_instr.specs.Valid.{IsValid, MoveFits, SlotFits};
ghost use Rattle.xmp_code.specs.declared.state.Mode.TheVariants as mode;
ghost use Rattle.xmp_code.specs.States.{node_of, note_of};
ghost use Rattle.xmp_code.specs.Fitting.{IsMovingOf, StateFits};
ghost use Rattle.xmp_machine.specs.Resuming.{part_words, standing_in};

use crate::saying::{loop_words, task_text, task_words, told_tasks, words_alone};
use sqlite_items::Items;
use std::alloc::Global;
use xmp_base::{NoMemory, Words};
use xmp_code::{Mode, Moving, State};
use xmp_instr::{CodeParts, Meeting, Reduced};
use xmp_message::Message;
use xmp_move::{MoveKind, pack, pack_slots};

/// The text behind a mark; none without one.
pub fn text_behind(out: &[u8], mark: Option<usize>) -> &[u8]
    ensures { result.now ≡ text_behind mark out.now }
{
    match mark {
        Some(mark) => &out[mark.min(out.len())..],
        None => &[],
    }
}

fn says_cast(
    alloc: Global,
    words: &[i64],
    node: u32,
    slots: &[u32],
    from: u32,
) -> Result<Message, NoMemory>
    requires { AllByRecursion (λ s. s < length words.now) slots.now }
    ensures { IfOk result (λ x. x ≡ meetings.words_alone (if from == node then packed words.now slots.now else [])) }
{
    if from == node {
        let said = pack_slots(alloc, words, slots)?;
        return Ok(words_alone(alloc, said));
    }
    Ok(words_alone(alloc, Words::new(alloc)))
}

fn says_moved(
    alloc: Global,
    words: &[i64],
    code: &CodeParts,
    kind: &MoveKind,
    moving: &Moving,
    to: u32,
) -> Result<Message, NoMemory>
    requires valid { IsValid code.now }
    requires kind { MoveFits code.now kind.now }
    requires words { length words.now ≡ code.now.words }
    requires moving { IsMovingOf kind.now code.now.node words.now moving.now }
    requires to { to < code.now.nodes }
    ensures { IfOk result (λ x. x ≡ meetings.words_alone (packed words.now (sent_slots kind.now moving.now.numbers.items code.now.node to))) }
{
    let said = pack(alloc, &moving.plan, words, to)?;
    Ok(words_alone(alloc, said))
}

fn says_part(alloc: Global, state: &State, reduced: &[Reduced]) -> Result<Message, NoMemory>
    ensures { IfOk result (λ x. x ≡ meetings.words_alone
        (part_words state.now ++ packed state.now.data.words.items (map (λ r. r.slot) reduced.now))) }
{
    let words = state.data.words.as_slice();
    let said = loop_words(alloc, &state.data.noted, words, reduced)?;
    Ok(words_alone(alloc, said))
}

fn says_of_tasks(
    alloc: Global,
    state: &State,
    from: u32,
    to: u32,
    sets: &[Items<u32>],
    mark: Option<usize>,
) -> Result<Message, NoMemory>
    ensures { IfOk result (λ x. x ≡ record {
      words = task_words from to (option_map note_of state.now.data.noted) sets.now;
      text = task_text from to (text_behind mark state.now.data.out.items) sets.now;
    }) }
{
    let words = task_words(alloc, from, to, &state.data.noted, sets)?;
    let own = text_behind(state.data.out.as_slice(), mark);
    let text = task_text(alloc, from, to, own, sets)?;
    Ok(Message { words, text })
}

/// What a node that stands at a meeting says to another.
fn says_at(
    alloc: Global,
    state: &State,
    code: &CodeParts,
    at: (u32, Option<usize>),
    to: u32,
) -> Result<Message, NoMemory>
    requires valid { IsValid code.now }
    requires state { StateFits code.now state.now }
    requires mode { state.now.talk.mode ≡ mode.Meets at.0 at.1 }
    requires to { to < code.now.nodes }
    ensures { IfOk result
        (λ x. x ≡ said code.now (node_of state.now) (standing_in state.now at.0 at.1) (slice_get code.now.meetings at.0) to) }
{
    let words = state.data.words.as_slice();
    match code.meetings.get(at.0 as usize) {
        Some(Meeting::Cast { slots, from }) => {
            says_cast(alloc, words, code.node, slots.as_slice(), *from)
        }
        Some(Meeting::Move { kind, .. }) => match &state.talk.moving {
            Some(moving) => says_moved(alloc, words, code, kind, moving, to),
            None => unreachable!(),
        },
        Some(Meeting::LoopEnd(reduced)) => says_part(alloc, state, reduced.as_slice()),
        Some(Meeting::TaskEnd(sets)) => {
            says_of_tasks(alloc, state, code.node, to, sets.as_slice(), at.1)
        }
        _ => Ok(words_alone(alloc, Words::new(alloc))),
    }
}

/// What a node that stands at a meeting says to another.
pub fn says(alloc: Global, state: &State, code: &CodeParts, to: u32) -> Result<Message, NoMemory>
    requires valid { IsValid code.now }
    requires state { StateFits code.now state.now }
    requires may { AtMeeting (node_of state.now).stage (λ m. MayTell code.now m to) }
    ensures { IfOk result (λ x. AtMeeting (node_of state.now).stage (λ m. x ≡ meetings.says code.now (node_of state.now) m to)) }
{
    match state.talk.mode {
        Mode::Meets(e, mark) => says_at(alloc, state, code, (e, mark), to),
        _ => unreachable!(),
    }
}

// ---- what is awaited

fn due_of_cast(slots: &[u32], caster: u32, from: u32) -> usize
    ensures { result ≡ (if caster == from then length slots.now else 0) }
{
    if caster == from { slots.len() } else { 0 }
}

fn due_of_moved(code: &CodeParts, kind: &MoveKind, moving: &Moving, from: u32) -> usize
    requires valid { IsValid code.now }
    requires kind { MoveFits code.now kind.now }
    requires plan { IsPlanOf kind.now moving.now.numbers.items code.now.node moving.now.plan }
    requires from { from < code.now.nodes }
    ensures { result ≡ length (filled_slots kind.now moving.now.numbers.items code.now.node from) }
{
    let _kind = kind;
    let _count = code.nodes;
    moving.plan.fills(from).len()
}

fn words_due_at(state: &State, code: &CodeParts, at: (u32, Option<usize>), from: u32) -> usize
    requires valid { IsValid code.now }
    requires state { StateFits code.now state.now }
    requires mode { state.now.talk.mode ≡ mode.Meets at.0 at.1 }
    requires from { from < code.now.nodes }
    ensures { result ≡ words_due_at code.now (standing_in state.now at.0 at.1) (slice_get code.now.meetings at.0) from }
{
    match code.meetings.get(at.0 as usize) {
        Some(
            Meeting::Cast {
                slots,
                from: caster,
            },
        ) => due_of_cast(slots.as_slice(), *caster, from),
        Some(Meeting::Move { kind, .. }) => match &state.talk.moving {
            Some(moving) => due_of_moved(code, kind, moving, from),
            None => unreachable!(),
        },
        Some(Meeting::LoopEnd(reduced)) => 3 + reduced.as_slice().len(),
        Some(Meeting::TaskEnd(sets)) => 3 * told_tasks(from, code.node, sets.as_slice()),
        _ => 0,
    }
}

/// How many words the message of another node has.
pub fn words_due(state: &State, code: &CodeParts, from: u32) -> usize
    requires valid { IsValid code.now }
    requires state { StateFits code.now state.now }
    requires may { AtMeeting (node_of state.now).stage (λ m. MayHear code.now m from) }
    ensures { AtMeeting (node_of state.now).stage (λ m. result ≡ meetings.words_due code.now m from) }
{
    match state.talk.mode {
        Mode::Meets(e, mark) => words_due_at(state, code, (e, mark), from),
        _ => unreachable!(),
    }
}
