// Meetings at which a node comes to stand.
ghost use Rattle.std.specs.Prelude.{◌≡◌, ◌≢◌, ◌<◌, false, length, replicate, slice_get, Some, None, OnErr, IfOk, IfErr};
ghost use Rattle.xmp_steps.specs.Machine.{Stuck};
ghost use Rattle.xmp_move.specs.Kinds.{numbers_of};
ghost use Rattle.xmp_move.specs.Faults.{move_fault};
ghost use Rattle.xmp_instr.specs.declared.meeting.Meeting.TheVariants as meeting;
ghost use Rattle.xmp_instr.specs.Depths.{meeting_needs};
ghost use Rattle.xmp_instr.specs.Effects.{meets};
ghost use Rattle.xmp_instr.specs.Valid.{IsValid, MoveFits};
ghost use Rattle.xmp_code.specs.declared.state.Mode.TheVariants as mode;
ghost use Rattle.xmp_code.specs.States.{node_of};
ghost use Rattle.xmp_code.specs.Acting.{Does, TrapsAs};
ghost use Rattle.xmp_code.specs.Actions.{IsMove};
ghost use Rattle.xmp_code.specs.Fitting.{IsMovingOf, MovingFits};

use crate::state::{Mode, Moving, State};
use std::alloc::Global;
use xmp_base::NoMemory;
use xmp_instr::{CodeParts, Meeting, Stop};
use xmp_message::Message;
use xmp_move::{MoveError, MoveKind, pack, plan_of};

fn none_told(told: &mut Vec<bool>)
    ensures { told.new.items ≡ replicate (length told.old.items) false }
{
    let count = told.len();
    'nodes: for k in 0..count {
        told[k] = false;
    }
}

fn none_heard(heard: &mut Vec<Option<Message>>)
    ensures { heard.new.items ≡ replicate (length heard.old.items) None }
{
    let count = heard.len();
    'nodes: for k in 0..count {
        heard[k] = None;
    }
}

/// The transfer of a meeting, with its plan; or why it traps.
fn moving(
    alloc: Global,
    code: &CodeParts,
    kind: &MoveKind,
    words: &[i64],
    values: &[i64],
) -> Result<Moving, MoveError>
    requires valid { IsValid code.now }
    requires kind { MoveFits code.now kind.now }
    requires words { length words.now ≡ code.now.words }
    requires count { length values.now ≡ numbers_of kind.now }
    ensures numbers { IfOk result (λ m. m.numbers.items ≡ values.now) }
    ensures moving { IfOk result (λ m. IsMovingOf kind.now code.now.node words.now m) }
    ensures good { IfOk result (λ m. move_fault kind.now values.now ≡ None) }
    ensures trap { IfErr result (λ e. TrapsAs (move_fault kind.now values.now) e) }
{
    let Ok(numbers) = Vec::from_slice(alloc, values) else {
        return Err(MoveError::NoMemory);
    };
    let plan = match plan_of(alloc, kind, numbers.as_slice(), code.node) {
        Ok(plan) => plan,
        Err(error) => return Err(error),
    };
    match pack(alloc, &plan, words, code.node) {
        Ok(own) => Ok(Moving { numbers, plan, own }),
        Err(NoMemory) => Err(MoveError::NoMemory),
    }
}

impl State {
    /// Stands at a meeting, with the text of the node's task behind a mark, and with a transfer.
    fn stand(&mut self, e: u32, mark: Option<usize>, moving: Option<Moving>)
        ensures { (self.new.place ≡ self.old.place) × (self.new.stack ≡ self.old.stack) × (self.new.data ≡ self.old.data)
            × (self.new.sent ≡ self.old.sent) × (self.new.frame ≡ record self.old.frame { text_from = None })
            × (self.new.talk.mode ≡ mode.Meets e mark) × (self.new.talk.moving ≡ moving)
            × (self.new.talk.told.items ≡ replicate (length self.old.talk.told.items) false)
            × (self.new.talk.heard.items ≡ replicate (length self.old.talk.heard.items) None) }
    {
        none_told(&mut self.talk.told);
        none_heard(&mut self.talk.heard);
        self.talk.mode = Mode::Meets(e, mark);
        self.talk.moving = moving;
        self.frame.text_from = None;
    }

    fn meet_moving(
        &mut self,
        alloc: Global,
        code: &CodeParts,
        e: u32,
        n: usize,
    ) -> Result<Option<Stop>, NoMemory>
        requires valid { IsValid code.now }
        requires going { self.old.talk.mode ≡ mode.Going }
        requires words { length self.old.data.words.items ≡ code.now.words }
        requires told { length self.old.talk.told.items ≡ code.now.nodes }
        requires heard { length self.old.talk.heard.items ≡ code.now.nodes }
        requires count { n ≡ meeting_needs (slice_get code.now.meetings e) }
        requires moves { IsMove (slice_get code.now.meetings e) }
        requires unstuck { meets code.now e (slice_get code.now.meetings e) (node_of self.old) ≢ Stuck }
        ensures ok { IfOk result
            (λ o. Does (meets code.now e (slice_get code.now.meetings e) (node_of self.old)) self.old o self.new) }
        ensures err { OnErr result (self.new ≡ self.old) }
        ensures moving { MovingFits code.now self.new.talk.mode self.new.data.words.items self.new.talk.moving }
    {
        let Some(
            Meeting::Move {
                kind,
                target_at,
                source_at,
            },
        ) = code.meetings.get(e as usize)
        else {
            unreachable!();
        };
        let Some(values) = self.stack.many(n) else {
            unreachable!();
        };
        match moving(alloc, code, kind, self.data.words.as_slice(), values) {
            Ok(moving) => {
                self.stack.take(n);
                self.stand(e, None, Some(moving));
                Ok(None)
            }
            Err(MoveError::Trap { kind, source }) => {
                let at = if source { *source_at } else { *target_at };
                Ok(self.trap(code, kind, at))
            }
            Err(MoveError::NoMemory) => Err(NoMemory),
        }
    }

    /// Stands at a meeting, which takes so many values, unless it traps.
    pub fn meet(
        &mut self,
        alloc: Global,
        code: &CodeParts,
        e: u32,
        n: usize,
    ) -> Result<Option<Stop>, NoMemory>
        requires valid { IsValid code.now }
        requires going { self.old.talk.mode ≡ mode.Going }
        requires words { length self.old.data.words.items ≡ code.now.words }
        requires told { length self.old.talk.told.items ≡ code.now.nodes }
        requires heard { length self.old.talk.heard.items ≡ code.now.nodes }
        requires count { n ≡ meeting_needs (slice_get code.now.meetings e) }
        requires unstuck { meets code.now e (slice_get code.now.meetings e) (node_of self.old) ≢ Stuck }
        ensures ok { IfOk result
            (λ o. Does (meets code.now e (slice_get code.now.meetings e) (node_of self.old)) self.old o self.new) }
        ensures err { OnErr result (self.new ≡ self.old) }
        ensures lacks { OnErr result (IsMove (slice_get code.now.meetings e)) }
        ensures moving { MovingFits code.now self.new.talk.mode self.new.data.words.items self.new.talk.moving }
    {
        match code.meetings.get(e as usize) {
            Some(Meeting::Move { .. }) => self.meet_moving(alloc, code, e, n),
            Some(Meeting::TaskEnd(_)) => {
                let mark = self.frame.text_from;
                self.stand(e, mark, None);
                Ok(None)
            }
            Some(_) => {
                self.stand(e, None, None);
                Ok(None)
            }
            None => unreachable!(),
        }
    }
}
