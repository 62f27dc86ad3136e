// A node one step on.
ghost use Rattle.std.specs.Prelude.{◌≡◌, ◌≢◌, false, slice_get, IfOk, OnErr};
ghost use Rattle.xmp_steps.specs.Machine.{Stuck};
ghost use Rattle.xmp_instr.specs.Depths.{format_needs};
ghost use Rattle.xmp_instr.specs.Effects.{next, printed_by};
ghost use Rattle.xmp_instr.specs.Valid.{IsValid};
ghost use Rattle.xmp_code.specs.declared.state.Mode.TheVariants as mode;
ghost use Rattle.xmp_code.specs.States.{node_of};
ghost use Rattle.xmp_code.specs.Actions.{ActionFits, Wants, acted};
ghost use Rattle.xmp_code.specs.Acting.{Does, HasRoom, Keeps};
ghost use Rattle.xmp_code.specs.Fitting.{MovingFits, StateFits};
ghost use Rattle.xmp_code.specs.Running.{Advances, MayLack};

use crate::action::Action;
use crate::deciding::action_of;
use crate::state::{Mode, State};
use std::alloc::Global;
use xmp_base::NoMemory;
use xmp_instr::{CodeParts, Stop};

impl State {
    fn print_by(
        &mut self,
        alloc: Global,
        code: &CodeParts,
        f: u32,
        n: usize,
    ) -> Result<Option<Stop>, NoMemory>
        requires count { n ≡ format_needs (slice_get code.now.formats f) }
        requires room { HasRoom self.old (printed_by (slice_get code.now.formats f) (node_of self.old)) }
        ensures ok { IfOk result (λ o. Does (printed_by (slice_get code.now.formats f) (node_of self.old)) self.old o self.new) }
        ensures err { OnErr result (node_of self.new ≡ node_of self.old) }
        ensures keeps { Keeps self.old self.new }
        ensures talk { self.new.talk ≡ self.old.talk }
        ensures lacks { OnErr result (self.old.data.muted ≡ false) }
    {
        match code.formats.get(f as usize) {
            Some(format) => match self.print(alloc, format.as_slice(), n) {
                Ok(()) => Ok(None),
                Err(NoMemory) => Err(NoMemory),
            },
            None => unreachable!(),
        }
    }

    /// Carries out an action.
    fn act(
        &mut self,
        alloc: Global,
        code: &CodeParts,
        input: &[u8],
        action: Action,
    ) -> Result<Option<Stop>, NoMemory>
        requires valid { IsValid code.now }
        requires state { StateFits code.now self.old }
        requires fits { ActionFits code.now (node_of self.old) action }
        requires room { HasRoom self.old (acted code.now input.now action (node_of self.old)) }
        ensures ok { IfOk result (λ o. Does (acted code.now input.now action (node_of self.old)) self.old o self.new) }
        ensures err { OnErr result ((node_of self.new ≡ node_of self.old) × Keeps self.old self.new) }
        ensures lacks { OnErr result (Wants code.now (node_of self.old) action) }
        ensures moving { MovingFits code.now self.new.talk.mode self.new.data.words.items self.new.talk.moving }
    {
        match action {
            Action::Value(..)
            | Action::Take(_)
            | Action::Write(..)
            | Action::Go(..)
            | Action::Read(..) => {
                self.change(code, input, action);
                Ok(None)
            }
            Action::Control(control) => Ok(self.control(control)),
            Action::Print(f, n) => self.print_by(alloc, code, f, n),
            Action::Meet(e, n) => self.meet(alloc, code, e, n),
            Action::Trap(kind, at) => Ok(self.trap(code, kind, at)),
            Action::Halt(stop) => Ok(Some(stop)),
            Action::Stuck => unreachable!(),
        }
    }

    /// One instruction on.
    fn step(
        &mut self,
        alloc: Global,
        code: &CodeParts,
        input: &[u8],
    ) -> Result<Option<Stop>, NoMemory>
        requires valid { IsValid code.now }
        requires state { StateFits code.now self.old }
        requires going { self.old.talk.mode ≡ mode.Going }
        requires unstuck { next code.now input.now (node_of self.old) ≢ Stuck }
        ensures ok { IfOk result (λ o. Advances code.now input.now self.old o self.new) }
        ensures fits { StateFits code.now self.new }
        ensures err { OnErr result (node_of self.new ≡ node_of self.old) }
        ensures lacks { OnErr result (MayLack code.now (node_of self.old)) }
        ensures muted { self.new.data.muted ≡ self.old.data.muted }
    {
        let _count = code.instrs.len();
        let Some(instr) = code.instrs.get(self.place) else {
            unreachable!();
        };
        let action = action_of(code, self, *instr);
        self.act(alloc, code, input, action)
    }

    /// One step on, or to a stop; or as it was, where memory lacks.
    pub fn advance(
        &mut self,
        alloc: Global,
        code: &CodeParts,
        input: &[u8],
    ) -> Result<Option<Stop>, NoMemory>
        requires valid { IsValid code.now }
        requires state { StateFits code.now self.old }
        requires unstuck { next code.now input.now (node_of self.old) ≢ Stuck }
        ensures ok { IfOk result (λ o. Advances code.now input.now self.old o self.new) }
        ensures fits { StateFits code.now self.new }
        ensures err { OnErr result (node_of self.new ≡ node_of self.old) }
        ensures lacks { OnErr result (MayLack code.now (node_of self.old)) }
        ensures muted { self.new.data.muted ≡ self.old.data.muted }
    {
        match self.talk.mode {
            Mode::Going => self.step(alloc, code, input),
            Mode::Meets(e, _) => Ok(Some(Stop::Exchange(e))),
            Mode::Over(kind, at) => Ok(Some(Stop::Trapped(kind, at))),
        }
    }
}
