// Actions carried out on calls, guards and counts.
ghost use Rattle.std.specs.Prelude.{◌≡◌, ◌≢◌, map, Some};
ghost use Rattle.xmp_steps.specs.Machine.{Goes, Stuck};
ghost use Rattle.xmp_instr.specs.Data.{index_in};
ghost use Rattle.xmp_instr.specs.Effects.{noted_under, trapped};
ghost use Rattle.xmp_code.specs.States.{node_of};
ghost use Rattle.xmp_code.specs.Actions.{controlled};
ghost use Rattle.xmp_code.specs.Acting.{Does, HasRoom, Keeps};
ghost use Rattle.xmp_code.specs.declared.action.Control.TheVariants as control;
ghost use Rattle.xmp_code.specs.declared.state.Mode.TheVariants as mode;

use crate::action::Control;
use crate::state::{Note, State};
use crate::words::word_at;
use xmp_base::Place;
use xmp_instr::{CodeParts, Guard, Stop};
use xmp_num::TrapKind;

/// The value of an index by its slot; 0 where there is none.
fn index_in(words: &[i64], slot: Option<u32>) -> i64
    ensures { result ≡ index_in words.now slot }
{
    match slot {
        Some(slot) => word_at(words, slot as usize),
        None => 0,
    }
}

fn indices_of(words: &[i64], slots: &[Option<u32>; 3]) -> [i64; 3]
    ensures { result ≡ map (index_in words.now) slots.now }
{
    let [first, second, third] = slots;
    [
        index_in(words, *first),
        index_in(words, *second),
        index_in(words, *third),
    ]
}

impl State {
    fn call(&mut self, k: u32)
        requires { HasRoom self.old (controlled (control.Call k) (node_of self.old)) }
        ensures goes { controlled (control.Call k) (node_of self.old) ≡ Goes (node_of self.new) }
        ensures keeps { Keeps self.old self.new }
        ensures talk { self.new.talk ≡ self.old.talk }
    {
        self.frame.calls.push_reserved(self.place);
        self.place = k as usize;
    }

    fn end_call(&mut self)
        requires { HasRoom self.old (controlled control.Return (node_of self.old)) }
        ensures goes { controlled control.Return (node_of self.old) ≡ Goes (node_of self.new) }
        ensures keeps { Keeps self.old self.new }
        ensures talk { self.new.talk ≡ self.old.talk }
    {
        match self.frame.calls.pop() {
            Some(back) => self.place = back + 1,
            None => unreachable!(),
        }
    }

    fn turn(&mut self) -> Option<Stop>
        requires { HasRoom self.old (controlled control.Turn (node_of self.old)) }
        ensures does { Does (controlled control.Turn (node_of self.old)) self.old result self.new }
        ensures talk { self.new.talk ≡ self.old.talk }
    {
        if self.data.steps == 0 {
            return Some(Stop::OutOfSteps);
        }
        self.data.steps -= 1;
        self.place += 1;
        None
    }

    fn count(&mut self)
        requires { HasRoom self.old (controlled control.Count (node_of self.old)) }
        ensures goes { controlled control.Count (node_of self.old) ≡ Goes (node_of self.new) }
        ensures keeps { Keeps self.old self.new }
        ensures talk { self.new.talk ≡ self.old.talk }
    {
        self.data.turns = self.data.turns.saturating_add(1);
        self.place += 1;
    }

    fn guard(&mut self, g: u32)
        requires { HasRoom self.old (controlled (control.Guard g) (node_of self.old)) }
        ensures goes { controlled (control.Guard g) (node_of self.old) ≡ Goes (node_of self.new) }
        ensures keeps { Keeps self.old self.new }
        ensures talk { self.new.talk ≡ self.old.talk }
    {
        self.frame.guard = Some(g);
        self.frame.text_from = Some(self.data.out.len());
        self.place += 1;
    }

    fn unguard(&mut self)
        requires { HasRoom self.old (controlled control.Unguard (node_of self.old)) }
        ensures goes { controlled control.Unguard (node_of self.old) ≡ Goes (node_of self.new) }
        ensures keeps { Keeps self.old self.new }
        ensures talk { self.new.talk ≡ self.old.talk }
    {
        self.frame.guard = None;
        self.place += 1;
    }

    /// What is done to the calls, the guard and the counts.
    pub fn control(&mut self, control: Control) -> Option<Stop>
        requires { HasRoom self.old (controlled control (node_of self.old)) }
        ensures does { Does (controlled control (node_of self.old)) self.old result self.new }
        ensures talk { self.new.talk ≡ self.old.talk }
    {
        match control {
            Control::Turn => return self.turn(),
            Control::Call(k) => self.call(k),
            Control::Return => self.end_call(),
            Control::Count => self.count(),
            Control::Guard(g) => self.guard(g),
            Control::Unguard => self.unguard(),
        }
        None
    }

    fn note(&mut self, guard: &Guard, kind: TrapKind, at: Place)
        requires { self.old.talk.mode ≡ mode.Going }
        ensures goes { noted_under (Some guard.now) kind at (node_of self.old) ≡ Goes (node_of self.new) }
        ensures keeps { Keeps self.old self.new }
        ensures talk { self.new.talk ≡ self.old.talk }
    {
        self.data.noted = Some(Note {
            kind,
            at,
            indices: indices_of(self.data.words.as_slice(), &guard.indices),
        });
        self.place = guard.target as usize;
        self.stack.clear();
        self.frame.calls.clear();
        self.frame.guard = None;
    }

    /// A trap, which ends the run or goes on at the target of the open guard.
    pub fn trap(&mut self, code: &CodeParts, kind: TrapKind, at: Place) -> Option<Stop>
        requires going { self.old.talk.mode ≡ mode.Going }
        requires unstuck { trapped code.now kind at (node_of self.old) ≢ Stuck }
        ensures does { Does (trapped code.now kind at (node_of self.old)) self.old result self.new }
        ensures talk { self.new.talk ≡ self.old.talk }
    {
        match self.frame.guard {
            None => Some(Stop::Trapped(kind, at)),
            Some(g) => match code.guards.get(g as usize) {
                Some(guard) => {
                    self.note(guard, kind, at);
                    None
                }
                None => unreachable!(),
            },
        }
    }
}
