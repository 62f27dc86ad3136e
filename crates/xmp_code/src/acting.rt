// Actions carried out on values and words.
ghost use Rattle.std.specs.Prelude.{◌≡◌, ◌+◌, ◌-◌, ◌<◌, ◌≤◌, ◌^◌, ◌∷◌, length, drop, true};
ghost use Rattle.xmp_steps.specs.Machine.{Goes};
ghost use Rattle.xmp_num.specs.Decimal.{scan_of};
ghost use Rattle.xmp_instr.specs.Effects.{on};
ghost use Rattle.xmp_instr.specs.Data.{with_word, read_into};
ghost use Rattle.xmp_code.specs.States.{node_of};
ghost use Rattle.xmp_code.specs.Actions.{ActionFits, acted, is_change};
ghost use Rattle.xmp_code.specs.Acting.{HasRoom, Keeps};
ghost use Rattle.xmp_code.specs.declared.state.Mode.TheVariants as mode;

use crate::action::Action;
use crate::state::State;
use xmp_instr::CodeParts;
use xmp_num::{Ty, scan};

/// What is read at a place of the input; behind its end there is nothing.
fn scan_at(input: &[u8], at: usize, ty: Ty) -> (Option<i64>, usize)
    ensures { result ≡ scan_of ty input.now at }
{
    if at <= input.len() {
        return scan(input, at, ty);
    }
    (None, at)
}

impl State {
    /// Goes on with so many values less.
    pub fn take(&mut self, n: usize)
        requires values { n ≤ length self.old.stack.values }
        requires next { self.old.place + 1 < 2 ^ 64 }
        ensures { self.new ≡ record self.old {
          place = self.old.place + 1;
          stack = record self.old.stack { values = drop n self.old.stack.values };
        } }
    {
        self.stack.take(n);
        self.place += 1;
    }

    /// Goes on with so many values less and another one.
    pub fn put(&mut self, n: usize, v: i64)
        requires values { n ≤ length self.old.stack.values }
        requires room { length (drop n self.old.stack.values) < self.old.stack.room }
        requires next { self.old.place + 1 < 2 ^ 64 }
        ensures { self.new ≡ record self.old {
          place = self.old.place + 1;
          stack = record self.old.stack { values = v ∷ drop n self.old.stack.values };
        } }
    {
        self.stack.take(n);
        self.stack.push(v);
        self.place += 1;
    }

    /// Goes on with so many values less and another word.
    pub fn write(&mut self, n: usize, slot: usize, v: i64)
        requires going { self.old.talk.mode ≡ mode.Going }
        requires values { n ≤ length self.old.stack.values }
        requires slot { slot < length self.old.data.words.items }
        requires next { self.old.place + 1 < 2 ^ 64 }
        ensures goes { on (node_of self.old) (drop n self.old.stack.values) (with_word slot v (node_of self.old).state)
            ≡ Goes (node_of self.new) }
        ensures keeps { Keeps self.old self.new }
        ensures talk { self.new.talk ≡ self.old.talk }
    {
        self.data.words[slot] = v;
        self.stack.take(n);
        self.place += 1;
    }

    /// Goes on with a number that is read into a slot.
    pub fn read(&mut self, input: &[u8], ty: Ty, slot: usize)
        requires going { self.old.talk.mode ≡ mode.Going }
        requires values { 1 ≤ length self.old.stack.values }
        requires slot { slot < length self.old.data.words.items }
        requires next { self.old.place + 1 < 2 ^ 64 }
        ensures goes { on (node_of self.old) (drop 1 self.old.stack.values)
            (read_into ty input.now slot (node_of self.old).state) ≡ Goes (node_of self.new) }
        ensures keeps { Keeps self.old self.new }
        ensures talk { self.new.talk ≡ self.old.talk }
    {
        let (value, taken) = scan_at(input, self.data.taken, ty);
        self.data.taken = taken;
        if let Some(v) = value {
            self.data.words[slot] = v;
        }
        self.stack.take(1);
        self.place += 1;
    }

    /// Carries out an action on values and words alone.
    pub fn change(&mut self, code: &CodeParts, input: &[u8], action: Action)
        requires group { is_change action ≡ true }
        requires fits { ActionFits code.now (node_of self.old) action }
        requires room { HasRoom self.old (acted code.now input.now action (node_of self.old)) }
        ensures goes { acted code.now input.now action (node_of self.old) ≡ Goes (node_of self.new) }
        ensures keeps { Keeps self.old self.new }
        ensures talk { self.new.talk ≡ self.old.talk }
    {
        let _calls = code.calls;
        match action {
            Action::Value(n, v) => self.put(n, v),
            Action::Take(n) => self.take(n),
            Action::Write(n, slot, v) => self.write(n, slot, v),
            Action::Go(n, k) => {
                self.stack.take(n);
                self.place = k;
            }
            Action::Read(ty, slot) => self.read(input, ty, slot),
            _ => unreachable!(),
        }
    }
}
