// A stack of values in a buffer of fixed length.
ghost use Rattle.std.specs.Prelude.{◌≡◌, ◌<◌, ◌≤◌, [], ◌∷◌, length, drop, reverse, take, MatchOption, IfOk};

use std::alloc::Global;
use std::marker::Model;
use xmp_base::NoMemory;

/// A stack of numbers, with room for so many. Contracts see the numbers, the top first, and the room.
#[derive(Drop)]
pub struct Stack {
    buffer: Vec<i64>,
    depth: usize,
}

impl Model for Stack {
    ghost use Rattle.std.specs.Prelude.{◌≤◌, length, reverse, take};
    ghost use Rattle.xmp_code.specs.Stacks.{Stacked};

    ghost Value = { Stacked };

    ghost view = { λ s. record { values = reverse (take s.depth s.buffer.items); room = length s.buffer.items } };

    ghost invariant = { λ s. s.depth ≤ length s.buffer.items };
}

impl Stack {
    /// An empty stack.
    pub fn new(alloc: Global, room: usize) -> Result<Stack, NoMemory>
        ensures { IfOk result (λ s. s ≡ record { values = []; room = room }) }
    {
        let mut buffer = Vec::new(alloc);
        buffer.resize(room, 0)?;
        Ok(Stack { buffer, depth: 0 })
    }

    /// The top value.
    pub fn top(&self) -> Option<i64>
        ensures { MatchOption result (self.now.values ≡ []) (λ v. self.now.values ≡ v ∷ drop 1 self.now.values) }
    {
        if self.depth < 1 {
            return None;
        }
        Some(self.buffer[self.depth - 1])
    }

    /// The two top values, the one that was added first first.
    pub fn two(&self) -> Option<(i64, i64)>
        ensures { MatchOption result (length self.now.values < 2)
            (λ p. self.now.values ≡ p.1 ∷ p.0 ∷ drop 2 self.now.values) }
    {
        if self.depth < 2 {
            return None;
        }
        Some((self.buffer[self.depth - 2], self.buffer[self.depth - 1]))
    }

    /// So many values in the order in which they were added.
    pub fn many(&self, n: usize) -> Option<&[i64]>
        ensures { MatchOption result (length self.now.values < n)
            (λ xs. (n ≤ length self.now.values) × (xs.now ≡ reverse (take n self.now.values))) }
    {
        if self.depth < n {
            return None;
        }
        Some(&self.buffer[self.depth - n..self.depth])
    }

    /// Takes so many values away.
    pub fn take(&mut self, n: usize)
        requires { n ≤ length self.old.values }
        ensures { self.new ≡ record self.old { values = drop n self.old.values } }
    {
        self.depth -= n;
    }

    /// Adds a value.
    pub fn push(&mut self, v: i64)
        requires { length self.old.values < self.old.room }
        ensures { self.new ≡ record self.old { values = v ∷ self.old.values } }
    {
        self.buffer[self.depth] = v;
        self.depth += 1;
    }

    /// Writes another value over the top one.
    pub fn set_top(&mut self, v: i64)
        requires { 1 ≤ length self.old.values }
        ensures { self.new ≡ record self.old { values = v ∷ drop 1 self.old.values } }
    {
        self.buffer[self.depth - 1] = v;
    }

    /// Takes all values away.
    pub fn clear(&mut self)
        ensures { self.new ≡ record self.old { values = [] } }
    {
        self.depth = 0;
    }
}
