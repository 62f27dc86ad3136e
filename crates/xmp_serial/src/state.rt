// What a run reads and writes.
ghost use Rattle.std.specs.Prelude.{◌≡◌, [], ◌++◌, ℤ, pos, replicate, unwrap_or, slice_get, slice_set, IfOk};
ghost use Rattle.xmp_meaning.specs.Formats.{printed};
ghost use Rattle.xmp_meaning.specs.Cells.{read_in, row_in, write_in};
ghost use Rattle.xmp_meaning.specs.Runs.{Does, take_step, write};

use crate::rows::{Rows, put};
use sqlite_items::Items;
use std::alloc::Global;
use std::marker::Model;
use std::mem::{replace, swap};
use xmp_base::{Bytes, NoMemory};
use xmp_meaning::{End, Halt};
use xmp_print::print;

/// The scalars by slot, the arrays by number, the output so far, how many bytes of the input are read, and how many steps
/// are left. Contracts see it as a state of the meaning whose further part is empty.
#[derive(Drop)]
pub struct State {
    scalars: Items<i64>,
    arrays: Rows,
    out: Bytes,
    taken: usize,
    steps: u64,
}

impl Model for State {
    ghost use Rattle.xmp_meaning.specs.Runs.{State};

    ghost Value = { State (Unit {0}) };

    ghost view = { λ s. record { scalars = s.scalars; arrays = s.arrays; out = s.out; taken = s.taken; steps = s.steps; extra = tt } };
}

impl State {
    /// A state with nothing printed or read.
    pub(crate) fn new(scalars: Items<i64>, arrays: Rows, out: Bytes, steps: u64) -> State
        ensures { result ≡ record { scalars = scalars; arrays = arrays; out = out; taken = 0; steps = steps; extra = tt } }
    {
        State {
            scalars,
            arrays,
            out,
            taken: 0,
            steps,
        }
    }

    /// A scalar, or 0 where there is none.
    pub fn scalar(&self, slot: u32) -> i64
        ensures { result ≡ unwrap_or (slice_get self.now.scalars slot) (pos 0) }
    {
        match self.scalars.get(slot as usize) {
            Some(value) => *value,
            None => 0,
        }
    }

    /// Writes a scalar, where there is one.
    pub fn set_scalar(&mut self, slot: u32, value: i64)
        ensures { self.new ≡ record self.old { scalars = slice_set self.old.scalars slot value } }
    {
        put(&mut self.scalars, slot as usize, value);
    }

    /// A cell of an array, or 0 where there is none.
    pub fn cell(&self, array: u32, at: i64) -> i64
        ensures { result ≡ read_in self.now.arrays array at }
    {
        match usize::try_from(at) {
            Ok(at) => self.arrays.cell(array as usize, at),
            Err(_) => 0,
        }
    }

    /// Writes a cell of an array, where there is one.
    pub fn set_cell(&mut self, array: u32, at: i64, value: i64)
        ensures { self.new ≡ record self.old { arrays = write_in self.old.arrays array at value } }
    {
        if let Ok(at) = usize::try_from(at) {
            self.arrays.set_cell(array as usize, at, value);
        }
    }

    /// Appends what `printf` writes for a format and values.
    pub(crate) fn print(&mut self, alloc: Global, format: &[u8], values: &[i64]) -> Result<(), Halt>
        ensures { Does (write (printed format.now values.now) self.old) result self.new }
    {
        match print(alloc, &mut self.out, format, values) {
            Ok(()) => Ok(()),
            Err(NoMemory) => Err(Halt::NoMemory),
        }
    }

    /// How many bytes of the input are read.
    pub fn taken(&self) -> usize
        ensures { result ≡ self.now.taken }
    {
        self.taken
    }

    /// Sets how many bytes of the input are read.
    pub fn set_taken(&mut self, taken: usize)
        ensures { self.new ≡ record self.old { taken = taken } }
    {
        self.taken = taken;
    }

    /// How many steps are left.
    pub fn steps(&self) -> u64
        ensures { result ≡ self.now.steps }
    {
        self.steps
    }

    /// Sets how many steps are left.
    pub fn set_steps(&mut self, steps: u64)
        ensures { self.new ≡ record self.old { steps = steps } }
    {
        self.steps = steps;
    }

    /// Takes one step, where one is left.
    pub fn take_step(&mut self) -> Result<(), Halt>
        ensures { Does (take_step self.old) result self.new }
    {
        if self.steps == 0 {
            return Err(Halt::End(End::OutOfSteps));
        }
        self.steps -= 1;
        Ok(())
    }

    /// The scalars by slot.
    pub fn scalars(&self) -> &[i64]
        ensures { result.now ≡ self.now.scalars }
    {
        self.scalars.as_slice()
    }

    /// An array's row; there is none outside.
    pub fn row(&self, array: u32) -> &[i64]
        ensures { result.now ≡ row_in self.now.arrays array }
    {
        self.arrays.row(array as usize)
    }

    /// Exchanges the scalars for others.
    pub fn swap_scalars(&mut self, others: &mut Items<i64>)
        ensures state { self.new ≡ record self.old { scalars = others.old } }
        ensures others { others.new ≡ self.old.scalars }
    {
        swap(&mut self.scalars, others);
    }

    /// Exchanges an array's row for another; where there is no such array, nothing changes.
    pub fn swap_row(&mut self, array: u32, other: &mut Items<i64>)
        ensures state { self.new ≡ record self.old { arrays = slice_set self.old.arrays array other.old } }
        ensures other { other.new ≡ unwrap_or (slice_get self.old.arrays array) other.old }
    {
        self.arrays.swap_row(array as usize, other);
    }

    /// Takes the output, and leaves none.
    pub fn take_output(&mut self, alloc: Global) -> Bytes
        ensures state { self.new ≡ record self.old { out = [] } }
        ensures output { result ≡ self.old.out }
    {
        replace(&mut self.out, Bytes::new(alloc))
    }

    /// Puts text behind the output.
    pub fn write(&mut self, text: &[u8]) -> Result<(), Halt>
        ensures { Does (write text.now self.old) result self.new }
    {
        match self.out.push_all(text) {
            Ok(()) => Ok(()),
            Err(NoMemory) => Err(Halt::NoMemory),
        }
    }

    /// The output and the arrays.
    pub(crate) fn into_parts(self) -> (Bytes, Rows)
        ensures { (result.0 ≡ self.out) × (result.1 ≡ self.arrays) }
    {
        (self.out, self.arrays)
    }
}
