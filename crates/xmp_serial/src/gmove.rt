// Assignments of sections under `gmove`.
ghost use Rattle.std.specs.Prelude.{◌≡◌, ◌∷◌, [], map, replicate};
ghost use Rattle.xmp_meaning.specs.Handlers.{erased};
ghost use Rattle.xmp_meaning.specs.Runs.{Does};
ghost use Rattle.xmp_serial.specs.Lines.{context_at};
ghost use Rattle.xmp_meaning.specs.Expressions.{each};
ghost use Rattle.xmp_meaning.specs.Sections.{aim, cell_at, cells, chosen, fit, lengths, lengths_fit, name_of, numbers, read_all, spread, store_all};
ghost use Rattle.xmp_serial.specs.Ends.{DoesAs, OrNoMemory};
ghost use Rattle.xmp_serial.specs.Moves.{aim_at, aim_of, array_cells, chosen_of, gmove_of};

use crate::assign::value_at;
use crate::callee::Callee;
use crate::declared::extents;
use crate::frame::Frame;
use crate::lists::{push, split};
use crate::sections::{Chosen, check_all, fit, lengths, push_cells};
use crate::state::State;
use sqlite_items::Items;
use std::alloc::Global;
use xmp_base::NoMemory;
use xmp_meaning::{End, Flow, Halt, Location};
use xmp_num::TrapKind;
use xmp_prog::{MoveSide, Name, Part};

/// What a gmove moves: the cells of the target by their row-major numbers, and a cell of the source for each.
#[derive(Drop)]
pub struct Aim {
    pub targets: Items<usize>,
    pub sources: Items<usize>,
}

impl<C: Callee> Frame<'_, C> {
    /// The assignment under a gmove, which reads its whole right side before it writes.
    pub fn gmove(
        &self,
        target: &MoveSide,
        source: &MoveSide,
        state: &mut State,
    ) -> Result<Flow, Halt>
        requires { C.ready self.now.callee.now }
        ensures { Does (gmove_of (context_at self.now.program.now self.now.packed self.now.node self.now.input.now (C.calls self.now.callee.now)) target.now source.now state.old) result state.new }
    {
        let aim = self.aim(target, source, state)?;
        let values = self.read_all(source, aim.sources.as_slice(), state)?;
        self.store_all(target, aim.targets.as_slice(), values.as_slice(), state)
    }

    /// What is meant: all numbers, all checks, and a source for each target.
    fn aim(&self, target: &MoveSide, source: &MoveSide, state: &mut State) -> Result<Aim, Halt>
        requires { C.ready self.now.callee.now }
        ensures { DoesAs aim_of (aim erased (context_at self.now.program.now self.now.packed self.now.node self.now.input.now (C.calls self.now.callee.now)) target.now source.now state.old) result state.new }
    {
        let to = self.numbers(target, state)?;
        let from = self.numbers(source, state)?;
        self.aim_at(target, source, to.as_slice(), from.as_slice(), state)
    }

    /// The same once all numbers are known: the target's dimensions are checked, the source's, and then the lengths.
    fn aim_at(
        &self,
        target: &MoveSide,
        source: &MoveSide,
        to: &[Chosen],
        from: &[Chosen],
        state: &State,
    ) -> Result<Aim, Halt>
        ensures { DoesAs aim_of (aim_at (context_at self.now.program.now self.now.packed self.now.node self.now.input.now (C.calls self.now.callee.now)) target.now source.now (map chosen_of to.now) (map chosen_of from.now) state.now) result state.now }
    {
        let targets = self.cells(target, to, state)?;
        let sources = self.cells(source, from, state)?;
        let sections = self.lengths(from)?;
        self.check_lengths(target, to, sections.as_slice(), state)?;
        let sources = self.spread(sections.as_slice(), targets.len(), sources)?;
        Ok(Aim { targets, sources })
    }

    /// One cell for each target: the source's, or its one for all where it has no section.
    fn spread(
        &self,
        sections: &[i64],
        count: usize,
        cells: Items<usize>,
    ) -> Result<Items<usize>, Halt>
        ensures { OrNoMemory (spread sections.now count cells) result }
    {
        match split(sections) {
            Some(_) => Ok(cells),
            None => match split(cells.as_slice()) {
                Some((n, _)) => repeated(self.alloc, count, *n),
                None => Ok(Items::new(self.alloc)),
            },
        }
    }

    /// The numbers of a dimension, from left to right.
    fn chosen(&self, part: &Part, state: &mut State) -> Result<Chosen, Halt>
        requires { C.ready self.now.callee.now }
        ensures { DoesAs chosen_of (chosen erased (context_at self.now.program.now self.now.packed self.now.node self.now.input.now (C.calls self.now.callee.now)) part.now state.old) result state.new }
    {
        match part {
            Part::One(n) => {
                let v = self.eval(&n.value, state)?;
                Ok(Chosen::One(v))
            }
            Part::Many { base, length, step } => {
                let base = self.eval(&base.value, state)?;
                let length = self.eval(&length.value, state)?;
                let step = self.eval(&step.value, state)?;
                Ok(Chosen::Many { base, length, step })
            }
        }
    }

    /// The numbers of all dimensions of a side; a scalar has none.
    pub fn numbers(&self, side: &MoveSide, state: &mut State) -> Result<Items<Chosen>, Halt>
        requires { C.ready self.now.callee.now }
        ensures { DoesAs (map chosen_of) (numbers erased (context_at self.now.program.now self.now.packed self.now.node self.now.input.now (C.calls self.now.callee.now)) side.now state.old) result state.new }
    {
        match side {
            MoveSide::Scalar(_) => Ok(Items::new(self.alloc)),
            MoveSide::Array(_, parts) => self.all_chosen(parts.as_slice(), state),
        }
    }

    fn all_chosen(&self, parts: &[Part], state: &mut State) -> Result<Items<Chosen>, Halt>
        requires { C.ready self.now.callee.now }
        ensures { DoesAs (map chosen_of) (each (map (chosen erased (context_at self.now.program.now self.now.packed self.now.node self.now.input.now (C.calls self.now.callee.now))) parts.now) [] state.old) result state.new }
    {
        let mut all = Items::new(self.alloc);
        'parts: for part in parts {
            let c = self.chosen(part, state)?;
            push(&mut all, c)?;
        }
        Ok(all)
    }

    /// The cells of a side by their numbers, once its dimensions are checked.
    fn cells(&self, side: &MoveSide, cs: &[Chosen], state: &State) -> Result<Items<usize>, Halt>
        ensures { Does (cells (context_at self.now.program.now self.now.packed self.now.node self.now.input.now (C.calls self.now.callee.now)) side.now (map chosen_of cs.now) state.now) result state.now }
    {
        match side {
            MoveSide::Scalar(_) => self.one_cell(),
            MoveSide::Array(name, _) => self.array_cells(*name, cs, state),
        }
    }

    fn one_cell(&self) -> Result<Items<usize>, Halt>
        ensures { OrNoMemory (0 ∷ []) result }
    {
        let mut all = Items::new(self.alloc);
        match all.push(0) {
            Ok(()) => Ok(all),
            Err(_) => Err(Halt::NoMemory),
        }
    }

    fn array_cells(&self, name: Name, cs: &[Chosen], state: &State) -> Result<Items<usize>, Halt>
        ensures { Does (array_cells (context_at self.now.program.now self.now.packed self.now.node self.now.input.now (C.calls self.now.callee.now)) name (map chosen_of cs.now) state.now) result state.now }
    {
        let extents = extents(self.program, name.number);
        check_all(name.at, extents, cs)?;
        let mut all = Items::new(self.alloc);
        match push_cells(0, extents, cs, &mut all) {
            Ok(()) => Ok(all),
            Err(NoMemory) => Err(Halt::NoMemory),
        }
    }

    /// The lengths of a side's sections.
    fn lengths(&self, cs: &[Chosen]) -> Result<Items<i64>, Halt>
        ensures { OrNoMemory (lengths (map chosen_of cs.now)) result }
    {
        match lengths(self.alloc, cs) {
            Ok(all) => Ok(all),
            Err(NoMemory) => Err(Halt::NoMemory),
        }
    }

    /// Whether the lengths of the target's sections fit those of the source.
    fn check_lengths(
        &self,
        target: &MoveSide,
        to: &[Chosen],
        from: &[i64],
        state: &State,
    ) -> Result<(), Halt>
        ensures { Does (lengths_fit (fit (lengths (map chosen_of to.now)) from.now) (name_of target.now).at state.now) result state.now }
    {
        let to = self.lengths(to)?;
        if fit(to.as_slice(), from) {
            Ok(())
        } else {
            Err(Halt::End(End::Trapped(TrapKind::Section, name_of(target).at)))
        }
    }

    /// The values of the cells of a side.
    fn read_all(
        &self,
        source: &MoveSide,
        cells: &[usize],
        state: &State,
    ) -> Result<Items<i64>, Halt>
        ensures { Does (read_all erased source.now cells.now state.now) result state.now }
    {
        let mut values = Items::new(self.alloc);
        'cells: for n in cells {
            let location = cell_at(source, *n)?;
            push(&mut values, value_at(state, location))?;
        }
        Ok(values)
    }

    /// The values into the cells of a side.
    fn store_all(
        &self,
        target: &MoveSide,
        cells: &[usize],
        mut values: &[i64],
        state: &mut State,
    ) -> Result<Flow, Halt>
        ensures { Does (store_all erased (context_at self.now.program.now self.now.packed self.now.node self.now.input.now (C.calls self.now.callee.now)) target.now cells.now values.entry.now state.old) result state.new }
    {
        'cells: for n in cells {
            match split(values) {
                Some((value, rest)) => {
                    let location = cell_at(target, *n)?;
                    self.store(location, *value, state);
                    values = rest;
                }
                None => return Ok(Flow::Next),
            }
        }
        Ok(Flow::Next)
    }
}

/// So many numbers, all the same.
fn repeated(alloc: Global, count: usize, n: usize) -> Result<Items<usize>, Halt>
    ensures { OrNoMemory (replicate count n) result }
{
    match vec![in alloc; n; count] {
        Ok(all) => Ok(Items::from_vec(all)),
        Err(_) => Err(Halt::NoMemory),
    }
}

/// A cell of a side, or want of memory where 64 bits don't hold its number.
fn cell_at(side: &MoveSide, n: usize) -> Result<Location, Halt>
    ensures { OrNoMemory (cell_at side.now n) result }
{
    match side {
        MoveSide::Scalar(name) => Ok(Location::Scalar(name.number)),
        MoveSide::Array(name, _) => match i64::try_from(n) {
            Ok(n) => Ok(Location::Cell(name.number, n)),
            Err(_) => Err(Halt::NoMemory),
        },
    }
}

fn name_of(side: &MoveSide) -> Name
    ensures { result ≡ name_of side.now }
{
    match side {
        MoveSide::Scalar(name) => *name,
        MoveSide::Array(name, _) => *name,
    }
}
