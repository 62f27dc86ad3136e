// What a world answers: each cell of a distributed array from the store of its owner.
ghost use Rattle.std.specs.Prelude.{◌≡◌, ◌<◌, ◌+◌, ◌++◌, [], ℕ, IfOk, OnOk, Some, length, slice_get, unwrap_or};
ghost use Rattle.xmp_prog.specs.declared.parts.Array.{Array};
ghost use Rattle.xmp_prog.specs.declared.parts.Home.TheVariants as home;
ghost use Rattle.xmp_prog.specs.declared.parts.Kind.TheVariants.{Global as OneView};
ghost use Rattle.xmp_prog.specs.Fits.{node_count};
ghost use Rattle.xmp_meaning.specs.Declarations.{home_of};
ghost use Rattle.xmp_meaning.specs.Programs.{told, told_of};
ghost use Rattle.xmp_move.specs.Stores.{word_at};
ghost use Rattle.xmp_nodes.specs.Answers.{answer_of, gathered, gathered_row};
ghost use Rattle.xmp_world.specs.Gathering.{IsOneView, all_bases, array_base};

use crate::bases::all_bases;
use crate::ended::End;
use crate::places::{Owner, cell_count, extents, place};
use crate::worlds::World;
use sqlite_items::Items;
use std::alloc::Global;
use xmp_base::{Bytes, NoMemory, Table, Words};
use xmp_map::ArrayMap;
use xmp_meaning::Outcome;
use xmp_nodes::has_axes;
use xmp_prog::{Home, Prog, ProgParts};

/// A word of the store of a node; 0 where there is none.
fn word_in(world: &World, node: u32, at: usize) -> i64
    ensures { result ≡ word_at (unwrap_or (slice_get world.now.stores node) []) at }
{
    if node >= world.nodes() {
        return 0;
    }
    match world.store(node).get(at) {
        Some(word) => *word,
        None => 0,
    }
}

/// A world, and where the arrays of its program begin in the stores of the nodes.
#[derive(Clone, Copy)]
struct Gathering<'a> {
    parts: &'a ProgParts,
    world: &'a World,
    bases: &'a [Items<u32>],
    ghost bases_are: { bases.now ≡ all_bases parts.now },
}

impl Gathering<'_> {
    /// Where an array begins in the store of a node.
    fn base(&self, array: usize, node: u32) -> u32
        requires array { array < length self.now.parts.now.arrays }
        requires node { node < node_count self.now.parts.now }
        ensures { result ≡ array_base self.now.parts.now node array }
    {
        match self.bases.get(node as usize) {
            Some(bases) => match bases.get(array) {
                Some(base) => *base,
                None => unreachable!(),
            },
            None => unreachable!(),
        }
    }

    /// The word of an array in a slot of a node.
    fn word(&self, array: usize, node: u32, slot: u32) -> i64
        requires array { array < length self.now.parts.now.arrays }
        requires node { node < node_count self.now.parts.now }
        ensures { result ≡ word_at (unwrap_or (slice_get self.now.world.now.stores node) []) (array_base self.now.parts.now node array + slot) }
    {
        let at = self.base(array, node) as usize + slot as usize;
        word_in(self.world, node, at)
    }

    /// The cells of a distributed array in row-major order.
    fn row(&self, alloc: Global, array: usize, map: &ArrayMap) -> Result<Words, NoMemory>
        requires view { IsOneView self.now.parts.now }
        requires home { (t : ℕ) × (home_of self.now.parts.now array ≡ home.Spread t map.now) }
        requires array { array < length self.now.parts.now.arrays }
        ensures { IfOk result (λ row. row ≡ gathered_row self.now.parts.now self.now.world.now array) }
    {
        let sizes = extents(map);
        let count = cell_count(&sizes);
        let mut row = Vec::with_capacity(alloc, count as usize)?;
        let mut last = Owner { node: 0, kept: 0 };
        for n in 0..count {
            let at = place(map, &sizes, n, last);
            row.push(self.word(array, at.node, at.kept))?;
            last = Owner {
                node: at.node,
                kept: at.kept + 1,
            };
        }
        Ok(Words::from_vec(row))
    }

    /// Adds the rows of an array that are told.
    fn tell(
        &self,
        alloc: Global,
        array: usize,
        home: &Home,
        all: &mut Table,
    ) -> Result<(), NoMemory>
        requires view { IsOneView self.now.parts.now }
        requires home { home_of self.now.parts.now array ≡ home.now }
        requires array { array < length self.now.parts.now.arrays }
        ensures { OnOk result ((a : Array) → all.new ≡ all.old ++ told_of self.now.parts.now a home.now (gathered_row self.now.parts.now self.now.world.now array)) }
    {
        match home {
            Home::Copy => Ok(()),
            Home::Spread(_, map) => {
                let row = self.row(alloc, array, map)?;
                all.push(row).map_err(|_| NoMemory)
            }
            Home::Image => unreachable!(),
        }
    }

    /// The rows of all arrays that are told.
    fn told(&self, alloc: Global) -> Result<Table, NoMemory>
        requires view { IsOneView self.now.parts.now }
        ensures { IfOk result (λ all. all ≡ told self.now.parts.now self.now.parts.now.arrays (gathered self.now.parts.now self.now.world.now)) }
    {
        let mut all = Table::new(alloc);
        let arrays = self.parts.arrays.as_slice();
        for array in 0..arrays.len() {
            self.tell(alloc, array, &arrays[array].home, &mut all)?;
        }
        Ok(all)
    }
}

/// The rows that are told of a world.
fn gathered(alloc: Global, parts: &ProgParts, world: &World) -> Result<Table, NoMemory>
    requires view { IsOneView parts.now }
    ensures { IfOk result (λ all. all ≡ told parts.now parts.now.arrays (gathered parts.now world.now)) }
{
    let bases = all_bases(alloc, parts)?;
    let gathering = Gathering {
        parts,
        world,
        bases: bases.as_slice(),
    };
    gathering.told(alloc)
}

/// What a world answers: how it ended, what was printed, and the distributed arrays, each cell from the store of its
/// owner.
pub fn answer_of(alloc: Global, p: &Prog, world: &World) -> Result<Outcome, NoMemory>
    requires kind { p.now.kind ≡ OneView }
    ensures { IfOk result (λ outcome. outcome ≡ answer_of p.now world.now) }
{
    let parts = p.parts();
    has_axes(parts);
    let out = Bytes::copy_of(alloc, world.out())?;
    match world.end() {
        End::Ended => {
            let arrays = gathered(alloc, parts, world)?;
            Ok(Outcome::Ended { out, arrays })
        }
        End::Trapped(kind, at) => Ok(Outcome::Trapped { out, kind, at }),
        End::OutOfSteps => Ok(Outcome::OutOfSteps { out }),
    }
}
