// What each name means at present.
ghost use Rattle.std.specs.Prelude.{◌≡◌, ◌<◌, IfOk, [], length};
ghost use Rattle.xmp_scopes.specs.Table.{visible, IsPlace, Grows, put};

use indexmap::IndexMap;
use std::alloc::Global;
use std::marker::Model;
use xmp_base::NoMemory;

// What a name means, and how many scopes were open where it was declared so.
#[derive(Clone, Copy)]
pub(crate) struct Held<M> {
    pub(crate) depth: usize,
    pub(crate) meaning: M,
}

// The names in the order in which they were first declared, each with its innermost declaration. A name that no open
// scope declares any more keeps its place, with none.
#[derive(Drop)]
pub(crate) struct Current<M> {
    table: IndexMap<Vec<u8>, Option<Held<M>>>,
}

impl<M> Model for Current<M> {
    ghost use Rattle.std.specs.Prelude.{List, map, Option};
    ghost use Rattle.xmp_scopes.specs.declared.current.Held.{Held};
    ghost use Rattle.xmp_scopes.specs.Words.{Name};

    ghost Value = { List (Name × Option (Held M)) };

    ghost view = { λ c. map (λ e. (e.0.items, e.1)) c.table.entries };
}

impl<M: Copy> Current<M> {
    pub(crate) fn new(alloc: Global) -> Current<M>
        ensures { result ≡ [] }
    {
        Current {
            table: IndexMap::new(alloc),
        }
    }

    pub(crate) fn get(&self, name: &[u8]) -> Option<Held<M>>
        ensures { result ≡ visible name.now self.now }
    {
        match self.table.get(name) {
            Some(held) => *held,
            None => None,
        }
    }

    // The place of a name, which gets one where it has none. At `Err` nothing changes.
    pub(crate) fn place(&mut self, alloc: Global, name: &[u8]) -> Result<usize, NoMemory>
        ensures at { IfOk result (λ at. IsPlace name.now self.new at) }
        ensures grows { Grows self.old self.new }
    {
        if let Some(at) = self.table.get_index_of(name) {
            return Ok(at);
        }
        let Ok(key) = Vec::from_slice(alloc, name) else {
            return Err(NoMemory);
        };
        match self.table.insert_full(key, None) {
            Ok((at, _)) => Ok(at),
            Err(_) => Err(NoMemory),
        }
    }

    // Gives the name at a place its innermost declaration.
    pub(crate) fn put(&mut self, at: usize, held: Option<Held<M>>)
        requires { at < length self.old }
        ensures { self.new ≡ put self.old at held }
    {
        self.table[at] = held;
    }
}
