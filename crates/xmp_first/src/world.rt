// What a run leaves.
ghost use Rattle.std.specs.Prelude.{◌≡◌, ◌<◌, length, Some, slice_get};

use std::marker::Model;
use xmp_base::{Bytes, Table};

/// The nodes after a run: what node 0 printed, and each node's store and count of turns.
#[derive(Drop)]
pub struct FirstWorld {
    pub(crate) out: Bytes,
    pub(crate) stores: Table,
    pub(crate) turns: Vec<u64>,
}

impl Model for FirstWorld {
    ghost use Rattle.std.specs.Prelude.{◌≡◌, ◌≤◌, length};
    ghost use Rattle.xmp_first.specs.World.{World};

    ghost Value = { World };

    ghost view = { λ w. record { out = w.out; stores = w.stores; turns = w.turns.items } };

    ghost invariant = { λ w. (length w.turns.items ≡ length w.stores) × (length w.stores ≤ 16) };
}

impl FirstWorld {
    /// How many nodes there are.
    pub fn nodes(&self) -> u32
        ensures { result ≡ length self.now.stores }
    {
        self.turns.len() as u32
    }

    /// The bytes that node 0 printed.
    pub fn out(&self) -> &[u8]
        ensures { result.now ≡ self.now.out }
    {
        self.out.as_slice()
    }

    /// The words of a node: `i`, `s`, and then the cells.
    pub fn store(&self, node: u32) -> &[i64]
        requires { node < length self.now.stores }
        ensures { slice_get self.now.stores node ≡ Some result.now }
    {
        match self.stores.row(node as usize) {
            Some(store) => store,
            None => unreachable!(),
        }
    }

    /// How many turns of the two loops the node made.
    pub fn turns(&self, node: u32) -> u64
        requires { node < length self.now.stores }
        ensures { slice_get self.now.turns node ≡ Some result }
    {
        self.turns[node as usize]
    }
}
