// What a run of all nodes comes to.
ghost use Rattle.std.specs.Prelude.{◌≡◌, ◌<◌, ◌*◌, Some, length, slice_get};
ghost use Rattle.xmp_world.specs.Ends.{early_end};
ghost use Rattle.xmp_world.specs.Counts.{rows_of, sent_to};

use crate::ended::End;
use std::marker::Model;
use xmp_base::{Bytes, Table};

/// How a run of all nodes ended, what node 0 printed, the store of each node, how many turns of loop directives each
/// made, and how many words each sent to each other. Counts stop at the greatest `u64`.
#[derive(Drop)]
pub struct World {
    end: End,
    out: Bytes,
    stores: Table,
    turns: Vec<u64>,
    /// row by row, one for each sender
    sent: Vec<u64>,
}

impl Model for World {
    ghost use Rattle.std.specs.Prelude.{◌≡◌, ◌*◌, length};
    ghost use Rattle.xmp_nodes.specs.Worlds.{World};
    ghost use Rattle.xmp_world.specs.Ends.{early_end};
    ghost use Rattle.xmp_world.specs.Counts.{rows_of};

    ghost Value = { World };

    ghost view = { λ w. record {
      ended = early_end w.end;
      out = w.out;
      stores = w.stores;
      turns = w.turns.items;
      sent = rows_of (length w.stores) (length w.stores) w.sent.items;
    } };

    ghost invariant = { λ w. (length w.turns.items ≡ length w.stores) × (length w.sent.items ≡ length w.stores * length w.stores) };
}

impl World {
    /// The world of these parts. The words that a node sent to each other are in `sent` as a row, a row for each node.
    pub fn of(end: End, out: Bytes, stores: Table, turns: Vec<u64>, sent: Vec<u64>) -> World
        requires turns { length turns.items ≡ length stores }
        requires sent { length sent.items ≡ length stores * length stores }
        ensures { result ≡ record {
          ended = early_end end;
          out = out;
          stores = stores;
          turns = turns.items;
          sent = rows_of (length stores) (length stores) sent.items;
        } }
    {
        World {
            end,
            out,
            stores,
            turns,
            sent,
        }
    }

    /// How the run ended.
    pub fn end(&self) -> End
        ensures { early_end result ≡ self.now.ended }
    {
        self.end
    }

    /// What node 0 printed.
    pub fn out(&self) -> &[u8]
        ensures { result.now ≡ self.now.out }
    {
        self.out.as_slice()
    }

    /// How many nodes there are.
    pub fn nodes(&self) -> u32
        ensures { result ≡ length self.now.stores }
    {
        self.turns.len() as u32
    }

    /// The store of a node.
    pub fn store(&self, node: u32) -> &[i64]
        requires { node < length self.now.stores }
        ensures { slice_get self.now.stores node ≡ Some result.now }
    {
        match self.stores.row(node as usize) {
            Some(store) => store,
            None => unreachable!(),
        }
    }

    /// How many turns of loop directives a node made.
    pub fn turns(&self, node: u32) -> u64
        requires { node < length self.now.stores }
        ensures { slice_get self.now.turns node ≡ Some result }
    {
        self.turns[node as usize]
    }

    /// How many words a node sent to another.
    pub fn sent(&self, from: u32, to: u32) -> u64
        requires from { from < length self.now.stores }
        requires to { to < length self.now.stores }
        ensures { sent_to self.now from to ≡ Some result }
    {
        self.sent[from as usize * self.turns.len() + to as usize]
    }
}
