// The nodes of a run, each with its store.

use crate::counts::Counts;
use std::marker::Model;
use xmp_serial::State;

/// The state of each node; how many turns of loop directives each made; how many words each sent to each other.
#[derive(Drop)]
pub struct Nodes {
    pub stores: Vec<State>,
    pub turns: Vec<u64>,
    pub sent: Vec<Counts>,
}

impl Model for Nodes {
    ghost use Rattle.xmp_nodes.specs.Nodes.{Nodes};

    ghost Value = { Nodes };

    ghost view = { λ w. record { stores = w.stores.items; turns = w.turns.items; sent = w.sent.items } };
}
