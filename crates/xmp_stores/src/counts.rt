// Turns and words are counted up to the greatest number of 64 bits.
ghost use Rattle.std.specs.Prelude.{◌≡◌, ◌<◌, ◌+◌, ◌^◌, length, replicate, IfOk, ◌==◌, if◌then◌else◌, unwrap_or, slice_get};
ghost use Rattle.xmp_meaning.specs.Messages.{words_sent};
ghost use Rattle.xmp_nodes.specs.Nodes.{raised_by, rows_raised, saying};

use crate::nodes::Nodes;
use std::alloc::Global;
use std::marker::Model;
use xmp_base::NoMemory;

/// A list of counts, which contracts see as a list of numbers.
#[derive(Drop)]
pub struct Counts {
    items: Vec<u64>,
}

impl Model for Counts {
    ghost use Rattle.std.specs.Prelude.{List, ℕ};

    ghost Value = { List ℕ };

    ghost view = { λ w. w.items.items };
}

impl Counts {
    /// So many, each 0.
    pub(crate) fn zeros(alloc: Global, count: usize) -> Result<Counts, NoMemory>
        ensures { IfOk result (λ all. all ≡ replicate count 0) }
    {
        match vec![in alloc; 0u64; count] {
            Ok(items) => Ok(Counts { items }),
            Err(_) => Err(NoMemory),
        }
    }

    /// The counts in order.
    pub fn as_slice(&self) -> &[u64]
        ensures { result.now ≡ self.now }
    {
        self.items.as_slice()
    }

    /// Counts the words that a node sends.
    fn say<S: Saying>(&mut self, all: &S, from: usize)
        ensures { self.new ≡ raised_by (λ to. if from == to then 0 else words_sent (S.said all.now from to)) 0 self.old }
    {
        say_to(all, from, 0, self.items.as_mut_slice());
    }
}

/// What all nodes say at an exchange.
pub trait Saying {
    ghost use Rattle.std.specs.Prelude.{◌≡◌, ℕ};
    ghost use Rattle.xmp_meaning.specs.Messages.{Message, words_sent};
    ghost use Rattle.xmp_nodes.specs.Nodes.{bounded};

    /// What one node says to another.
    ghost said: { Self → (from to : ℕ) → Message };

    /// How many words that is; nobody is asked what it says to itself.
    fn words(&self, from: usize, to: usize) -> u64
        ensures { result ≡ bounded (words_sent (said self.now from to)) };
}

/// Counts the words that all nodes send.
pub fn say<S: Saying>(all: &S, nodes: &mut Nodes)
    ensures { nodes.new ≡ saying (S.said all.now) nodes.old }
{
    say_from(all, 0, nodes.sent.as_mut_slice());
}

/// The words that the nodes from one on send.
fn say_from<S: Saying>(all: &S, from: usize, rows: &mut [Counts])
    requires { from + length rows.old < 2 ^ 64 }
    ensures { rows.new ≡ rows_raised (λ from to. if from == to then 0 else words_sent (S.said all.now from to)) from rows.old }
{
    match rows.split_first_mut() {
        None => {}
        Some((row, rest)) => {
            row.say(all, from);
            say_from(all, from + 1, rest);
        }
    }
}

/// The words that a node sends to the nodes from one on.
fn say_to<S: Saying>(all: &S, from: usize, to: usize, row: &mut [u64])
    requires { to + length row.old < 2 ^ 64 }
    ensures { row.new ≡ raised_by (λ to. if from == to then 0 else words_sent (S.said all.now from to)) to row.old }
{
    match row.split_first_mut() {
        None => {}
        Some((count, rest)) => {
            let words = if from == to { 0 } else { all.words(from, to) };
            *count = count.saturating_add(words);
            say_to(all, from, to + 1, rest);
        }
    }
}

/// Counts turns of a loop directive, so many of each node.
pub fn raise_turns(more: &[u64], nodes: &mut Nodes)
    ensures { nodes.new ≡ record nodes.old { turns = raised_by (λ node. unwrap_or (slice_get more.now node) 0) 0 nodes.old.turns } }
{
    raise_from(more, 0, nodes.turns.as_mut_slice());
}

/// The turns of the nodes from one on.
fn raise_from(more: &[u64], node: usize, turns: &mut [u64])
    requires { node + length turns.old < 2 ^ 64 }
    ensures { turns.new ≡ raised_by (λ node. unwrap_or (slice_get more.now node) 0) node turns.old }
{
    match turns.split_first_mut() {
        None => {}
        Some((count, rest)) => {
            let more_turns = match more.get(node) {
                Some(turns) => *turns,
                None => 0,
            };
            *count = count.saturating_add(more_turns);
            raise_from(more, node + 1, rest);
        }
    }
}
