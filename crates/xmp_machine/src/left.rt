// What a machine leaves.
ghost use Rattle.std.specs.Prelude.{◌≡◌, slice_index_or};
ghost use Rattle.xmp_code.specs.States.{node_of};
ghost use Rattle.xmp_machine.specs.Machines.{sixteen};

use crate::resuming::{cut, mark_of};
use xmp_base::{Bytes, Words};
use xmp_code::{Data, State};

/// The text that was printed and not sent away, the words of the store, how many turns were counted, and how many words were sent to
/// each node, with 0 behind the last.
#[derive(Drop)]
pub struct Left {
    pub out: Bytes,
    pub store: Words,
    pub turns: u64,
    pub sent: [u64; 16],
}

fn count_at(counts: &[u64], k: usize) -> u64
    ensures { result ≡ slice_index_or counts.now k 0 }
{
    match counts.get(k) {
        Some(count) => *count,
        None => 0,
    }
}

fn sixteen(counts: &[u64]) -> [u64; 16]
    ensures { result ≡ sixteen counts.now }
{
    let mut all = [0u64; 16];
    'nodes: for k in 0..16 {
        all[k] = count_at(counts, k);
    }
    all
}

/// What a state leaves.
pub fn left_of(state: State) -> Left
    ensures out { result.out ≡ (node_of state).state.out }
    ensures store { result.store ≡ (node_of state).state.words }
    ensures turns { result.turns ≡ (node_of state).state.turns }
    ensures sent { result.sent ≡ sixteen (node_of state).sent }
{
    let State {
        data,
        talk,
        sent,
        ..
    } = state;
    let Data {
        words,
        mut out,
        turns,
        ..
    } = data;
    cut(&mut out, mark_of(talk.mode));
    Left {
        out: Bytes::from_vec(out),
        store: Words::from_vec(words),
        turns,
        sent: sixteen(sent.as_slice()),
    }
}
