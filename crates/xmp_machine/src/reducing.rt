// The ends of parts of a loop directive, as all nodes said them.
ghost use Rattle.std.specs.Prelude.{◌≡◌, ◌≤◌, ◌<◌, ◌==◌, ◌+◌, ◌^◌, if◌then◌else◌, int_lt, map, drop, length, Some};
ghost use Rattle.std.specs.List.{list_any, range_with_len};
ghost use Rattle.std.specs.Option.{option_map};
ghost use Rattle.xmp_meaning.specs.LoopEnds.{comes_before};
ghost use Rattle.std.specs.Ordering.{int_eq};
ghost use Rattle.xmp_instr.specs.Resumed.{all_of, combined_from, earlier_trap, earliest_trap, indices_said};
ghost use Rattle.xmp_code.specs.Ends.{said_of, said_of_each};
ghost use Rattle.xmp_machine.specs.Resuming.{end_by, reduced_words, value_by, with_earlier, with_reduced};

use crate::heard::{put, words_said};
use xmp_code::{TrapSaid, loop_end_read, word_at};
use xmp_instr::Reduced;
use xmp_message::Message;
use xmp_num::combine;

// ---- traps

/// Whether a number is less than another, or the same and the rest comes first.
fn is_before(b: i64, a: i64, rest: bool) -> bool
    ensures { result ≡ (if int_eq b a then rest else int_lt b a) }
{
    if b == a { rest } else { b < a }
}

/// Whether the indices of a trap come before those of another.
fn comes_first(b: TrapSaid, a: TrapSaid) -> bool
    ensures { result ≡ comes_before (indices_said (said_of b)) (indices_said (said_of a)) }
{
    let third = is_before(b.third, a.third, false);
    let second = is_before(b.second, a.second, third);
    is_before(b.first, a.first, second)
}

fn earlier(a: Option<TrapSaid>, b: Option<TrapSaid>) -> Option<TrapSaid>
    ensures { option_map said_of result ≡ earlier_trap (option_map said_of a) (option_map said_of b) }
{
    match (a, b) {
        (None, b) => b,
        (Some(a), None) => Some(a),
        (Some(a), Some(b)) => { if comes_first(b, a) { Some(b) } else { Some(a) } }
    }
}

/// How the part of a node ended; nothing where its words are those of no end.
fn end_by(node: u32, own: &[i64; 3], heard: &[Option<Message>], k: u32) -> Option<Option<TrapSaid>>
    ensures { said_of_each result ≡ end_by node own.now heard.now k }
{
    if k == node {
        return loop_end_read(own);
    }
    let words = words_said(heard, k);
    loop_end_read(&words[..words.len().min(3)])
}

fn with_earlier(
    end: Option<Option<TrapSaid>>,
    found: Option<Option<TrapSaid>>,
) -> Option<Option<TrapSaid>>
    ensures { said_of_each result ≡ with_earlier (said_of_each end) (said_of_each found) }
{
    Some(earlier(end?, found?))
}

/// The trap that comes first of those of all nodes; nothing where the words of one are those of no end.
pub fn earliest(
    nodes: u32,
    node: u32,
    own: &[i64; 3],
    heard: &[Option<Message>],
) -> Option<Option<TrapSaid>>
    ensures { said_of_each result ≡ option_map earliest_trap (all_of (map (end_by node own.now heard.now) (range_with_len 0 nodes))) }
{
    let mut found = Some(None);
    let mut left = nodes;
    'nodes: for _k in 0..nodes {
        left -= 1;
        found = with_earlier(end_by(node, own, heard, left), found);
    }
    found
}

// ---- values

/// The value of a reduction variable at a node.
fn value_by(node: u32, store: &[i64], heard: &[Option<Message>], at: (usize, u32), k: u32) -> i64
    requires { at.0 + 3 < 2 ^ 64 }
    ensures { result ≡ value_by node store.now heard.now at.0 at.1 k }
{
    if k == node {
        word_at(store, at.1 as usize)
    } else {
        word_at(words_said(heard, k), 3 + at.0)
    }
}

/// The values of a variable at all nodes, combined in their order.
fn combined(
    nodes: u32,
    node: u32,
    store: &[i64],
    heard: &[Option<Message>],
    r: &Reduced,
    j: usize,
) -> i64
    requires nodes { 1 ≤ nodes }
    requires number { j + 3 < 2 ^ 64 }
    ensures { result ≡ combined_from r.now (map (value_by node store.now heard.now j r.now.slot) (range_with_len 0 nodes)) }
{
    let mut value = value_by(node, store, heard, (j, r.slot), 0);
    'nodes: for k in 1..nodes {
        value = combine(
            r.op,
            r.ty,
            value,
            value_by(node, store, heard, (j, r.slot), k),
        );
    }
    value
}

fn has_slot(reduced: &[Reduced], slot: u32) -> bool
    ensures { result ≡ list_any (λ r. r.slot == slot) reduced.now }
{
    'variables: for r in reduced {
        if r.slot == slot {
            return true;
        }
    }
    false
}

/// Writes the combined value of a variable, which has a number, unless one of those behind it has its slot.
fn reduce_one(
    nodes: u32,
    node: u32,
    heard: &[Option<Message>],
    r: &Reduced,
    j: usize,
    behind: &[Reduced],
    words: &mut [i64],
)
    requires nodes { 1 ≤ nodes }
    requires number { j + 3 < 2 ^ 64 }
    ensures { words.new ≡ with_reduced nodes node heard.now j (Some r.now) behind.now words.old }
{
    if !has_slot(behind, r.slot) {
        let value = combined(nodes, node, words, heard, r, j);
        put(words, r.slot, value);
    }
}

/// The variables behind one of them.
fn behind(reduced: &[Reduced], j: usize) -> &[Reduced]
    requires { j < length reduced.now }
    ensures { result.now ≡ drop (j + 1) reduced.now }
{
    &reduced[j + 1..]
}

/// Writes the combined values into the variables' slots. The last variable is written first: so a slot that a later one has too is
/// left, and the others still have the node's own value.
pub fn reduce(
    nodes: u32,
    node: u32,
    heard: &[Option<Message>],
    reduced: &[Reduced],
    words: &mut [i64],
)
    requires { 1 ≤ nodes }
    ensures { words.new ≡ reduced_words nodes node heard.now 0 reduced.now words.old }
{
    let mut left = reduced.len();
    'variables: for _r in reduced {
        left -= 1;
        let Some(r) = reduced.get(left) else {
            unreachable!();
        };
        reduce_one(nodes, node, heard, r, left, behind(reduced, left), words);
    }
}
