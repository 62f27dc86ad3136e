// What a node that stands at a meeting says to another, and how many words it awaits.
ghost use Rattle.std.specs.Prelude.{◌≡◌, ◌++◌, [], if◌then◌else◌, map, IfOk, OnOk};
ghost use Rattle.std.specs.List.{count_by, list_any};
ghost use Rattle.std.specs.Option.{option_map};
ghost use Rattle.xmp_prog.specs.Numbers.{is_in};
ghost use Rattle.xmp_meaning.specs.TrapWords.{end_words};
ghost use Rattle.xmp_move.specs.Stores.{packed};
ghost use Rattle.xmp_instr.specs.Meetings.{ended_by, noted_indices, task_text, task_words, tells};
ghost use Rattle.xmp_instr.specs.Resumed.{words_of};
ghost use Rattle.xmp_code.specs.Ends.{said_of};
ghost use Rattle.xmp_code.specs.States.{note_of};

use sqlite_items::Items;
use std::alloc::Global;
use xmp_base::{Bytes, NoMemory, Words};
use xmp_code::{Note, TrapSaid, end_words, word_at};
use xmp_instr::Reduced;
use xmp_message::Message;

/// How a part ended, by the trap that was noted in it.
pub fn part_end(noted: &Option<Note>) -> Option<TrapSaid>
    ensures { words_of (option_map said_of result)
        ≡ end_words (ended_by (option_map note_of noted.now)) (noted_indices (option_map note_of noted.now)) }
{
    match noted {
        Some(note) => {
            let [first, second, third] = note.indices;
            Some(TrapSaid {
                kind: note.kind,
                at: note.at,
                first,
                second,
                third,
            })
        }
        None => None,
    }
}

/// How a task ended; it has no index.
pub fn task_end(noted: &Option<Note>) -> Option<TrapSaid>
    ensures { words_of (option_map said_of result) ≡ end_words (ended_by (option_map note_of noted.now)) [] }
{
    match noted {
        Some(note) => Some(TrapSaid {
            kind: note.kind,
            at: note.at,
            first: 0,
            second: 0,
            third: 0,
        }),
        None => None,
    }
}

fn push_three(words: &mut Words, three: &[i64; 3]) -> Result<(), NoMemory>
    ensures { OnOk result (words.new ≡ words.old ++ three.now) }
{
    let [first, second, third] = three;
    words.push(*first)?;
    words.push(*second)?;
    words.push(*third)
}

fn push_slots(words: &mut Words, store: &[i64], reduced: &[Reduced]) -> Result<(), NoMemory>
    ensures { OnOk result (words.new ≡ words.old ++ packed store.now (map (λ r. r.slot) reduced.now)) }
{
    'variables: for r in reduced {
        words.push(word_at(store, r.slot as usize))?;
    }
    Ok(())
}

/// The end of a part, and the values of the reduction variables.
pub fn loop_words(
    alloc: Global,
    noted: &Option<Note>,
    store: &[i64],
    reduced: &[Reduced],
) -> Result<Words, NoMemory>
    ensures { IfOk result (λ words. words
        ≡ end_words (ended_by (option_map note_of noted.now)) (noted_indices (option_map note_of noted.now))
        ++ packed store.now (map (λ r. r.slot) reduced.now)) }
{
    let mut words = Words::new(alloc);
    push_three(&mut words, &end_words(part_end(noted)))?;
    push_slots(&mut words, store, reduced)?;
    Ok(words)
}

pub fn is_in(set: &[u32], n: u32) -> bool
    ensures { result ≡ is_in set.now n }
{
    'set: for k in set {
        if *k == n {
            return true;
        }
    }
    false
}

/// Whether a node says how a task ended to another.
pub fn tells(from: u32, to: u32, set: &[u32]) -> bool
    ensures { result ≡ tells from to set.now }
{
    match set.first() {
        Some(k) => *k == from && !is_in(set, to),
        None => false,
    }
}

fn push_told(words: &mut Words, is_told: bool, three: &[i64; 3]) -> Result<(), NoMemory>
    ensures { OnOk result (words.new ≡ words.old ++ (if is_told then three.now else [])) }
{
    if is_told {
        return push_three(words, three);
    }
    Ok(())
}

/// What a node says of all tasks of an exchange.
pub fn task_words(
    alloc: Global,
    from: u32,
    to: u32,
    noted: &Option<Note>,
    sets: &[Items<u32>],
) -> Result<Words, NoMemory>
    ensures { IfOk result (λ words. words ≡ task_words from to (option_map note_of noted.now) sets.now) }
{
    let three = end_words(task_end(noted));
    let mut words = Words::new(alloc);
    'sets: for set in sets {
        push_told(&mut words, tells(from, to, set.as_slice()), &three)?;
    }
    Ok(words)
}

fn tells_any(from: u32, to: u32, sets: &[Items<u32>]) -> bool
    ensures { result ≡ list_any (tells from to) sets.now }
{
    'sets: for set in sets {
        if tells(from, to, set.as_slice()) {
            return true;
        }
    }
    false
}

/// The text of the node's task, which is said to node 0 alone.
pub fn task_text(
    alloc: Global,
    from: u32,
    to: u32,
    text: &[u8],
    sets: &[Items<u32>],
) -> Result<Bytes, NoMemory>
    ensures { IfOk result (λ bytes. bytes ≡ task_text from to text.now sets.now) }
{
    if to == 0 && tells_any(from, to, sets) {
        return Bytes::copy_of(alloc, text);
    }
    Ok(Bytes::new(alloc))
}

/// How many tasks another node tells of.
pub fn told_tasks(from: u32, to: u32, sets: &[Items<u32>]) -> usize
    ensures count { result ≡ count_by (tells from to) sets.now }
{
    let mut count = 0usize;
    'sets: for set in sets {
        if tells(from, to, set.as_slice()) {
            count += 1;
        }
    }
    count
}

// ---- by the meeting

/// A message without text.
pub fn words_alone(alloc: Global, words: Words) -> Message
    ensures { result ≡ record { words = words; text = [] } }
{
    Message {
        words,
        text: Bytes::new(alloc),
    }
}
