// The ends of tasks, as their nodes said them.
ghost use Rattle.std.specs.Prelude.{◌≡◌, IfOk, slice_index_or};
ghost use Rattle.xmp_code.specs.Ends.{said_of_each};
ghost use Rattle.xmp_machine.specs.Resuming.{first_trap_by, task_end_by, task_text_by, texts_by, with_first};

use crate::heard::{text_said, words_said};
use crate::saying::is_in;
use sqlite_items::Items;
use std::alloc::Global;
use xmp_base::NoMemory;
use xmp_code::{TrapSaid, task_end_read};
use xmp_message::Message;

/// What a node knows of tasks: its number, how its own task ended and what that printed, and the messages that came.
#[derive(Clone, Copy)]
pub struct Known<'a> {
    pub node: u32,
    pub end: [i64; 3],
    pub text: &'a [u8],
    pub heard: &'a [Option<Message>],
}

/// The least node of a task.
fn first(set: &[u32]) -> u32
    ensures { result ≡ slice_index_or set.now 0 0 }
{
    match set.first() {
        Some(k) => *k,
        None => 0,
    }
}

/// How a task ended; nothing where its words are those of no end.
fn end_of(known: &Known, set: &[u32]) -> Option<Option<TrapSaid>>
    ensures { said_of_each result ≡ task_end_by known.now.node known.now.end known.now.heard.now set.now }
{
    if is_in(set, known.node) {
        task_end_read(&known.end)
    } else {
        task_end_read(words_said(known.heard, first(set)))
    }
}

/// What a task printed.
fn text_of<'a>(known: &Known<'a>, set: &[u32]) -> &'a [u8]
    ensures { result.now ≡ task_text_by known.now.node known.now.text.now known.now.heard.now set.now }
{
    if is_in(set, known.node) {
        known.text
    } else {
        text_said(known.heard, first(set))
    }
}

fn with_first(
    end: Option<Option<TrapSaid>>,
    found: Option<Option<TrapSaid>>,
) -> Option<Option<TrapSaid>>
    ensures { said_of_each result ≡ with_first (said_of_each end) (said_of_each found) }
{
    match (end, found) {
        (Some(None), Some(found)) => Some(found),
        (Some(Some(trap)), Some(_)) => Some(Some(trap)),
        _ => None,
    }
}

/// The trap of the first task that trapped; nothing where the words of one are those of no end.
pub fn first_trap(known: &Known, sets: &[Items<u32>]) -> Option<Option<TrapSaid>>
    ensures { said_of_each result ≡ first_trap_by (task_end_by known.now.node known.now.end known.now.heard.now) sets.now }
{
    let mut found = Some(None);
    let mut left = sets.len();
    'tasks: for _set in sets {
        left -= 1;
        found = with_first(end_of(known, sets[left].as_slice()), found);
    }
    found
}

/// The texts of the tasks up to the first that trapped.
pub fn texts_to_trap(alloc: Global, known: &Known, sets: &[Items<u32>]) -> Result<Vec<u8>, NoMemory>
    ensures { IfOk result (λ texts. texts.items ≡ texts_by (task_end_by known.now.node known.now.end known.now.heard.now)
        (task_text_by known.now.node known.now.text.now known.now.heard.now) sets.now) }
{
    let mut texts = Vec::new(alloc);
    'tasks: for set in sets {
        texts.extend_from_slice(text_of(known, set.as_slice()))?;
        match end_of(known, set.as_slice()) {
            Some(None) => {}
            _ => return Ok(texts),
        }
    }
    Ok(texts)
}
