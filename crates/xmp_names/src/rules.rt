// The rules of names and mappings, and the notes that the walk takes of what a part of the tree breaks.
ghost use Rattle.std.specs.Prelude.{◌≡◌, IfOk};
ghost use Rattle.xmp_names.specs.Rules.{deeper, greater, joined, no_notes, noted};

use sqlite_items::Items;
use std::alloc::{AllocError, Global};
use xmp_base::Place;

/// The rules of names, N1 to N10, and those of mappings, M1 to M10.
#[derive(Clone, Copy)]
pub enum Rule {
    N1,
    N2,
    N3,
    N4,
    N5,
    N6,
    N7,
    N8,
    N9,
    N10,
    M1,
    M2,
    M3,
    M4,
    M5,
    M6,
    M7,
    M8,
    M9,
    M10,
}

/// A rule that breaks at a place.
#[derive(Clone, Copy)]
pub struct Broken {
    pub rule: Rule,
    pub at: Place,
}

/// What is noted of an expression beside its form: the greatest call depth of the functions that it calls, 0 where it
/// calls none, and the rules that it breaks.
#[derive(Drop)]
pub struct Notes {
    pub deepest: u32,
    pub broken: Items<Broken>,
}

/// The greater of two call depths.
pub(crate) fn greater(a: u32, b: u32) -> u32
    ensures { result ≡ greater a b }
{
    if a < b { b } else { a }
}

/// The call depth of a function that calls functions of this depth at most. 33 stands for every depth above 32.
pub fn deeper(depth: u32) -> u32
    ensures { result ≡ deeper depth }
{
    if 32 < depth { depth } else { depth + 1 }
}

/// Nothing is noted.
pub fn no_notes(alloc: Global) -> Notes
    ensures { result ≡ no_notes }
{
    Notes {
        deepest: 0,
        broken: Items::new(alloc),
    }
}

/// The first notes and then the others.
pub(crate) fn joined(first: Notes, more: Notes) -> Result<Notes, AllocError>
    ensures { IfOk result (λ n. n ≡ joined first more) }
{
    let Notes {
        deepest,
        mut broken,
    } = first;
    broken.append(more.broken)?;
    Ok(Notes {
        deepest: greater(deepest, more.deepest),
        broken,
    })
}

/// The notes, and that a rule breaks unless the test holds.
pub(crate) fn noted(notes: Notes, test: bool, rule: Rule, at: Place) -> Result<Notes, AllocError>
    ensures { IfOk result (λ n. n ≡ noted notes test rule at) }
{
    let Notes {
        deepest,
        mut broken,
    } = notes;
    if !test {
        broken.push(Broken { rule, at })?;
    }
    Ok(Notes { deepest, broken })
}
