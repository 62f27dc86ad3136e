use super::*;
use std::alloc::{AllocError, Global};
use std::test::Fail;
use xmp_base::{Phase, Place};

// A tree, its parts first. The last four make one of the two before, or of the one before.
#[derive(Clone, Copy)]
enum Step {
    // its line, the object and the nodes; the rule is number 1
    Read(u32, u64, u16),
    // its line and the rule's number
    Wrong(u32, u16),
    // the nodes that assign the object; of the four nodes all others are out of date then
    Assigned(u64, u16),
    Nothing,
    Then,
    Or,
    Again,
}

use Step::{Again, Assigned, Nothing, Or, Read, Then, Wrong};

// A tree, and the line and the number of the first rule that breaks in it.
type Row = (&'static [Step], Option<(u32, u16)>);

const ROWS: [Row; 29] = [
    // in order
    (&[Nothing], None),
    (&[Read(1, 0, 15)], None),
    (&[Assigned(0, 1), Read(2, 0, 1), Then], None),
    (&[Assigned(0, 1), Read(2, 0, 9), Then], Some((2, 1))),
    (&[Read(1, 0, 15), Assigned(0, 1), Then], None),
    (&[Assigned(7, 2), Read(2, 6, 15), Then], None),
    (&[Assigned(70000, 2), Read(2, 70000, 8), Then], Some((2, 1))),
    (
        &[Assigned(0, 1), Assigned(0, 15), Then, Read(3, 0, 15), Then],
        None,
    ),
    (
        &[Assigned(0, 3), Assigned(0, 4), Then, Read(3, 0, 2), Then],
        Some((3, 1)),
    ),
    // branches
    (
        &[Assigned(0, 1), Nothing, Or, Read(2, 0, 2), Then],
        Some((2, 1)),
    ),
    (
        &[Nothing, Assigned(0, 1), Or, Read(2, 0, 2), Then],
        Some((2, 1)),
    ),
    (
        &[Assigned(0, 3), Assigned(0, 6), Or, Read(2, 0, 2), Then],
        None,
    ),
    (
        &[Assigned(0, 3), Assigned(0, 6), Or, Read(2, 0, 1), Then],
        Some((2, 1)),
    ),
    (
        &[Assigned(0, 3), Assigned(0, 6), Or, Read(2, 0, 4), Then],
        Some((2, 1)),
    ),
    (
        &[
            Assigned(0, 1),
            Assigned(0, 15),
            Nothing,
            Or,
            Then,
            Read(3, 0, 2),
            Then,
        ],
        Some((3, 1)),
    ),
    (
        &[
            Assigned(0, 1),
            Assigned(0, 15),
            Assigned(0, 15),
            Or,
            Then,
            Read(3, 0, 2),
            Then,
        ],
        None,
    ),
    (&[Assigned(0, 1), Read(1, 0, 2), Or], None),
    (
        &[
            Assigned(0, 1),
            Assigned(1, 1),
            Or,
            Read(2, 0, 1),
            Then,
            Read(3, 1, 8),
            Then,
        ],
        Some((3, 1)),
    ),
    // loops
    (&[Read(1, 0, 15), Assigned(0, 1), Then, Again], Some((1, 1))),
    (
        &[
            Assigned(0, 15),
            Read(2, 0, 15),
            Then,
            Assigned(0, 1),
            Then,
            Again,
        ],
        None,
    ),
    (
        &[
            Assigned(0, 1),
            Assigned(0, 15),
            Again,
            Then,
            Read(3, 0, 2),
            Then,
        ],
        Some((3, 1)),
    ),
    (
        &[
            Assigned(0, 15),
            Assigned(0, 1),
            Again,
            Then,
            Read(3, 0, 2),
            Then,
        ],
        Some((3, 1)),
    ),
    (
        &[
            Read(1, 1, 8),
            Read(2, 0, 2),
            Then,
            Assigned(0, 1),
            Again,
            Then,
            Again,
        ],
        Some((2, 1)),
    ),
    (
        &[
            Read(1, 0, 2),
            Assigned(0, 15),
            Again,
            Then,
            Assigned(0, 1),
            Then,
            Again,
        ],
        Some((1, 1)),
    ),
    (
        &[
            Assigned(0, 1),
            Assigned(0, 15),
            Assigned(0, 1),
            Then,
            Again,
            Then,
            Read(3, 0, 1),
            Then,
        ],
        None,
    ),
    // by the line first, and then by the number
    (&[Wrong(4, 2), Wrong(3, 7), Then], Some((3, 7))),
    (&[Wrong(3, 7), Wrong(3, 5), Or], Some((3, 5))),
    (
        &[Assigned(0, 1), Read(9, 0, 2), Then, Wrong(9, 4), Then],
        Some((9, 1)),
    ),
    (&[Wrong(8, 6), Again], Some((8, 6))),
];

// The last tree so far, or one with nothing in it.
fn popped(alloc: Global, parts: &mut Vec<Flow>) -> Flow {
    match parts.pop() {
        Some(flow) => flow,
        None => Flow::nothing(alloc),
    }
}

fn joined(alloc: Global, step: Step, parts: &mut Vec<Flow>) -> Result<Flow, AllocError> {
    let last = popped(alloc, parts);
    if matches!(step, Again) {
        return Flow::turns(alloc, last);
    }
    let first = popped(alloc, parts);
    if matches!(step, Or) {
        return Flow::either(alloc, first, last);
    }
    Flow::both(alloc, first, last)
}

fn tree_of(alloc: Global, step: Step, parts: &mut Vec<Flow>) -> Result<Flow, AllocError> {
    match step {
        Read(line, object, nodes) => Ok(Flow::one(Event::Read {
            object,
            nodes,
            rule: 1,
            at: Place { line, column: 1 },
        })),
        Wrong(line, rule) => Ok(Flow::one(Event::Wrong {
            rule,
            at: Place { line, column: 1 },
        })),
        Assigned(object, current) => Ok(Flow::one(Event::Mark {
            object,
            current,
            stale: 15 ^ current,
        })),
        Nothing => Ok(Flow::nothing(alloc)),
        Then | Or | Again => joined(alloc, step, parts),
    }
}

fn built(alloc: Global, row: &[Step]) -> Result<Flow, AllocError> {
    let mut parts: Vec<Flow> = Vec::new(alloc);
    for step in row {
        let flow = tree_of(alloc, *step, &mut parts)?;
        parts.push(flow)?;
    }
    Ok(popped(alloc, &mut parts))
}

// The line and the number of the first rule that breaks, and the phase.
fn found(alloc: Global, row: &[Step]) -> Result<Option<(Phase, u32, u16)>, Fail> {
    let flow = built(alloc, row)?;
    let first = check(alloc, &flow, Phase::Flow);
    std::mem::drop(flow);
    match first {
        Ok(Some(r)) => Ok(Some((r.phase, r.at.line, r.rule))),
        Ok(None) => Ok(None),
        Err(_) => Err(Fail::from("want of memory")),
    }
}

// The first row of a table whose first rule isn't the one beside it.
fn unlike(alloc: Global, table: &[Row]) -> Result<Option<usize>, Fail> {
    for (k, (row, first)) in table.iter().enumerate() {
        let wanted = first.map(|(line, rule)| (Phase::Flow, line, rule));
        if found(alloc, row)? != wanted {
            return Ok(Some(k));
        }
    }
    Ok(None)
}

#[test]
fn the_first_rule_that_breaks_on_some_path_is_found(rt: HostRuntime) -> Result<(), Fail> {
    assert_eq!(rt; unlike(rt.alloc(), &ROWS)?, None);
    Ok(())
}
