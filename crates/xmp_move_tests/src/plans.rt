// What plans send and fill.
use crate::codes::{Moves, code_of, plan_in, target_asks};
use crate::shapes::{Form, Shape, Stop};
use SidePart::Many;
use std::alloc::Global;
use std::test::Fail;
use xmp_move::SidePart;
use xmp_num::Ty;

// 4 x 4 cells over 2 x 2 nodes, with a shadow of one all round
const SQUARE: Moves = Moves::Reflect(Shape(Form::Square, &[4, 4], &[]));

// eight cells over three nodes in blocks
const EIGHT: Moves = Moves::Within(Shape(Form::Eight, &[8], &[Many]), &[Many]);

// A transfer, its numbers, the words of the node's store, the node, a peer, and the slots sent to it and filled from it.
type Row = (
    Moves,
    &'static [i64],
    u32,
    u32,
    u32,
    &'static [u32],
    &'static [u32],
);

const ROWS: [Row; 13] = [
    (SQUARE, &[], 9, 0, 0, &[], &[]),
    (SQUARE, &[], 9, 0, 1, &[1, 4], &[2, 5]),
    (SQUARE, &[], 9, 0, 2, &[3, 4], &[6, 7]),
    (SQUARE, &[], 9, 0, 3, &[4], &[8]),
    (SQUARE, &[], 9, 3, 0, &[4], &[0]),
    (EIGHT, &[1, 7, 1, 0, 7, 1], 3, 0, 0, &[0, 1], &[1, 2]),
    (EIGHT, &[1, 7, 1, 0, 7, 1], 3, 0, 1, &[2], &[]),
    (EIGHT, &[1, 7, 1, 0, 7, 1], 3, 0, 2, &[], &[]),
    (EIGHT, &[1, 7, 1, 0, 7, 1], 3, 1, 0, &[], &[0]),
    (EIGHT, &[1, 7, 1, 0, 7, 1], 3, 1, 1, &[0, 1], &[1, 2]),
    (EIGHT, &[1, 7, 1, 0, 7, 1], 3, 1, 2, &[2], &[]),
    (EIGHT, &[1, 7, 1, 0, 7, 1], 2, 2, 1, &[], &[0]),
    (EIGHT, &[1, 7, 1, 0, 7, 1], 2, 2, 2, &[0], &[1]),
];

fn is_so(alloc: Global, row: &Row) -> Result<bool, Stop> {
    let code = code_of(alloc, &row.0, Ty::Int, row.3, row.2)?;
    let plan = plan_in(alloc, &code, target_asks(&row.0), row.1)?;
    if row.4 < code.nodes() {
        Ok(plan.sends(row.4) == row.5 && plan.fills(row.4) == row.6)
    } else {
        Err(Stop::Code)
    }
}

// The first row that is not so.
fn first_wrong(alloc: Global) -> Option<usize> {
    for (k, row) in ROWS.iter().enumerate() {
        match is_so(alloc, row) {
            Ok(true) => {}
            _ => return Some(k),
        }
    }
    None
}

#[test]
fn plans_are_those_of_the_rows(rt: HostRuntime) -> Result<(), Fail> {
    assert_eq!(rt; first_wrong(rt.alloc()), None);
    Ok(())
}
