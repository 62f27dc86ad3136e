// Transfers of each kind, one by one.
use crate::codes::Moves::{Between, Reflect, Within};
use crate::runs::{Row, wrong_node};
use crate::shapes::Form::{
    Alone, Blocks, ByThree, ByTwo, Columns, Copied, Cube, Cyclic, Gblock, Mixed, Shifted, Square,
};
use crate::shapes::Shape;
use SidePart::{Many, One};
use std::alloc::Global;
use std::test::Fail;
use xmp_move::SidePart;
use xmp_num::Ty::{Int, Long};

const X: Shape = Shape(Copied, &[], &[]);

// corners of shadows too
const REFLECTS: [Row; 8] = [
    Row {
        moves: Reflect(Shape(Blocks, &[10], &[])),
        args: &[],
        ty: Int,
    },
    Row {
        moves: Reflect(Shape(Gblock, &[10], &[])),
        args: &[],
        ty: Int,
    },
    Row {
        moves: Reflect(Shape(Shifted, &[8], &[])),
        args: &[],
        ty: Int,
    },
    Row {
        moves: Reflect(Shape(Columns, &[3, 6], &[])),
        args: &[],
        ty: Int,
    },
    Row {
        moves: Reflect(Shape(Square, &[4, 4], &[])),
        args: &[],
        ty: Int,
    },
    Row {
        moves: Reflect(Shape(Mixed, &[5, 6], &[])),
        args: &[],
        ty: Int,
    },
    Row {
        moves: Reflect(Shape(Cube, &[3, 4, 3], &[])),
        args: &[],
        ty: Int,
    },
    Row {
        moves: Reflect(Shape(Alone, &[10], &[])),
        args: &[],
        ty: Int,
    },
];

// sections that overlap both ways, steps, and nothing at all
const WITHIN: [Row; 14] = [
    Row {
        moves: Within(Shape(Blocks, &[10], &[Many]), &[Many]),
        args: &[1, 9, 1, 0, 9, 1],
        ty: Int,
    },
    Row {
        moves: Within(Shape(Blocks, &[10], &[Many]), &[Many]),
        args: &[0, 9, 1, 1, 9, 1],
        ty: Int,
    },
    Row {
        moves: Within(Shape(Cyclic, &[10], &[Many]), &[Many]),
        args: &[1, 9, 1, 0, 9, 1],
        ty: Int,
    },
    Row {
        moves: Within(Shape(Cyclic, &[10], &[Many]), &[Many]),
        args: &[0, 5, 2, 1, 5, 2],
        ty: Int,
    },
    Row {
        moves: Within(Shape(ByTwo, &[10], &[Many]), &[Many]),
        args: &[3, 1, 5, 9, 1, 7],
        ty: Int,
    },
    Row {
        moves: Within(Shape(ByTwo, &[10], &[Many]), &[Many]),
        args: &[2, 4, 2, 0, 4, 3],
        ty: Int,
    },
    Row {
        moves: Within(Shape(Gblock, &[10], &[Many]), &[Many]),
        args: &[4, 6, 1, 0, 6, 1],
        ty: Int,
    },
    Row {
        moves: Within(Shape(Blocks, &[10], &[Many]), &[Many]),
        args: &[-3, 0, 1, 99, 0, 7],
        ty: Int,
    },
    Row {
        moves: Within(Shape(Blocks, &[10], &[Many]), &[One]),
        args: &[2, 7, 1, 9],
        ty: Int,
    },
    Row {
        moves: Within(Shape(Square, &[4, 4], &[Many, One]), &[One, Many]),
        args: &[0, 4, 1, 3, 3, 0, 4, 1],
        ty: Int,
    },
    Row {
        moves: Within(Shape(Square, &[4, 4], &[Many, Many]), &[Many, Many]),
        args: &[0, 3, 1, 0, 2, 2, 1, 3, 1, 1, 2, 2],
        ty: Int,
    },
    Row {
        moves: Within(
            Shape(Cube, &[3, 4, 3], &[Many, Many, One]),
            &[Many, Many, One],
        ),
        args: &[0, 2, 2, 1, 3, 1, 2, 0, 2, 1, 0, 3, 1, 0],
        ty: Int,
    },
    Row {
        moves: Within(Shape(Copied, &[10], &[Many]), &[Many]),
        args: &[0, 5, 2, 1, 5, 1],
        ty: Int,
    },
    Row {
        moves: Within(Shape(Alone, &[10], &[Many]), &[Many]),
        args: &[1, 9, 1, 0, 9, 1],
        ty: Int,
    },
];

const BETWEEN: [Row; 7] = [
    Row {
        moves: Between(Shape(Cyclic, &[10], &[Many]), Shape(ByTwo, &[10], &[Many])),
        args: &[0, 10, 1, 0, 10, 1],
        ty: Int,
    },
    Row {
        moves: Between(Shape(ByTwo, &[10], &[Many]), Shape(ByThree, &[10], &[Many])),
        args: &[0, 5, 2, 0, 5, 2],
        ty: Long,
    },
    Row {
        moves: Between(
            Shape(ByThree, &[10], &[Many]),
            Shape(Blocks, &[10], &[Many]),
        ),
        args: &[1, 9, 1, 0, 9, 1],
        ty: Long,
    },
    Row {
        moves: Between(Shape(Blocks, &[10], &[Many]), Shape(Cyclic, &[10], &[Many])),
        args: &[9, 1, 5, 3, 1, 1],
        ty: Long,
    },
    Row {
        moves: Between(Shape(Shifted, &[8], &[Many]), Shape(Gblock, &[10], &[Many])),
        args: &[0, 8, 1, 2, 8, 1],
        ty: Int,
    },
    Row {
        moves: Between(
            Shape(Columns, &[3, 6], &[Many, Many]),
            Shape(Columns, &[3, 6], &[Many, Many]),
        ),
        args: &[0, 3, 1, 0, 6, 1, 0, 3, 1, 0, 6, 1],
        ty: Int,
    },
    Row {
        moves: Between(
            Shape(Mixed, &[5, 6], &[Many, One]),
            Shape(Square, &[4, 4], &[One, Many]),
        ),
        args: &[1, 4, 1, 5, 2, 0, 4, 1],
        ty: Int,
    },
];

// arrays on every node, and scalars
const COPIES: [Row; 9] = [
    Row {
        moves: Between(Shape(Copied, &[10], &[Many]), Shape(Blocks, &[10], &[Many])),
        args: &[0, 10, 1, 0, 10, 1],
        ty: Long,
    },
    Row {
        moves: Between(Shape(Cyclic, &[10], &[Many]), Shape(Copied, &[10], &[Many])),
        args: &[0, 5, 2, 5, 5, 1],
        ty: Int,
    },
    Row {
        moves: Between(
            Shape(Copied, &[2, 5], &[One, Many]),
            Shape(Copied, &[10], &[Many]),
        ),
        args: &[1, 0, 5, 1, 0, 5, 2],
        ty: Int,
    },
    Row {
        moves: Between(X, Shape(Gblock, &[10], &[One])),
        args: &[8],
        ty: Long,
    },
    Row {
        moves: Between(Shape(Gblock, &[10], &[One]), X),
        args: &[3],
        ty: Int,
    },
    Row {
        moves: Between(Shape(ByTwo, &[10], &[Many]), X),
        args: &[1, 3, 3],
        ty: Int,
    },
    Row {
        moves: Between(X, Shape(Copied, &[10], &[One])),
        args: &[9],
        ty: Int,
    },
    Row {
        moves: Between(Shape(Copied, &[10], &[Many]), X),
        args: &[9, 1, 1],
        ty: Long,
    },
    Row {
        moves: Between(X, X),
        args: &[],
        ty: Int,
    },
];

// The first row after which a store is wrong, or that stops.
fn first_wrong(alloc: Global, rows: &[Row]) -> Option<usize> {
    for (k, row) in rows.iter().enumerate() {
        match wrong_node(alloc, row) {
            Ok(None) => {}
            _ => return Some(k),
        }
    }
    None
}

#[test]
fn each_node_has_all_that_it_holds(rt: HostRuntime) -> Result<(), Fail> {
    assert_eq!(rt; first_wrong(rt.alloc(), &REFLECTS), None);
    Ok(())
}

#[test]
fn a_section_is_assigned_one_of_its_array(rt: HostRuntime) -> Result<(), Fail> {
    assert_eq!(rt; first_wrong(rt.alloc(), &WITHIN), None);
    Ok(())
}

#[test]
fn a_section_is_assigned_one_of_another_form(rt: HostRuntime) -> Result<(), Fail> {
    assert_eq!(rt; first_wrong(rt.alloc(), &BETWEEN), None);
    Ok(())
}

#[test]
fn arrays_on_every_node_and_scalars_are_assigned(rt: HostRuntime) -> Result<(), Fail> {
    assert_eq!(rt; first_wrong(rt.alloc(), &COPIES), None);
    Ok(())
}
