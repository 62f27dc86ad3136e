// Which gmoves trap, and words packed and unpacked.

use SidePart::{Many, One};
use sqlite_items::Items;
use std::alloc::{AllocError, Global};
use std::test::Fail;
use xmp_move::{MoveKind, Side, SidePart, move_fault, pack_slots, unpack_slots};
use xmp_num::TrapKind::{Section, Subscript};
use xmp_num::{TrapKind, Ty};
use xmp_prog::Home;

// The extents of a side, and its parts.
type Shape = (&'static [u32], &'static [SidePart]);

// A target, a source, the numbers of both, and the fault: its kind, and whether it is the source's.
type Row = (Shape, Shape, &'static [i64], Option<(TrapKind, bool)>);

// a scalar, `a[10]` with a subscript and with a section, `b[4][6]` with a subscript and a section, a section and a
// subscript, and two sections
const X: Shape = (&[], &[]);

const A1: Shape = (&[10], &[One]);

const AS: Shape = (&[10], &[Many]);

const B1S: Shape = (&[4, 6], &[One, Many]);

const BS1: Shape = (&[4, 6], &[Many, One]);

const BSS: Shape = (&[4, 6], &[Many, Many]);

const LEAST: i64 = i64::MIN;

const MOST: i64 = i64::MAX;

const ROWS: [Row; 32] = [
    // subscripts
    (A1, A1, &[9, 0], None),
    (A1, A1, &[10, 0], Some((Subscript, false))),
    (A1, A1, &[0, -1], Some((Subscript, true))),
    (A1, A1, &[MOST, LEAST], Some((Subscript, false))),
    (X, A1, &[10], Some((Subscript, true))),
    // a section and its last cell
    (AS, AS, &[0, 5, 1, 5, 5, 1], None),
    (AS, AS, &[2, 8, 1, 0, 8, 1], None),
    (AS, AS, &[3, 8, 1, 0, 8, 1], Some((Section, false))),
    (AS, AS, &[0, 8, 1, 3, 8, 1], Some((Section, true))),
    (AS, AS, &[3, 8, 1, 3, 8, 1], Some((Section, false))),
    (AS, AS, &[0, 4, 3, 0, 4, 1], None),
    (AS, AS, &[1, 4, 3, 0, 4, 1], Some((Section, false))),
    // empty sections, and sections of one cell
    (AS, AS, &[-5, 0, 1, 99, 0, 7], None),
    (AS, AS, &[0, 0, 0, 0, 0, 1], Some((Section, false))),
    (AS, AS, &[9, 1, MOST, 0, 1, 1], None),
    (AS, AS, &[10, 1, 1, 0, 1, 1], Some((Section, false))),
    // the greatest and the least numbers
    (AS, AS, &[0, -1, 1, 0, -1, 1], Some((Section, false))),
    (AS, AS, &[LEAST, 1, 1, 0, 1, 1], Some((Section, false))),
    (AS, AS, &[MOST, 2, 1, 0, 2, 1], Some((Section, false))),
    (AS, AS, &[0, MOST, 1, 0, 1, 1], Some((Section, false))),
    (AS, AS, &[0, 2, MOST, 0, 2, 1], Some((Section, false))),
    (AS, AS, &[0, 2, LEAST, 0, 2, 1], Some((Section, false))),
    // lengths, and sources without a section
    (AS, AS, &[1, 7, 1, 0, 6, 1], Some((Section, false))),
    (AS, A1, &[0, 5, 1, 3], None),
    (AS, X, &[0, 5, 1], None),
    (
        BSS,
        BSS,
        &[0, 2, 1, 0, 3, 1, 0, 2, 1, 0, 4, 1],
        Some((Section, false)),
    ),
    (
        BSS,
        BSS,
        &[0, 2, 1, 0, 3, 1, 0, 2, 1, 3, 4, 1],
        Some((Section, true)),
    ),
    // dimensions in their order
    (B1S, B1S, &[1, 0, 3, 1, 4, 0, 3, 1], Some((Subscript, true))),
    (B1S, B1S, &[1, 4, 3, 1, 4, 0, 3, 1], Some((Section, false))),
    (
        B1S,
        B1S,
        &[4, 4, 3, 1, 0, 0, 3, 1],
        Some((Subscript, false)),
    ),
    (BS1, BS1, &[0, 5, 1, 6, 0, 4, 1, 0], Some((Section, false))),
    (
        BS1,
        BS1,
        &[0, 4, 1, 6, 0, 5, 1, 0],
        Some((Subscript, false)),
    ),
];

fn side(alloc: Global, shape: Shape) -> Result<Side, AllocError> {
    let extents = Items::from_slice(alloc, shape.0)?;
    let parts = Items::from_slice(alloc, shape.1)?;
    Ok(Side {
        home: Home::Copy,
        extents,
        base: 0,
        parts,
    })
}

fn fault(alloc: Global, row: &Row) -> Result<Option<(TrapKind, bool)>, AllocError> {
    let target = side(alloc, row.0)?;
    let source = side(alloc, row.1)?;
    let kind = MoveKind::Gmove {
        target,
        source,
        ty: Ty::Int,
    };
    let found = move_fault(&kind, row.2);
    std::mem::drop(kind);
    Ok(found.map(|f| (f.kind, f.source)))
}

// The first row whose fault isn't the one beside it.
fn unlike(alloc: Global) -> Result<Option<usize>, AllocError> {
    for (k, row) in ROWS.iter().enumerate() {
        if fault(alloc, row)? != row.3 {
            return Ok(Some(k));
        }
    }
    Ok(None)
}

#[test]
fn a_gmove_traps_by_its_first_fault(rt: HostRuntime) -> Result<(), Fail> {
    assert_eq!(rt; unlike(rt.alloc())?, None);
    Ok(())
}

#[test]
fn words_come_into_their_slots_in_their_type(rt: HostRuntime) -> Result<(), Fail> {
    let words = pack_slots(rt.alloc(), &[10, 20, 4294967297, 40], &[3, 2])?;
    let mut store = [1, 2, 3];
    unpack_slots(&mut store, &[2, 0], &[40, 4294967297], Ty::Int);
    assert_eq!(rt; words.as_slice(), [40, 4294967297].as_slice());
    assert_eq!(rt; store, [1, 2, 40]);
    Ok(())
}
