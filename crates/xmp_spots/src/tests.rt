use super::*;
use sqlite_items::Items;
use std::alloc::{AllocError, Global};
use std::test::Fail;
use xmp_base::Place;

// An access with one spot: its line, whether it writes, the image that touches it (16 for several), the image whose cells
// are meant, and the first subscript (-1 for any). It is of array 1 where its line is above 100.
type Row = (u32, bool, u32, i64, i64);

// Two accesses, and the line at which one of them breaks the rule.
type Case = (Row, Row, Option<u32>);

const CASES: [Case; 13] = [
    // two images, one cell, one writes
    ((2, true, 0, 0, 5), (3, false, 1, 0, 5), Some(2)),
    ((2, false, 0, 0, 5), (3, true, 1, 0, 5), Some(2)),
    ((4, false, 0, 0, 5), (3, true, 1, 0, 5), Some(3)),
    ((2, false, 0, 0, 5), (3, false, 1, 0, 5), None),
    // one image, and several
    ((2, true, 0, 0, 5), (3, true, 0, 0, 5), None),
    ((2, true, 16, 0, 5), (3, true, 0, 0, 5), Some(2)),
    ((2, true, 0, 0, 5), (3, true, 16, 0, 5), Some(2)),
    // another cell, another image's, another array
    ((2, true, 0, 0, 5), (3, true, 1, 0, 6), None),
    ((2, true, 0, 0, 5), (3, true, 1, 1, 5), None),
    ((101, true, 0, 0, 5), (3, true, 1, 0, 5), None),
    // any cell
    ((2, true, 0, 0, -1), (3, true, 1, 0, 4), Some(2)),
    ((2, true, 0, 0, 4), (3, true, 1, 0, -1), Some(2)),
    ((2, true, 0, 0, -1), (3, false, 1, 0, -1), Some(2)),
];

fn spot(row: Row) -> Spot {
    Spot {
        by: if row.2 == 16 {
            By::Several
        } else {
            By::One(row.2)
        },
        on: row.3,
        subscripts: Subscripts {
            first: if row.4 < 0 { None } else { Some(row.4) },
            second: None,
            third: None,
        },
    }
}

fn touch(alloc: Global, row: Row) -> Result<Touch, AllocError> {
    Ok(Touch {
        array: u32::from(row.0 > 100),
        writes: row.1,
        spots: Items::from_slice(alloc, &[spot(row)])?,
        at: Place {
            line: row.0,
            column: 1,
        },
    })
}

// A set of one access, added to an empty one.
fn set_of(alloc: Global, row: Row) -> Result<Accesses, Fail> {
    let mut one = Accesses::new(alloc);
    let mut set = Accesses::new(alloc);
    let touch = touch(alloc, row)?;
    if one.add(alloc, touch).is_err() || set.absorb(alloc, one).is_err() {
        return Err(Fail::from("want of memory"));
    }
    Ok(set)
}

// The line that is found between the sets of the two accesses.
fn line(alloc: Global, case: Case) -> Result<Option<u32>, Fail> {
    let set = set_of(alloc, case.0)?;
    let other = set_of(alloc, case.1)?;
    Ok(set.between(&other).map(|r| r.at.line))
}

// The first case whose line isn't the one beside it.
fn unlike(alloc: Global) -> Result<Option<usize>, Fail> {
    for (k, case) in CASES.iter().enumerate() {
        if line(alloc, *case)? != case.2 {
            return Ok(Some(k));
        }
    }
    Ok(None)
}

#[test]
fn the_first_place_of_a_clash_is_found(rt: HostRuntime) -> Result<(), Fail> {
    assert_eq!(rt; unlike(rt.alloc())?, None);
    Ok(())
}
