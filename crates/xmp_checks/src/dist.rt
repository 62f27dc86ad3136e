// The rows of the language's table, and each call beside a plain program that deals out and counts.

use xmp_dist::{Dim, DimError, Dist, Lengths};

// The greatest size of the dimensions below.
const MOST: u32 = 7;

// The length of the chunk that a node is dealt next.
fn next_chunk(d: &Dim, node: u32) -> u32 {
    match d.dist() {
        Dist::Whole => d.size(),
        Dist::Block => (1..d.size())
            .find(|length| length.saturating_mul(d.nodes()) >= d.size())
            .unwrap_or(d.size()),
        Dist::Cyclic(width) => width,
        Dist::Gblock(lengths) => *lengths.values.get(node as usize).unwrap_or(&0),
    }
}

// The owners of all positions: chunks are dealt out to the nodes in turn.
fn dealt(d: &Dim) -> [u32; 7] {
    let mut owners = [0; 7];
    let mut node = 0;
    let mut left = next_chunk(d, node);
    for owner in owners.iter_mut() {
        for _ in 0..d.nodes() {
            if left == 0 {
                node = node.saturating_add(1) % d.nodes();
                left = next_chunk(d, node);
            }
        }
        *owner = node;
        left = left.saturating_sub(1);
    }
    owners
}

// How many of the first `n` positions a node owns.
fn owned(owners: &[u32; 7], c: u32, n: u32) -> u32 {
    owners.iter().take(n as usize).filter(|x| **x == c).count() as u32
}

fn owner_of(owners: &[u32; 7], size: u32, g: i64) -> u32 {
    let from_first = if g < 0 { 0 } else { g as u64 };
    let at = from_first.min(size.saturating_sub(1) as u64);
    *owners.get(at as usize).unwrap_or(&0)
}

fn owners_agree(d: &Dim, owners: &[u32; 7]) -> bool {
    for i in 0..13_u32 {
        let g = i as i64 - 3;
        if d.owner(g) != owner_of(owners, d.size(), g) {
            return false;
        }
    }
    true
}

fn counts_agree(d: &Dim, owners: &[u32; 7]) -> bool {
    for c in 0..d.nodes() {
        if d.count(c) != owned(owners, c, d.size()) {
            return false;
        }
        for g in 0..d.size() {
            if d.owned_below(c, g) != owned(owners, c, g) {
                return false;
            }
        }
    }
    true
}

fn numbers_agree(d: &Dim, owners: &[u32; 7]) -> bool {
    for g in 0..d.size() {
        let c = d.owner(g as i64);
        let l = d.local(g);
        if l != owned(owners, c, g) {
            return false;
        }
        if l < d.count(c) && d.global(c, l) != g {
            return false;
        }
    }
    true
}

fn next_owned_agrees(d: &Dim, owners: &[u32; 7]) -> bool {
    for c in 0..d.nodes() {
        for i in 0..12_u32 {
            for length in 0..12_u32 {
                let g = i as i64 - 2;
                let mut steps = length;
                for step in (0..length).rev() {
                    if owner_of(owners, d.size(), g + step as i64) == c {
                        steps = step;
                    }
                }
                if d.next_owned(c, g, g + length as i64) != g + steps as i64 {
                    return false;
                }
            }
        }
    }
    true
}

fn agrees(made: Result<Dim, DimError>) -> bool {
    match made {
        Ok(d) => {
            let owners = dealt(&d);
            owners_agree(&d, &owners)
                && counts_agree(&d, &owners)
                && numbers_agree(&d, &owners)
                && next_owned_agrees(&d, &owners)
        }
        Err(_) => false,
    }
}

// Three chunks of 0 to 2 positions each.
fn gblocks_agree() -> bool {
    for first in 0..3_u32 {
        for second in 0..3_u32 {
            for third in 0..3_u32 {
                let size = first + second + third;
                let mut values = [0; 16];
                values[0] = first;
                values[1] = second;
                values[2] = third;
                let lengths = Lengths { values, count: 3 };
                if size != 0 && !agrees(Dim::new(size, 3, Dist::Gblock(lengths))) {
                    return false;
                }
            }
        }
    }
    true
}

#[test]
fn calls_are_what_counting_gives(rt: HostRuntime) {
    assert!(&rt; gblocks_agree());
    for size in 1..MOST + 1 {
        assert!(&rt; agrees(Dim::new(size, 1, Dist::Whole)));
        for nodes in 1..5_u32 {
            assert!(&rt; agrees(Dim::new(size, nodes, Dist::Block)));
            for width in 1..5_u32 {
                assert!(&rt; agrees(Dim::new(size, nodes, Dist::Cyclic(width))));
            }
        }
    }
}

#[test]
fn rows(rt: HostRuntime) {
    let Ok(d) = Dim::new(7, 3, Dist::Cyclic(2)) else {
        assert!(&rt; false);
        return;
    };
    for (g, owner) in [
        (-3, 0),
        (0, 0),
        (1, 0),
        (2, 1),
        (3, 1),
        (4, 2),
        (5, 2),
        (6, 0),
        (9, 0),
    ] {
        assert_eq!(&rt; d.owner(g), owner);
    }
    if d.nodes() == 3 && d.size() == 7 {
        for (c, count) in [(0_u32, 3_u32), (1, 2), (2, 2)] {
            assert!(&rt; c < 3 && d.count(c) == count);
        }
        assert_eq!(&rt; d.local(6), 2);
        assert!(&rt; 2 < d.count(0) && d.global(0, 2) == 6);
        assert_eq!(&rt; d.next_owned(0, 2, 7), 6);
        assert_eq!(&rt; d.next_owned(1, 4, 7), 7);
    }
    assert!(&rt; d.nodes() == 3 && d.size() == 7 && d.dist() == Dist::Cyclic(2));
    let mut values = [0; 16];
    values[1] = 5;
    values[3] = 4;
    let lengths = Dist::Gblock(Lengths { values, count: 4 });
    for (size, nodes, dist, error) in [
        (8, 3, Dist::Cyclic(0), DimError::BadChunk),
        (8, 4, lengths, DimError::BadSum),
        (9, 3, lengths, DimError::BadSum),
        (0, 3, Dist::Cyclic(0), DimError::BadSize),
        (8, 17, Dist::Block, DimError::BadSize),
        (8, 2, Dist::Whole, DimError::BadSize),
    ] {
        assert!(&rt; Dim::new(size, nodes, dist) == Err(error));
    }
}
