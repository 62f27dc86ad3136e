ghost use Rattle.std.specs.Prelude.{◌≡◌, ◌≤◌, true};
ghost use Rattle.xmp_first.specs.First.{is_expression};

use crate::{First, Item, Items, serial_first};
use std::alloc::Global;
use xmp_base::{Bytes, NoMemory};
use xmp_num::BinOp;

/// What the program prints that gives this value to so many cells.
fn printed(alloc: Global, size: u32, items: &[Item]) -> Result<Bytes, NoMemory>
    requires some { 1 ≤ size }
    requires few { size ≤ 4194304 }
    requires expression { is_expression items.now ≡ true }
{
    let mut value = Items::new(alloc);
    for item in items {
        value.push(*item)?;
    }
    serial_first(
        alloc,
        &First {
            size,
            nodes: 1,
            value,
        },
    )
}

#[test]
fn prints_the_sum_of_the_cells(rt: HostRuntime) {
    let i = Item::Index;
    let (plus, minus, times) = (
        Item::Op(BinOp::Add),
        Item::Op(BinOp::Sub),
        Item::Op(BinOp::Mul),
    );
    let (two, five) = (Item::Number(2), Item::Number(5));
    let (seven, large) = (Item::Number(7), Item::Number(999_999_999));
    let alloc = rt.alloc();
    let outputs = [
        (printed(alloc, 10, &[i, times, i]), "285\n"),
        (printed(alloc, 1, &[seven, minus, i, times, two]), "7\n"),
        (printed(alloc, 3, &[two, plus, i, times, five]), "21\n"),
        (printed(alloc, 2, &[large, times, large]), "1616697346\n"),
    ];
    for (output, expected) in outputs {
        assert!(&rt; output.is_ok_and(|out| out.as_slice() == expected.as_bytes()));
    }
}
