use crate::layout::{FOOT, HEAD, TO_FIRST_LOOP, TO_NODES, TO_SECOND_LOOP, TO_TEMPLATE, TO_VALUE};
use crate::{FirstWorld, read_first, run_first};
use std::alloc::Global;
use xmp_base::{Bytes, Fault, NoMemory, Phase, Place, Refusal};

/// A text of the form's layout.
fn text_of(alloc: Global, size: &str, nodes: &str, value: &str) -> Result<Bytes, NoMemory> {
    let mut text = Bytes::new(alloc);
    for piece in [
        HEAD,
        size.as_bytes(),
        TO_NODES,
        nodes.as_bytes(),
        TO_TEMPLATE,
        size.as_bytes(),
        TO_FIRST_LOOP,
        size.as_bytes(),
        TO_VALUE,
        value.as_bytes(),
        TO_SECOND_LOOP,
        size.as_bytes(),
        FOOT,
    ] {
        text.push_all(piece)?;
    }
    Ok(text)
}

fn run(alloc: Global, size: &str, nodes: &str, value: &str) -> Result<FirstWorld, Fault> {
    match text_of(alloc, size, nodes, value) {
        Ok(text) => match read_first(alloc, text.as_slice()) {
            Ok(p) => run_first(alloc, &p).map_err(|_| Fault::NoMemory),
            Err(fault) => Err(fault),
        },
        Err(NoMemory) => Err(Fault::NoMemory),
    }
}

#[test]
fn texts_are_run_or_refused(rt: HostRuntime) {
    let alloc = rt.alloc();
    for (size, nodes, value, out) in [
        ("10", "4", "i * i", "285\n"),
        ("1", "3", "7 - i * 2", "7\n"),
        ("3", "16", "2 + i * 5", "21\n"),
        ("2", "2", "999999999 * 999999999", "1616697346\n"),
    ] {
        let world = run(alloc, size, nodes, value);
        assert!(&rt; world.is_ok_and(|world| world.out() == out.as_bytes()));
    }
    let refused = Fault::Refused(Refusal {
        phase: Phase::Syntax,
        rule: 1,
        at: Place { line: 1, column: 1 },
    });
    for (size, nodes, value) in [("10", "4", "i*i"), ("4194305", "4", "i"), ("10", "04", "i")] {
        assert!(&rt; run(alloc, size, nodes, value).is_err_and(|fault| fault == refused));
    }
    if let Ok(world) = run(alloc, "10", "4", "i * i") {
        assert_eq!(&rt; world.nodes(), 4);
        if world.nodes() == 4 {
            assert!(&rt; world.store(1) == [10, 285, 0, 0, 0, 9, 16, 25, 0, 0, 0, 0].as_slice());
            assert_eq!(&rt; (world.turns(0), world.turns(1)), (6, 6));
            assert_eq!(&rt; (world.turns(2), world.turns(3)), (6, 2));
        }
    }
}
