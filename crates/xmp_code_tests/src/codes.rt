// Codes that are judged, and one that is listed.

use sqlite_items::Items;
use std::alloc::Global;
use std::test::Fail;
use xmp_base::{Bytes, NoMemory, Place};
use xmp_instr::{CodeParts, Instr, NodeCode, list};
use xmp_num::{BinOp, Ty};

pub const AT: Place = Place { line: 1, column: 1 };

/// A code of one node, with one word and one format.
pub fn parts(alloc: Global, instrs: &[Instr], depths: &[u32]) -> Result<CodeParts, NoMemory> {
    let format = Bytes::copy_of(alloc, b"%d\n")?;
    let mut formats = Items::new(alloc);
    formats.push(format)?;
    Ok(CodeParts {
        node: 0,
        nodes: 1,
        steps: 2,
        words: 1,
        image: None,
        depth: 2,
        instrs: Items::from_slice(alloc, instrs)?,
        depths: Items::from_slice(alloc, depths)?,
        calls: 1,
        formats,
        maps: Items::new(alloc),
        templates: Items::new(alloc),
        meetings: Items::new(alloc),
        guards: Items::new(alloc),
    })
}

fn is_code(alloc: Global, instrs: &[Instr], depths: &[u32]) -> Result<bool, NoMemory> {
    match NodeCode::new(parts(alloc, instrs, depths)?) {
        Ok(code) => {
            drop(code);
            Ok(true)
        }
        Err(bad) => {
            drop(bad);
            Ok(false)
        }
    }
}

// Instructions with the depth before each, and whether they make a code.
#[derive(Clone, Copy)]
struct Case {
    instrs: &'static [Instr],
    depths: &'static [u32],
    is_code: bool,
}

const CASES: [Case; 11] = [
    Case {
        instrs: &[Instr::Push(7), Instr::Print(0), Instr::End],
        depths: &[0, 1, 0],
        is_code: true,
    },
    Case {
        instrs: &[
            Instr::Push(1),
            Instr::Push(0),
            Instr::Bin(BinOp::Div, Ty::Int, AT),
            Instr::Save(0),
            Instr::End,
        ],
        depths: &[0, 1, 2, 1, 0],
        is_code: true,
    },
    Case {
        instrs: &[Instr::Turn, Instr::Jump(0)],
        depths: &[0, 0],
        is_code: true,
    },
    // too few values
    Case {
        instrs: &[Instr::Save(0), Instr::End],
        depths: &[0, 0],
        is_code: false,
    },
    // a jump past the end
    Case {
        instrs: &[Instr::Turn, Instr::Jump(2)],
        depths: &[0, 0],
        is_code: false,
    },
    // a depth that disagrees
    Case {
        instrs: &[Instr::Push(7), Instr::Drop, Instr::End],
        depths: &[0, 1, 1],
        is_code: false,
    },
    // a return at depth 2
    Case {
        instrs: &[Instr::Push(7), Instr::Push(8), Instr::Return],
        depths: &[0, 1, 2],
        is_code: false,
    },
    // a call's target at depth 1
    Case {
        instrs: &[Instr::Push(7), Instr::Call(1), Instr::Drop, Instr::End],
        depths: &[0, 1, 2, 1],
        is_code: false,
    },
    // a call
    Case {
        instrs: &[
            Instr::Call(3),
            Instr::Drop,
            Instr::End,
            Instr::Push(5),
            Instr::Return,
        ],
        depths: &[0, 1, 0, 0, 1],
        is_code: true,
    },
    // a slot past the words
    Case {
        instrs: &[Instr::Load(1), Instr::Save(0), Instr::End],
        depths: &[0, 1, 0],
        is_code: false,
    },
    // nothing at the end
    Case {
        instrs: &[Instr::End, Instr::Turn],
        depths: &[0, 0],
        is_code: false,
    },
];

#[test]
fn codes_are_judged(rt: HostRuntime) -> Result<(), Fail> {
    for case in &CASES {
        let found = is_code(rt.alloc(), case.instrs, case.depths)?;
        assert!(rt; found == case.is_code);
    }
    Ok(())
}

fn text_of(alloc: Global, instrs: &[Instr], depths: &[u32]) -> Result<Bytes, NoMemory> {
    match NodeCode::new(parts(alloc, instrs, depths)?) {
        Ok(code) => list(alloc, &code),
        Err(bad) => {
            drop(bad);
            Ok(Bytes::new(alloc))
        }
    }
}

#[test]
fn a_code_is_listed(rt: HostRuntime) -> Result<(), Fail> {
    let instrs = [
        Instr::Push(-7),
        Instr::Push(0),
        Instr::Bin(BinOp::LessEq, Ty::Long, AT),
        Instr::SaveAt(0, 1),
        Instr::Scan(Ty::Int),
        Instr::End,
    ];
    let depths = [0, 1, 2, 1, 0, 0];
    let text = text_of(rt.alloc(), &instrs, &depths)?;
    assert!(rt; text.as_slice().is_empty());
    let instrs = [
        Instr::Push(-7),
        Instr::Push(0),
        Instr::Bin(BinOp::LessEq, Ty::Long, AT),
        Instr::LoadAt(0, 1),
        Instr::Scan(Ty::Int),
        Instr::Count,
        Instr::End,
    ];
    let depths = [0, 1, 2, 1, 1, 0, 0];
    let text = text_of(rt.alloc(), &instrs, &depths)?;
    let due = b"0 push -7\n1 push 0\n2 bin lesseq long\n3 loadat 0 1\n4 scan int\n5 count\n6 end\n";
    assert!(rt; text.as_slice() == due.as_slice());
    Ok(())
}
