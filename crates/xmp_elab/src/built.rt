// A tree that is built here and not read: its places are in no order.
ghost use Rattle.std.specs.Prelude.{◌≡◌, IfOk, true};
ghost use Rattle.xmp_fits.specs.NumbersLie.{item_lies, tree_lies};

use crate::typed::elaborate;
use sqlite_items::Items;
use std::alloc::Global;
use std::mem::drop;
use std::test::Fail;
use xmp_base::{Bytes, Fault, NoMemory, Phase, Place};
use xmp_syntax::{
    BlockItem, DirectiveLine, Function, Inside, Name, Plain, Stmt, TopItem, Tree, TypeWords,
};

fn at(line: u32) -> Place {
    Place { line, column: 13 }
}

fn barrier(line: u32) -> BlockItem<Stmt>
    ensures { item_lies result ≡ true }
{
    let at = at(line);
    let line = DirectiveLine {
        start: at,
        word: at,
        end: at,
    };
    BlockItem::Stmt(Stmt::Plain(Plain::Barrier(line)))
}

// `int main() {`, barriers on these lines, and `}`.
fn with_barriers(alloc: Global, lines: (u32, u32, u32)) -> Result<Tree, NoMemory>
    ensures { IfOk result (λ t. tree_lies t ≡ true) }
{
    let here = at(1);
    let text = Bytes::copy_of(alloc, b"main")?;
    let mut body = Items::new(alloc);
    body.push(barrier(lines.0))?;
    body.push(barrier(lines.1))?;
    body.push(barrier(lines.2))?;
    let mut parts = Items::new(alloc);
    parts.push(TopItem::Function(Function {
        ty: TypeWords::Int(here),
        name: Name { text, at: here },
        parameters: Inside {
            open: here,
            item: None,
            close: here,
        },
        body: Inside {
            open: here,
            item: body,
            close: here,
        },
    }))?;
    Ok(Tree {
        parts,
        finish: here,
    })
}

// Where a rule of mappings with this number breaks, if one does.
fn breaks(alloc: Global, t: &Tree, rule: u16) -> Option<Place>
    requires { tree_lies t.now ≡ true }
{
    match elaborate(alloc, t, None) {
        Ok(program) => {
            drop(program);
            None
        }
        Err(Fault::NoMemory) => None,
        Err(Fault::Refused(refusal)) => {
            (refusal.phase == Phase::Mapping && refusal.rule == rule).then_some(refusal.at)
        }
    }
}

// Without a nodes array the directive with the least place breaks a rule, wherever it stands in the tree.
#[test]
fn the_least_directive_has_no_nodes(rt: HostRuntime) -> Result<(), Fail> {
    for (lines, least) in [
        ((2, 3, 4), 2),
        ((3, 2, 4), 2),
        ((4, 3, 2), 2),
        ((9, 9, 7), 7),
    ] {
        let tree = with_barriers(rt.alloc(), lines)?;
        let found = breaks(rt.alloc(), &tree, 1);
        drop(tree);
        assert_eq!(rt; found, Some(at(least)));
    }
    Ok(())
}
