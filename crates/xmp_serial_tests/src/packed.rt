// What a store of the cells that a node holds has after a run over it: of a distributed array these cells in their order, the owned ones
// and those of the shadow, and a whole row of any other. Of one dimension, a cell that the node doesn't hold reads 0, and a write to it
// does nothing.
use crate::texts::typed;
use std::alloc::Global;
use std::mem::drop;
use std::test::Fail;
use xmp_base::NoMemory;
use xmp_meaning::{Flow, Halt};
use xmp_prog::ProgParts;
use xmp_serial::{Interpreter, Layout, State};

// Texts, the number of a node and of an array, and its row.
const ROWS: [(&str, u32, u32, &str); 19] = [
    (BLOCKS, 0, 0, "0 1 4 "),
    (BLOCKS, 1, 0, "9 16 25 "),
    (BLOCKS, 3, 0, "81 "),
    // with the two cells below and the one above
    (SHADOWS, 0, 0, "0 1 4 9 "),
    (SHADOWS, 1, 0, "1 4 9 16 25 36 "),
    (SHADOWS, 3, 0, "49 64 81 "),
    (ROUNDS, 0, 0, "0 1 36 "),
    (ROUNDS, 1, 0, "4 9 "),
    (ROUNDS, 2, 0, "16 25 "),
    (LENGTHS, 0, 0, ""),
    (LENGTHS, 1, 0, "0 1 2 3 4 "),
    (LENGTHS, 3, 0, "5 6 7 "),
    // two cells further on the template
    (OFFSETS, 0, 0, "1 2 "),
    (OFFSETS, 1, 0, "3 4 "),
    // a copied array has what the node holds of the other, and 0
    (OFFSETS, 0, 1, "1 2 0 0 "),
    (OFFSETS, 1, 1, "0 0 3 4 "),
    // columns, of which each text writes those that the node holds
    (EVEN, 0, 0, "0 2 10 12 "),
    (ODD, 1, 0, "1 11 "),
    // there is no such array
    (ODD, 1, 1, ""),
];

const BLOCKS: &str = "int a[10], i;\n#pragma xmp nodes p[4]\n#pragma xmp template t[10]\n\
#pragma xmp distribute t[block] onto p\n#pragma xmp align a[k] with t[k]\nint main() {\n\
#pragma xmp loop (i) on t[i]\nfor (i = 0; i < 10; i++) a[i] = i * i;\n}\n";

const SHADOWS: &str = "int a[10], i;\n#pragma xmp nodes p[4]\n#pragma xmp template t[10]\n\
#pragma xmp distribute t[block] onto p\n#pragma xmp align a[k] with t[k]\n#pragma xmp shadow a[2:1]\nint main() {\n\
#pragma xmp loop (i) on t[i]\nfor (i = 0; i < 10; i++) a[i] = i * i;\n}\n";

const ROUNDS: &str = "int a[7], i;\n#pragma xmp nodes p[3]\n#pragma xmp template t[7]\n\
#pragma xmp distribute t[cyclic(2)] onto p\n#pragma xmp align a[k] with t[k]\nint main() {\n\
for (i = 0; i < 7; i++) a[i] = i * i;\n}\n";

const LENGTHS: &str = "int a[8], i;\n#pragma xmp nodes p[4]\n#pragma xmp template t[8]\n\
#pragma xmp distribute t[gblock({0, 5, 0, 3})] onto p\n#pragma xmp align a[k] with t[k]\nint main() {\n\
for (i = 0; i < 8; i++) a[i] = i;\n}\n";

const OFFSETS: &str = "int a[4], b[4], i;\n#pragma xmp nodes p[2]\n#pragma xmp template t[8]\n\
#pragma xmp distribute t[block] onto p\n#pragma xmp align a[k] with t[k + 2]\nint main() {\n\
for (i = 0; i < 4; i++) { a[i] = i + 1; b[i] = a[i]; }\n}\n";

const EVEN: &str = "int a[2][3], i, j;\n#pragma xmp nodes p[2]\n#pragma xmp template t[2][3]\n\
#pragma xmp distribute t[*][cyclic] onto p\n#pragma xmp align a[x][y] with t[x][y]\nint main() {\n\
for (i = 0; i < 2; i++) for (j = 0; j < 3; j += 2) a[i][j] = 10 * i + j;\n}\n";

const ODD: &str = "int a[2][3], i, j;\n#pragma xmp nodes p[2]\n#pragma xmp template t[2][3]\n\
#pragma xmp distribute t[*][cyclic] onto p\n#pragma xmp align a[x][y] with t[x][y]\nint main() {\n\
for (i = 0; i < 2; i++) for (j = 1; j < 3; j += 2) a[i][j] = 10 * i + j;\n}\n";

// Numbers, each with a space behind it.
fn shown(alloc: Global, cells: &[i64]) -> Result<String, Fail> {
    let mut text = String::new(alloc);
    for cell in cells {
        text = format!(in alloc; "{text}{cell} ")?;
    }
    Ok(text)
}

// A whole run at a node.
fn run(alloc: Global, layout: &Layout, node: u32, state: &mut State) -> Result<Flow, Halt> {
    let at_node = Interpreter {
        alloc,
        layout,
        node,
        input: &[],
    };
    match at_node.starts(state)? {
        Flow::Next => at_node.statement(&layout.program.body, state),
        Flow::Returned(value) => Ok(Flow::Returned(value)),
    }
}

// What stands in the row behind the run, or why it isn't there.
fn row_in(alloc: Global, layout: &Layout, node: u32, array: u32) -> Result<String, Fail> {
    match State::beginning(alloc, layout, 0) {
        Ok(mut state) => {
            let row = match run(alloc, layout, node, &mut state) {
                Ok(_) => shown(alloc, state.row(array)),
                Err(_) => Ok(format!(in alloc; "halted")?),
            };
            drop(state);
            row
        }
        Err(NoMemory) => Ok(format!(in alloc; "no memory")?),
    }
}

fn row_at(alloc: Global, program: &ProgParts, node: u32, array: u32) -> Result<String, Fail> {
    match Layout::packed(alloc, program, node) {
        Ok(layout) => {
            let row = row_in(alloc, &layout, node, array);
            drop(layout);
            row
        }
        Err(NoMemory) => Ok(format!(in alloc; "no memory")?),
    }
}

fn row_of(alloc: Global, text: &str, node: u32, array: u32) -> Result<String, Fail> {
    match typed(alloc, text) {
        Ok(program) => {
            let row = row_at(alloc, program.parts(), node, array);
            drop(program);
            row
        }
        Err(_) => Ok(format!(in alloc; "no program")?),
    }
}

#[test]
fn stores_have_the_cells_that_a_node_holds(rt: HostRuntime) -> Result<(), Fail> {
    for (text, node, array, row) in ROWS {
        let found = row_of(rt.alloc(), text, node, array)?;
        assert_eq!(rt; found.as_str(), row);
    }
    Ok(())
}
