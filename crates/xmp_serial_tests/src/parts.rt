// The parts of a run, one by one, over whole rows: initialisers, a counted loop by its entry, tests and steps, a condition, a plain statement,
// and the numbers of a section.
use crate::texts::typed;
use sqlite_items::at;
use std::alloc::Global;
use std::mem::drop;
use std::test::Fail;
use xmp_base::NoMemory;
use xmp_meaning::Halt;
use xmp_prog::{LoopHead, Plain, Stmt};
use xmp_serial::{Chosen, Interpreter, Layout, State, step_up};

const TEXT: &str = "int a[4], i, n = 3, m;\n#pragma xmp nodes p[1]\nint main() {\n\
for (i = 1; i < n; i++) a[i] = i * 2;\nif (n > 2) m = n * 2;\nif (n > m) m = 7;\n\
#pragma xmp gmove\na[1:n:m] = a[0:n];\n}\n";

/// What a part of the run gave.
#[derive(Clone, Copy, PartialEq, Eq, Debug)]
enum Is {
    Turns(u64, u64),
    Holds(bool),
    Section(i64, i64, i64),
    Nothing,
}

// So many turns of a counted loop at most, and so many turns.
fn turns(it: &Interpreter, head: &LoopHead, body: &Stmt, state: &mut State) -> Result<Is, Halt> {
    let most = it.entering(head, state)?;
    for turn in 0..most {
        if !it.inside(head, state)? {
            return Ok(Is::Turns(most, turn));
        }
        it.statement(body, state)?;
        step_up(head, state);
    }
    Ok(Is::Turns(most, most))
}

// The first section of an array.
fn section(chosen: &[Chosen]) -> Is {
    match chosen.first() {
        Some(Chosen::Many { base, length, step }) => Is::Section(*base, *length, *step),
        _ => Is::Nothing,
    }
}

fn plain(it: &Interpreter, p: &Plain, state: &mut State) -> Result<Is, Halt> {
    match p {
        Plain::Gmove { target, .. } => {
            let chosen = it.numbers(target, state)?;
            Ok(section(chosen.as_slice()))
        }
        _ => {
            it.plain(p, state)?;
            Ok(Is::Nothing)
        }
    }
}

// A condition, and where it holds the statement.
fn part(it: &Interpreter, s: &Stmt, state: &mut State) -> Result<Is, Halt> {
    match s {
        Stmt::Counted(head, body) => turns(it, head, body.get(), state),
        Stmt::If(test, a, _) => {
            let holds = it.holds(test, state)?;
            if holds {
                it.statement(a.get(), state)?;
            }
            Ok(Is::Holds(holds))
        }
        Stmt::Plain(p) => plain(it, p, state),
        _ => Ok(Is::Nothing),
    }
}

// The parts of main, up to this one, which gave this; and the scalars and the row behind it.
fn parts(it: &Interpreter, all: &[Stmt], last: usize, state: &mut State) -> Result<Is, Halt> {
    let mut is = Is::Nothing;
    for k in 0..=last {
        if let Some(s) = at(all, k) {
            is = part(it, s, state)?;
        }
    }
    Ok(is)
}

fn begun(it: &Interpreter, last: usize, state: &mut State) -> Result<Is, Halt> {
    it.starts(state)?;
    match &it.layout.program.body {
        Stmt::Block(all) => parts(it, all.as_slice(), last, state),
        _ => Ok(Is::Nothing),
    }
}

// What the part gave, and then i, n, m and the row of the array.
fn told(alloc: Global, layout: &Layout, last: usize) -> Result<Option<(Is, [i64; 7])>, NoMemory> {
    let it = Interpreter {
        alloc,
        layout,
        node: 0,
        input: &[],
    };
    let mut state = State::beginning(alloc, layout, 0)?;
    let is = begun(&it, last, &mut state);
    let found = [
        state.scalar(0),
        state.scalar(1),
        state.scalar(2),
        state.cell(0, 0),
        state.cell(0, 1),
        state.cell(0, 2),
        state.cell(0, 3),
    ];
    drop(state);
    match is {
        Ok(is) => Ok(Some((is, found))),
        Err(_) => Ok(None),
    }
}

fn after(alloc: Global, last: usize) -> Option<(Is, [i64; 7])> {
    let Ok(program) = typed(alloc, TEXT) else {
        return None;
    };
    let found = match Layout::whole(alloc, program.parts()) {
        Ok(layout) => {
            let found = told(alloc, &layout, last);
            drop(layout);
            found
        }
        Err(NoMemory) => Err(NoMemory),
    };
    drop(program);
    found.ok().flatten()
}

const AFTER: [(usize, Is, [i64; 7]); 4] = [
    (0, Is::Turns(2, 2), [3, 3, 0, 0, 2, 4, 0]),
    (1, Is::Holds(true), [3, 3, 6, 0, 2, 4, 0]),
    (2, Is::Holds(false), [3, 3, 6, 0, 2, 4, 0]),
    (3, Is::Section(1, 3, 6), [3, 3, 6, 0, 2, 4, 0]),
];

#[test]
fn parts_of_a_run_do_what_the_whole_does(rt: HostRuntime) -> Result<(), Fail> {
    for (last, is, found) in AFTER {
        assert_eq!(rt; after(rt.alloc(), last), Some((is, found)));
    }
    Ok(())
}
