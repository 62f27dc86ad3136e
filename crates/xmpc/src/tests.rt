// Command lines, faults and sizes.
use crate::cases::{Case, ROW, check, check_over, files_of, joined};
use std::alloc::Global;
use std::process::Abort;
use std::test::Fail;
use xmp_base::Status;

// The pieces of the program that `run` takes, between its numbers and the value of its cells.
const HEAD: &str = "int a[";

const NODES: &str = "], i, s;\n#pragma xmp nodes p[";

const TEMPLATE: &str = "]\n#pragma xmp template t[";

const FILL: &str = "]\n#pragma xmp distribute t[block] onto p\n#pragma xmp align a[k] with t[k]\n\
int main(void) {\n#pragma xmp loop (i) on t[i]\n  for (i = 0; i < ";

const VALUE: &str = "; i++) a[i] = ";

const SUM: &str = ";\n#pragma xmp loop (i) on t[i] reduction(+:s)\n  for (i = 0; i < ";

const END: &str =
    "; i++) s += a[i];\n#pragma xmp task on p[0]\n  printf(\"%d\\n\", s);\n  return 0;\n}\n";

const SQUARES: &[&str] = &[
    HEAD, "10", NODES, "4", TEMPLATE, "10", FILL, "10", VALUE, "i * i", SUM, "10", END,
];

const RUN: Case = Case {
    words: &["run", "f"],
    text: SQUARES,
    out: "285\n",
    ..ROW
};

// `run`, and what fails in it.
const RUNS: [Case; 8] = [
    RUN,
    Case {
        text: &[
            HEAD,
            "1",
            NODES,
            "3",
            TEMPLATE,
            "1",
            FILL,
            "1",
            VALUE,
            "7 - i * 2",
            SUM,
            "1",
            END,
        ],
        out: "7\n",
        ..RUN
    },
    Case {
        text: &[
            HEAD,
            "3",
            NODES,
            "16",
            TEMPLATE,
            "3",
            FILL,
            "3",
            VALUE,
            "2 + i * 5",
            SUM,
            "3",
            END,
        ],
        out: "21\n",
        ..RUN
    },
    Case {
        text: &[
            HEAD,
            "2",
            NODES,
            "2",
            TEMPLATE,
            "2",
            FILL,
            "2",
            VALUE,
            "999999999 * 999999999",
            SUM,
            "2",
            END,
        ],
        out: "1616697346\n",
        ..RUN
    },
    Case {
        text: &[
            HEAD, "10", NODES, "4", TEMPLATE, "10", FILL, "10", VALUE, "i*i", SUM, "10", END,
        ],
        status: Status::Refused,
        out: "",
        err: "refused S1 at 1:1\n",
        ..RUN
    },
    Case {
        out_fails: 2,
        most: 2,
        status: Status::WriteFault,
        out: "28",
        ..RUN
    },
    Case {
        read_fails: 1,
        status: Status::ReadFault,
        out: "",
        err: "read fault\n",
        ..RUN
    },
    Case {
        words: &["run", "h"],
        status: Status::ReadFault,
        out: "",
        err: "read fault\n",
        ..RUN
    },
];

#[test]
fn run_takes_one_form_of_programs(rt: HostRuntime) -> Result<(), Fail> {
    for case in &RUNS {
        check(&rt, rt.alloc(), case)?;
    }
    Ok(())
}

const TRAPS: &[&str] = &["int z;\nint main() { printf(\"ABC\"); z = 1 / z; }\n"];

const READ_FAULT: Case = Case {
    text: SQUARES,
    status: Status::ReadFault,
    err: "read fault\n",
    ..ROW
};

// Reads and writes that fail.
const FAULTS: [Case; 12] = [
    Case {
        text: SQUARES,
        out_fails: 2,
        most: 2,
        status: Status::WriteFault,
        out: "28",
        ..ROW
    },
    Case {
        read_fails: 1,
        ..READ_FAULT
    },
    Case {
        words: &["check", "h"],
        ..READ_FAULT
    },
    // the input is the second read
    Case {
        words: &["serial", "--input=g", "f"],
        read_fails: 2,
        ..READ_FAULT
    },
    Case {
        words: &["serial", "--input=h", "f"],
        ..READ_FAULT
    },
    // an empty name is a name
    Case {
        words: &["serial", "--input=", "f"],
        ..READ_FAULT
    },
    // the second read is of no file that is named
    Case {
        words: &["check", "f"],
        text: SQUARES,
        read_fails: 2,
        out: "accepted\n",
        ..ROW
    },
    Case {
        words: &["check", "f"],
        text: SQUARES,
        out_fails: 1,
        status: Status::WriteFault,
        ..ROW
    },
    // the line of a trap is due after the output
    Case {
        text: TRAPS,
        out_fails: 2,
        most: 2,
        status: Status::WriteFault,
        out: "AB",
        ..ROW
    },
    Case {
        text: TRAPS,
        err_fails: 1,
        status: Status::WriteFault,
        out: "ABC",
        ..ROW
    },
    // a line of err alone
    Case {
        err_fails: 1,
        status: Status::WriteFault,
        ..ROW
    },
    Case {
        words: &[],
        err_fails: 1,
        status: Status::WriteFault,
        ..ROW
    },
];

#[test]
fn faults_have_their_answers(rt: HostRuntime) -> Result<(), Fail> {
    for case in &FAULTS {
        check(&rt, rt.alloc(), case)?;
    }
    Ok(())
}

// Words of no form.
const NO_FORMS: [&[&str]; 21] = [
    &[],
    &["f"],
    &["check"],
    &["serial"],
    &["run"],
    &["check", "--nodes=4"],
    &["check", "f", "f"],
    &["check", "f", "--nodes=4"],
    &["check", "--steps=1", "f"],
    &["check", "--input=g", "f"],
    &["serial", "--order=1", "f"],
    &["serial", "--report", "f"],
    &["serial", "--nodes=2", "--nodes=2", "f"],
    &["serial", "--nodes=0", "f"],
    &["serial", "--steps=18446744073709551616", "f"],
    &["serial", "--steps=000000000000000000001", "f"],
    &["serial", "--input=--g", "f"],
    &["run", "--nodes=17", "f"],
    &["run", "--report", "f"],
    &["emit", "--node=4", "f"],
    &["Check", "f"],
];

#[test]
fn other_words_are_usage(rt: HostRuntime) -> Result<(), Fail> {
    for words in NO_FORMS {
        let case = Case {
            words,
            text: SQUARES,
            status: Status::Usage,
            err: "usage\n",
            ..ROW
        };
        check(&rt, rt.alloc(), &case)?;
    }
    Ok(())
}

// A program that does nothing, and spaces behind it up to a size.
fn padded(alloc: Global, size: usize) -> Result<Vec<u8>, Fail> {
    let mut text = String::from_str(alloc, "int main() {}")?;
    for _ in text.len()..size {
        text.push_str(" ")?;
    }
    Ok(text.into_bytes())
}

const LARGEST: usize = 1_048_576;

const TOO_LARGE: Case = Case {
    status: Status::TooLarge,
    err: "too large\n",
    ..ROW
};

// Sizes of a source, and what becomes of it.
const SIZES: [(usize, Case); 5] = [
    (LARGEST, ROW),
    (
        LARGEST,
        Case {
            words: &["check", "f"],
            out: "accepted\n",
            ..ROW
        },
    ),
    (LARGEST + 1, TOO_LARGE),
    (
        LARGEST + 1,
        Case {
            words: &["check", "f"],
            ..TOO_LARGE
        },
    ),
    (
        LARGEST + 1,
        Case {
            words: &["run", "f"],
            ..TOO_LARGE
        },
    ),
];

// Asserts what becomes of a source of this size, with an input.
fn check_size(
    rt: &impl Abort,
    alloc: Global,
    sizes: (usize, usize),
    case: &Case,
) -> Result<(), Fail> {
    let source = padded(alloc, sizes.0)?;
    let input = vec![in alloc; b' '; sizes.1]?;
    let mut files = files_of(alloc, source, input, 0)?;
    check_over(rt, alloc, case, &mut files)
}

#[test]
fn a_source_has_a_largest_size(rt: HostRuntime) -> Result<(), Fail> {
    for (size, case) in &SIZES {
        check_size(&rt, rt.alloc(), (*size, 0), case)?;
    }
    Ok(())
}

const LARGEST_INPUT: usize = 16_777_216;

// Sizes of a source and its input, and what becomes of them.
const INPUTS: [((usize, usize), Case); 2] = [
    (
        (0, LARGEST_INPUT),
        Case {
            words: &["serial", "--input=g", "f"],
            ..ROW
        },
    ),
    (
        (0, LARGEST_INPUT + 1),
        Case {
            words: &["serial", "--input=g", "f"],
            ..TOO_LARGE
        },
    ),
];

#[test]
fn an_input_has_a_largest_size(rt: HostRuntime) -> Result<(), Fail> {
    for (sizes, case) in &INPUTS {
        check_size(&rt, rt.alloc(), *sizes, case)?;
    }
    Ok(())
}
