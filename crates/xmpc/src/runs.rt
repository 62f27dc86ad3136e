// Small programs under `serial`: each operator, form of statement and kind of trap. What they come to is what gcc gives of the text with
// its directives erased, or, where C leaves it open, what docs/LANGUAGE.md says.
use crate::cases::{Case, ROW, check};
use std::test::Fail;
use xmp_base::Status;

const GIVEN: &[&str] = &["serial", "--input=g", "f"];

// `f` has a variable of its own that begins as 0, `g` calls it, and `h` takes steps.
const FUNCTIONS: &str =
    "int f(int x) { int s; s += x; return s + s; }\nint g(int x) { return f(x) + 1; }\n\
int h(int x) { while (1) if (x > 2) return x * 4294967299; else x++; }\n";

const OPERANDS: &str =
    "int main() {\n  int most = 2147483647, least = -most - 1, z;\n  long wide = 9223372036854775807;\n  printf(\"%ld\", (long)(";

// Expressions over these, and their values.
const VALUES: [(&str, &str); 42] = [
    ("most + 1", "-2147483648"),
    ("least - 1", "2147483647"),
    ("46341 * 46341", "-2147479015"),
    ("-7 / 2", "-3"),
    ("least / -1", "-2147483648"),
    ("-7 % 2", "-1"),
    ("least % -1", "0"),
    ("3 << 31", "-2147483648"),
    ("-5 >> 1", "-3"),
    ("-4 & 13", "12"),
    ("12 | 10", "14"),
    ("12 ^ 10", "6"),
    ("~5", "-6"),
    ("!5", "0"),
    ("-1 < 1", "1"),
    ("2 <= 2", "1"),
    ("-1 > 1", "0"),
    ("2 >= 3", "0"),
    ("2 == 2", "1"),
    ("2 != 2", "0"),
    ("wide + 1", "-9223372036854775808"),
    ("-wide - 2", "9223372036854775807"),
    ("4294967296 * 4294967297", "4294967296"),
    ("-4294967297 / 2", "-2147483648"),
    ("-4294967297 % 4294967296", "-1"),
    ("1L << 63", "-9223372036854775808"),
    ("-1099511627776 >> 8", "-4294967296"),
    ("8589934595 & 4294967298", "2"),
    ("most + 1L", "2147483648"),
    ("0 && 1 / z", "0"),
    ("2 && 3", "1"),
    ("2 && z", "0"),
    ("2 || 1 / z", "1"),
    ("z || 3", "1"),
    ("z || 0", "0"),
    ("1 ? 7 : 1 / z", "7"),
    ("z ? 1 / z : 8", "8"),
    ("(int)4294967303", "7"),
    // calls, in which every scalar begins at 0
    ("f(1) + f(1)", "4"),
    ("f(4294967297)", "2"),
    ("g(20)", "41"),
    ("h(0)", "9"),
];

const CLOSED: &str = "));\n}\n";

#[test]
fn expressions_have_the_values_of_c(rt: HostRuntime) -> Result<(), Fail> {
    for (value, out) in VALUES {
        let case = Case {
            text: &[FUNCTIONS, OPERANDS, value, CLOSED],
            out,
            ..ROW
        };
        check(&rt, rt.alloc(), &case)?;
    }
    Ok(())
}

// Statements, and then the values of `s` and `i`, the second in four columns.
const STATEMENTS: [(&str, &str); 8] = [
    ("for (i = 0; i <= 7; i += 3) s += i;", "9   9%"),
    ("for (i = 5; i < 3; i++) s += i;", "0   5%"),
    ("if (0) s = 1; else i = 1;", "0   1%"),
    ("while (i < 3) { i++; if (i == 2) s = 5; }", "5   3%"),
    (
        "s = 100; s -= 1; s *= 3; s /= 2; s %= 100; s <<= 3; s >>= 1; s |= 7; s &= 190; s ^= 1;",
        "135   0%",
    ),
    // a call leaves the scalars of its caller
    ("s = 9; f(1);", "9   0%"),
    // a declaration is 0 each time before its own initialiser is evaluated
    (
        "for (i = 0; i < 2; i++) { int v = v + 1; s += v; }",
        "2   2%",
    ),
    (
        "for (i = 0; i < 8; i++) a[i] = i * i;\nfor (i = 0; i < 8; i++) s += a[i];",
        "140   8%",
    ),
];

#[test]
fn statements_do_what_those_of_c_do(rt: HostRuntime) -> Result<(), Fail> {
    for (statements, out) in STATEMENTS {
        let case = Case {
            text: &[
                FUNCTIONS,
                "int a[8], i, s;\nint main() {\n",
                statements,
                "\nprintf(\"%d%4d%%\", s, i);\n}\n",
            ],
            out,
            ..ROW
        };
        check(&rt, rt.alloc(), &case)?;
    }
    Ok(())
}

// Statements of the fourth line that end in a trap, with its line. What was printed stays, and a target's subscripts come before the right side.
const TRAPS: [(&str, &str); 17] = [
    ("x = 1 / z;", "trapped zero at 4:7\n"),
    ("x = 1 % z;", "trapped zero at 4:7\n"),
    ("x = 1 << 32;", "trapped shift at 4:7\n"),
    ("x = 1 >> -1;", "trapped shift at 4:7\n"),
    ("w = 1L << 64;", "trapped shift at 4:8\n"),
    ("w = 1L >> -1;", "trapped shift at 4:8\n"),
    ("x = 1 && 1 / z;", "trapped zero at 4:12\n"),
    ("x = 0 || 1 / z;", "trapped zero at 4:12\n"),
    ("x /= 0;", "trapped zero at 4:3\n"),
    ("a[1] %= z;", "trapped zero at 4:6\n"),
    ("x = a[8];", "trapped subscript at 4:5\n"),
    ("x = a[-1];", "trapped subscript at 4:5\n"),
    ("w = b[1][3];", "trapped subscript at 4:5\n"),
    ("w = b[2][1 / z];", "trapped subscript at 4:5\n"),
    ("a[-1] = 1 / z;", "trapped subscript at 4:1\n"),
    ("a[8] /= z;", "trapped subscript at 4:1\n"),
    ("scanf(\"%d\", &a[8]);", "trapped subscript at 4:14\n"),
];

#[test]
fn traps_stand_at_their_places(rt: HostRuntime) -> Result<(), Fail> {
    for (statement, err) in TRAPS {
        let case = Case {
            text: &[
                "int a[8], x, z;\nlong b[2][3], w;\nint main() { printf(\"7\");\n",
                statement,
                "\nprintf(\"8\");\n}\n",
            ],
            status: Status::Trapped,
            out: "7",
            err,
            ..ROW
        };
        check(&rt, rt.alloc(), &case)?;
    }
    Ok(())
}

const SCANS: &str =
    "int a[2], x;\nlong w;\nint main() {\n  x = 3; a[1] = 3; w = 3;\n  scanf(\"%d\", &x);\n  scanf(\"%d\", &a[1]);\n\
  scanf(\"%ld\", &w);\n  printf(\"%d/%d/%ld\", x, a[1], w);\n}\n";

#[test]
fn scanf_reads_numbers(rt: HostRuntime) -> Result<(), Fail> {
    for (input, out) in [
        ("  -7x", "-7/3/3"),
        ("", "3/3/3"),
        ("-x", "3/3/3"),
        ("4294967297\n12 4294967297", "1/12/4294967297"),
        ("1 2", "1/2/3"),
    ] {
        let case = Case {
            words: GIVEN,
            text: &[SCANS],
            input,
            out,
            ..ROW
        };
        check(&rt, rt.alloc(), &case)?;
    }
    Ok(())
}

// `a` is 0 to 7 and `b` is 1 to 6 before the eighth line, behind which the cells of `a` are printed.
const FILLED: &str =
    "int a[8], i, s;\nlong b[2][3], w;\n#pragma xmp nodes p[1]\nint main() {\nfor (i = 0; i < 8; i++) a[i] = i;\n\
for (i = 0; i < 2; i++) for (s = 0; s < 3; s++) b[i][s] = 3 * i + s + 1;\n#pragma xmp gmove\n";

const SHOWN: &str = "\nfor (i = 0; i < 8; i++) printf(\"%d\", a[i]);\n}\n";

#[test]
fn gmove_reads_before_it_writes(rt: HostRuntime) -> Result<(), Fail> {
    for (assignment, out) in [
        // to the right and to the left, each second cell, and a single one
        ("a[1:7] = a[0:7];", "00123456"),
        ("a[0:7] = a[1:7];", "12345677"),
        ("a[0:4:2] = a[1:4:2];", "11335577"),
        ("a[5] = a[6];", "01234667"),
        // empty sections, whose bases may lie outside
        ("a[9:0] = a[-1:0];", "01234567"),
        // one value into many cells, and through a scalar
        ("a[2:6] = w;", "01000000"),
        ("s = a[3];\n#pragma xmp gmove\na[0:2] = s;", "33234567"),
        // another type and another number of dimensions
        ("a[0:3] = b[1][0:3];", "45634567"),
        ("a[0:2] = b[0:2][2];", "36234567"),
    ] {
        let case = Case {
            text: &[FILLED, assignment, SHOWN],
            out,
            ..ROW
        };
        check(&rt, rt.alloc(), &case)?;
    }
    Ok(())
}

#[test]
fn gmove_traps_at_the_name_of_a_side(rt: HostRuntime) -> Result<(), Fail> {
    for (assignment, err) in [
        ("a[1:7] = a[0:6];", "trapped section at 8:1\n"),
        ("a[1:8] = a[0:9];", "trapped section at 8:1\n"),
        ("a[0:8] = a[-1:8];", "trapped section at 8:10\n"),
        ("a[0:2:0] = a[0:2];", "trapped section at 8:1\n"),
        ("a[0:-1] = a[0:-1];", "trapped section at 8:1\n"),
        ("a[8] = a[0];", "trapped subscript at 8:1\n"),
        ("a[0] = a[-1];", "trapped subscript at 8:8\n"),
        // the target comes before the source, and both before their lengths
        ("a[2:7] = a[-1];", "trapped section at 8:1\n"),
        ("b[0][0:2] = a[7:3];", "trapped section at 8:13\n"),
    ] {
        let case = Case {
            text: &[FILLED, assignment, SHOWN],
            status: Status::Trapped,
            err,
            ..ROW
        };
        check(&rt, rt.alloc(), &case)?;
    }
    Ok(())
}
