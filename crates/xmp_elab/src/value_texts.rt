// Types and constant values, by formats and by lengths that have to have a sum.
use crate::texts::{Alike, Around, check};
use std::test::Fail;

// The argument of a printf of an int, and of one of a long.
const AS_AN_INT: Around = (
    "int i;\nlong l[4];\nlong f(int n) { return n; }\nint main() { printf(\"%d\", ",
    "); }",
);

const AS_A_LONG: Around = (
    "int i;\nlong l[4];\nlong f(int n) { return n; }\nint main() { printf(\"%ld\", ",
    "); }",
);

// Expressions of type int.
const INTS: &[&str] = &[
    "1 + 1",
    "2147483647",
    "1 << 2L",
    "1L < 2L",
    "1L == 2",
    "1L && 1L",
    "0 || 1L",
    "!1L",
    "~1",
    "(int)1L",
    "1L ? 1 : 2",
    "i",
];

// Expressions of type long.
const LONGS: &[&str] = &[
    "1 + 1L",
    "1L * 2",
    "2147483648",
    "0x80000000",
    "1L >> 2",
    "-1L",
    "+1L",
    "(long)1",
    "1 ? 1 : 2L",
    "l[1]",
    "i + l[i]",
    "f(i)",
];

// The one length of a block, which has to be 8.
const AS_A_LENGTH: Around = (
    "int i;\n#pragma xmp nodes p[1]\n#pragma xmp template t[8]\n#pragma xmp distribute t[gblock({",
    "})] onto p\nint main() {}",
);

// Expressions that are 8, and others.
const CONSTANTS: [Alike; 4] = [
    (
        "",
        &[
            "2 + 3 * 2",
            "17 / 2",
            "-17 / -2",
            "-9 % 5 + 12",
            "1 << 3",
            "(-1 >> 1) + 9",
            "2147483647 + 1 + 2147483647 + 1 + 8",
            "46341 * 46341 + 2147479023",
            "2147483647 + 1 - 2147483640",
            "-2147483648 / -1 - 2147483640",
            "(int)4294967304",
            "2147483648 - 2147483640",
            "9223372036854775807 + 1 + 9223372036854775807 + 9",
            "1 ? 8 : 1 / 0",
            "0 ? 1 << 40 : 8",
            "(1 || 1 / 0) + 7",
            "8 + (0 && 1 / 0)",
            "8 | 0",
            "12 & 10",
            "5 ^ 13",
            "~-9",
            "!0 + 7",
            "9 - !!5",
            "(3 > 2) + (3 >= 3) + (2 < 3) + (3 <= 3) + (1 == 1) + (1 != 2) + 2",
            "010",
        ],
    ),
    ("N1 at 4:34", &["j + 8"]),
    ("N4 at 4:34", &["1 / 0", "1 << 32", "1 >> -1", "i + 8"]),
    ("M4 at 4:13", &["4294967304", "9", "2147483647 + 9"]),
];

#[test]
fn types_are_those_of_c(rt: HostRuntime) -> Result<(), Fail> {
    let other = "N6 at 4:21";
    check(&rt, rt.alloc(), AS_AN_INT, &[("", INTS), (other, LONGS)])?;
    check(&rt, rt.alloc(), AS_A_LONG, &[("", LONGS), (other, INTS)])
}

#[test]
fn constants_are_those_of_c(rt: HostRuntime) -> Result<(), Fail> {
    check(&rt, rt.alloc(), AS_A_LENGTH, &CONSTANTS)
}
