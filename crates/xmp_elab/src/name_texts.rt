// The rules of names: texts that break each, and texts beside them that break none.
use crate::texts::{Alike, Around, PROGRAM, check, check_one};
use std::alloc::Global;
use std::process::Abort;
use std::test::Fail;

// Names that are known, and declared once.
const NAMES: [Alike; 17] = [
    // a name is known from its declaration on, in its own initialiser too
    (
        "",
        &[
            "int main() {}",
            "int x; int main() { x = 1; }",
            "int main() { int x = x; }",
            "int c[2]:[*], x; int main() { x = xmp_node_num(); xmp_sync_all(&x); }",
        ],
    ),
    (
        "N1 at 1:14",
        &["int main() { x = 1; }", "int main() { y = 1; int y; }"],
    ),
    (
        "N1 at 1:18",
        &["int f() { return g(); } int g() { return 0; } int main() {}"],
    ),
    ("N1 at 1:21", &["int x; int main() { xmp_sync_all(&x); }"]),
    (
        "N1 at 1:25",
        &[
            "int x; int main() { x = y; }",
            "int main() { { int y; } y = 1; }",
            "int x; int main() { x = xmp_node_num(); }",
            "int x; int main() { x = xmp_num_nodes(); }",
        ],
    ),
    (
        "N1 at 1:27",
        &["int f(int n) { return n + g; }\nint main() {}"],
    ),
    (
        "N1 at 1:35",
        &["int c[2]:[*], x; int main() { x = xmp_node_num; }"],
    ),
    (
        "N1 at 1:44",
        &["int main() { for (int i = 0; i < 3; i++) ; i = 1; }"],
    ),
    // a scope declares a name once
    (
        "",
        &[
            "int x; int main() { int x; { int x; } }",
            "int f(int a) { { int a; } return a; } int main() {}",
            "int main() { for (int i = 0; i < 3; i++) { int i; } }",
        ],
    ),
    ("N2 at 1:5", &["int xmp_node_num; int main() {}"]),
    ("N2 at 1:12", &["int x; int x; int main() {}"]),
    (
        "N2 at 1:15",
        &["int c[2]:[*], xmp_num_nodes; int main() {}"],
    ),
    (
        "N2 at 1:18",
        &["int f(int a, int a) { return a; } int main() {}"],
    ),
    (
        "N2 at 1:20",
        &["int f(int a) { int a; return a; } int main() {}"],
    ),
    ("N2 at 1:21", &["int main() { int x, x; }"]),
    (
        "N2 at 1:27",
        &["int f() { return 0; } int f() { return 1; } int main() {}"],
    ),
    (
        "N2 at 2:19",
        &["int p;\n#pragma xmp nodes p[2]\nint main() {}"],
    ),
];

// What a name is used as, and what has to be constant.
const USES: [Alike; 16] = [
    // a name is used as what it is
    (
        "",
        &[
            "int a[4]; int main() { a[0] = 1; }",
            "int f(int n) { return n; } int main() { f(1); }",
            "int a[4]:[*]; int main() { a[0]:[1] = 1; }",
        ],
    ),
    (
        "N3 at 1:21",
        &[
            "int x; int main() { x[0] = 1; }",
            "int x; int main() { x(); }",
        ],
    ),
    (
        "N3 at 1:24",
        &[
            "int a[4]; int main() { a = 1; }",
            "int a[4]; int main() { a[0][1] = 1; }",
            "int a[4]; int main() { a[0]:[1] = 1; }",
        ],
    ),
    (
        "N3 at 1:35",
        &["int c[2]:[*], x; int main() { x = xmp_node_num(1); }"],
    ),
    (
        "N3 at 1:41",
        &["int f(int n) { return n; } int main() { f(1, 2); }"],
    ),
    (
        "N3 at 1:42",
        &["int c[2]:[*]; int main() { xmp_sync_all(&c); }"],
    ),
    (
        "N3 at 2:14",
        &["#pragma xmp nodes p[2]\nint main() { p = 1; }"],
    ),
    // what has to be constant is
    (
        "",
        &["int y = 1 || 1 / 0, a[2 * 3]; int main() { return 7 % 4; }"],
    ),
    ("N4 at 1:7", &["int a[1 << 32]; int main() {}"]),
    ("N4 at 1:9", &["int y = 1 / 0; int main() {}"]),
    ("N4 at 1:14", &["int x; int a[x]; int main() {}"]),
    ("N4 at 1:16", &["int x; int y = x; int main() {}"]),
    ("N4 at 1:28", &["int x; int main() { return x; }"]),
    (
        "N4 at 2:21",
        &["int x;\n#pragma xmp nodes p[x]\nint main() {}"],
    ),
    (
        "N4 at 4:23",
        &["int x;\n#pragma xmp nodes p[2]\nint main() {\n#pragma xmp task on p[x]\n;\n}"],
    ),
    (
        "N4 at 6:27",
        &[
            "int i, x;\n#pragma xmp nodes p[2]\n#pragma xmp template t[8]\n#pragma xmp distribute t[block] onto p\nint main() {\n#pragma xmp loop on t[i + x]\nfor (i = 0; i < 8; i++) ;\n}",
        ],
    ),
];

// What a function has, and which function is main.
const FUNCTIONS: [Alike; 16] = [
    // a function has what is its own, and earlier functions
    (
        "",
        &[
            "int f() { return 0; } int g() { return f(); } int main() {}",
            "int c[2]:[*]; int f() { return xmp_node_num(); } int main() { f(); }",
        ],
    ),
    (
        "N5 at 1:11",
        &["int f() { printf(\"%d\", 1); return 0; } int main() {}"],
    ),
    ("N5 at 1:14", &["int main() { main(); }"]),
    (
        "N5 at 1:15",
        &["int f() { int a[2]; return 0; } int main() {}"],
    ),
    (
        "N5 at 1:18",
        &[
            "int g; int f() { g = 1; return 0; } int main() {}",
            "int f() { return f(); } int main() {}",
            "int f() { int x; scanf(\"%d\", &x); return x; } int main() {}",
        ],
    ),
    (
        "N5 at 1:28",
        &["int a[2]; int f() { return a[0]; } int main() {}"],
    ),
    (
        "N5 at 1:32",
        &["int c[2]:[*]; int f() { int x; xmp_sync_all(&x); return x; } int main() {}"],
    ),
    (
        "N5 at 2:13",
        &[
            "int f() {\n#pragma xmp barrier\nreturn 0; }\n#pragma xmp nodes p[1]\nint main() {}",
            "int f() {\n#pragma xmp nodes p[1]\nreturn 0; } int main() {}",
        ],
    ),
    (
        "N5 at 2:27",
        &["int g;\nint f(int n) { return n + g; }\nint main() {}"],
    ),
    // main is the last function, and returns at its end
    (
        "",
        &[
            "int main(void) { return 0; }",
            "int f() { return 1; return 2; } int main() {}",
        ],
    ),
    (
        "N7 at 1:5",
        &["int f() { return 0; }", "int main(int a) {}"],
    ),
    ("N7 at 1:6", &["long main() {}"]),
    ("N7 at 1:14", &["int main() { return 0; ; }"]),
    ("N7 at 1:16", &["int main() { { return 0; } }"]),
    ("N7 at 1:19", &["int main() {} int f() { return 0; }"]),
    ("N7 at 1:21", &["int main() { if (1) return 0; }"]),
];

// Formats, arrays, and the first of several breaks.
const FORMATS_AND_ARRAYS: [Alike; 15] = [
    // a format fits what it is given
    (
        "",
        &[
            "int main() { printf(\"%5d%%\\n\", 1); printf(\"none\"); }",
            "long x; int main() { scanf(\"%ld\", &x); }",
        ],
    ),
    (
        "N6 at 1:21",
        &[
            "int main() { printf(\"%d\"); }",
            "int main() { printf(\"%ld\", 1); }",
            "int main() { printf(\"%x\", 1); }",
            "int main() { printf(\"%\"); }",
            "int main() { printf(\"%d\", 1, 2); }",
        ],
    ),
    (
        "N6 at 1:27",
        &[
            "int x; int main() { scanf(\"%ld\", &x); }",
            "int x; int main() { scanf(\"%d \", &x); }",
        ],
    ),
    // where an array or a mapping stands, and how large an array is
    (
        "",
        &[
            "int main() { int a[2]; }",
            "int a[4194304]; int main() {}",
            "int a[1][1][1]; int main() {}",
            "int main() {\n#pragma xmp nodes p[2]\n}",
        ],
    ),
    (
        "N8 at 1:5",
        &[
            "int a[0]; int main() {}",
            "int a[-1]; int main() {}",
            "int a[4194305]; int main() {}",
            "int a[1][1][1][1]; int main() {}",
        ],
    ),
    ("N8 at 1:20", &["int main() { { int a[2]; } }"]),
    (
        "N8 at 2:13",
        &["int main() { {\n#pragma xmp nodes p[2]\n} }"],
    ),
    (
        "S1 at 1:42",
        &["int main() { for (int i = 0; i < 2; i++) int a[2]; }"],
    ),
    // of several the first, and at one place the least
    ("N1 at 1:27", &["int main() { printf(\"%d\", y); }"]),
    (
        "N1 at 2:14",
        &["#pragma xmp nodes p[0]\nint main() { y = 1; }"],
    ),
    ("N2 at 1:8", &["int x, x; int main() { y = 1; }"]),
    (
        "N5 at 1:15",
        &["int f() { int a[0]; return 0; } int main() {}"],
    ),
    (
        "N6 at 1:21",
        &[
            "int main() { printf(\"%x\", y); }",
            "int main() { printf(\"%d %d\", y); }",
        ],
    ),
    (
        "N8 at 1:5",
        &["int a[9223372036854775807], b[2147483648]; int main() {}"],
    ),
    ("N8 at 1:20", &["int a[2048][2048], x[0]; int main() {}"]),
];

// Chains of calls: the number of the last function, main, and what breaks.
const CHAINS: [(u32, &str, &str); 5] = [
    (31, "int main() { f31(); }", ""),
    (32, "int main() { f31(); }", ""),
    (32, "int main() { f32(); }", "N10 at 34:14"),
    (32, "int main() { int x = f32(); }", "N10 at 34:22"),
    (33, "int main() { f31(); }", "N10 at 34:20"),
];

#[test]
fn names_are_judged(rt: HostRuntime) -> Result<(), Fail> {
    check(&rt, rt.alloc(), PROGRAM, &NAMES)
}

#[test]
fn uses_are_judged(rt: HostRuntime) -> Result<(), Fail> {
    check(&rt, rt.alloc(), PROGRAM, &USES)
}

#[test]
fn functions_are_judged(rt: HostRuntime) -> Result<(), Fail> {
    check(&rt, rt.alloc(), PROGRAM, &FUNCTIONS)
}

#[test]
fn formats_and_arrays_are_judged(rt: HostRuntime) -> Result<(), Fail> {
    check(&rt, rt.alloc(), PROGRAM, &FORMATS_AND_ARRAYS)
}

// Appends a function of one number, which calls that of another.
fn add_link(alloc: Global, text: &mut String, one: u32, other: u32) -> Result<(), Fail> {
    let line = format!(in alloc; "int f{one}() {{ return f{other}(); }}\n")?;
    text.push_str(line.as_str())?;
    Ok(())
}

// Appends the functions `f1` to the one of this number, each of which calls the one before it.
fn add_chain(alloc: Global, text: &mut String, last: u32) -> Result<(), Fail> {
    for k in 1..=last {
        add_link(alloc, text, k, k - 1)?;
    }
    Ok(())
}

#[test]
fn calls_are_as_deep_as_32(rt: HostRuntime) -> Result<(), Fail> {
    let first = "int f0() { return 0; }\n";
    for (last, main, expected) in CHAINS {
        let mut others = String::new(rt.alloc());
        add_chain(rt.alloc(), &mut others, last)?;
        check_one(&rt, rt.alloc(), (first, others.as_str(), main), expected)?;
    }
    Ok(())
}

// Appends a piece as often as a count says.
fn repeat(text: &mut String, piece: &str, count: usize) -> Result<(), Fail> {
    for _ in 0..count {
        text.push_str(piece)?;
    }
    Ok(())
}

// Appends, for each number below a count, the number between two pieces.
fn add_numbered(
    alloc: Global,
    text: &mut String,
    pieces: (&str, &str),
    count: u32,
) -> Result<(), Fail> {
    for k in 0..count {
        let one = format!(in alloc; "{}{k}{}", pieces.0, pieces.1)?;
        text.push_str(one.as_str())?;
    }
    Ok(())
}

// Asserts that so many numbered pieces are a program with what stands around them.
fn check_numbered(
    rt: &impl Abort,
    alloc: Global,
    around: Around,
    pieces: (&str, &str),
    count: u32,
) -> Result<(), Fail> {
    let mut text = String::new(alloc);
    add_numbered(alloc, &mut text, pieces, count)?;
    check_one(rt, alloc, (around.0, text.as_str(), around.1), "")
}

#[test]
fn large_programs_are_judged(rt: HostRuntime) -> Result<(), Fail> {
    let around = ("int x", ";int main(){n0 = n59999;}");
    check_numbered(&rt, rt.alloc(), around, (",n", ""), 60000)?;
    let around = ("", "int main(){f19999();}");
    let pieces = ("int f", "(){return 0;}");
    check_numbered(&rt, rt.alloc(), around, pieces, 20000)
}

#[test]
fn deep_loops_are_judged(rt: HostRuntime) -> Result<(), Fail> {
    let mut heads = String::new(rt.alloc());
    repeat(&mut heads, "for(i=0;i<9;i++)", 125)?;
    let pieces = ("int i;int main(){", heads.as_str(), ";}");
    check_one(&rt, rt.alloc(), pieces, "")
}
