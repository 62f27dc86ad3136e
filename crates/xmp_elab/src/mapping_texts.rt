// The rules of mappings: texts that break each, and texts beside them that break none.
use crate::texts::{Alike, Around, PROGRAM, check};
use std::test::Fail;

// Whole programs: nodes, templates, forms over other grids, and cells.
const MAPPINGS: [Alike; 13] = [
    (
        "",
        &[
            "#pragma xmp nodes p[4][4]\nint main() {}",
            "#pragma xmp nodes p[1]\n#pragma xmp template t[4194304][1][1]\n#pragma xmp distribute t[block][*][*] onto p\nint main() {}",
            "#pragma xmp nodes p[2][2]\n#pragma xmp template t[8][3][8]\n#pragma xmp distribute t[block][*][cyclic(3)] onto p\nint main() {}",
            "int a[8];\n#pragma xmp nodes p[2]\n#pragma xmp template t[8]\n#pragma xmp distribute t[cyclic] onto p\n#pragma xmp align a[i] with t[i]\n#pragma xmp shadow a[0]\nint main() {}",
            "int a[2048][2047], x[2048];\nint main() {}",
            "int c[2097152]:[*], d[1]:[*];\nint main() {}",
            "int a[8];\n#pragma xmp nodes p[2]\n#pragma xmp template t[8]\n#pragma xmp distribute t[gblock({3, 5})] onto p\n#pragma xmp align a[i] with t[i]\n#pragma xmp shadow a[1]\nint main() {}",
        ],
    ),
    (
        "M1 at 1:13",
        &[
            "#pragma xmp nodes p[0]\nint main() {}",
            "#pragma xmp nodes p[4][5]\nint main() {}",
            "#pragma xmp nodes p[1][1][1][1]\nint main() {}",
            "#pragma xmp nodes p[-1][-2]\nint main() {}",
            "#pragma xmp nodes p[4294967297]\nint main() {}",
            "#pragma xmp template t[4]\nint main() {}",
        ],
    ),
    (
        "M1 at 2:13",
        &[
            "#pragma xmp nodes p[2]\n#pragma xmp nodes q[2]\nint main() {}",
            "int main() {\n#pragma xmp barrier\n}",
        ],
    ),
    (
        "M1 at 3:13",
        &["#pragma xmp nodes p[2]\nint main() {\n#pragma xmp nodes q[2]\n}"],
    ),
    (
        "M2 at 2:13",
        &[
            "#pragma xmp nodes p[1]\n#pragma xmp template t[0]\nint main() {}",
            "#pragma xmp nodes p[1]\n#pragma xmp template t[2][2][2][2]\n#pragma xmp distribute t[block][*][*][*] onto p\nint main() {}",
            "#pragma xmp nodes p[1]\n#pragma xmp template t[4194305]\n#pragma xmp distribute t[block] onto p\nint main() {}",
            "#pragma xmp nodes p[1]\n#pragma xmp template t[-1]\nint main() {}",
        ],
    ),
    (
        "M3 at 3:13",
        &[
            "#pragma xmp nodes p[2][2]\n#pragma xmp template t[8]\n#pragma xmp distribute t[block] onto p\nint main() {}",
        ],
    ),
    (
        "M4 at 5:13",
        &[
            "#define N 8\nint x;\n#pragma xmp nodes p[4]\n#pragma xmp template t[N]\n#pragma xmp distribute t[gblock({0, 5, 0, 4})] onto p\nint main() {}",
        ],
    ),
    (
        "M5 at 5:13",
        &[
            "int a[8];\n#pragma xmp nodes p[2]\n#pragma xmp template t[8][8]\n#pragma xmp distribute t[block][*] onto p\n#pragma xmp align a[i] with t[i][i]\nint main() {}",
        ],
    ),
    (
        "M5 at 6:13",
        &[
            "int c[4]:[*];\nint a[8];\n#pragma xmp nodes p[2]\n#pragma xmp template t[8]\n#pragma xmp distribute t[block] onto p\n#pragma xmp align a[i] with t[i]\nint main() {}",
        ],
    ),
    (
        "M6 at 6:13",
        &[
            "int a[8];\n#pragma xmp nodes p[2]\n#pragma xmp template t[8]\n#pragma xmp distribute t[cyclic] onto p\n#pragma xmp align a[i] with t[i]\n#pragma xmp shadow a[1]\nint main() {}",
        ],
    ),
    ("M10 at 1:17", &["int a[4194304], b[1];\nint main() {}"]),
    ("M10 at 1:20", &["int a[2048][2048], x[1];\nint main() {}"]),
    (
        "M10 at 2:18",
        &["int a[4194304];\nint main() { int b[1]; }"],
    ),
];

// Whole programs in parentheses: bounds, positions, nodes counted from 1, and the same form for a name as in its own directive.
const PARENTHESES: [Alike; 15] = [
    (
        "",
        &[
            "#pragma xmp nodes p(4)\nint main() {}",
            "#pragma xmp nodes p(*)\nint main() {}",
            "int a[10];\n#pragma xmp nodes p(4)\n#pragma xmp template t(-3:6)\n#pragma xmp distribute t(block) onto p\n#pragma xmp align a[k] with t(k-3)\nint main() {\nint i, s;\n#pragma xmp loop (i) on t(i-3) reduction(+:s)\nfor (i = 0; i < 10; i++) s += a[i];\n#pragma xmp bcast (s) from p(1)\n#pragma xmp task on p(2:4)\ns = 1;\n}",
            "int a[8];\n#pragma xmp nodes p(2)\n#pragma xmp template t(0:7, 8)\n#pragma xmp distribute t(cyclic(2), *) onto p\nint main() {}",
            "#pragma xmp nodes p(1)\n#pragma xmp template t(-4194304:-1)\n#pragma xmp distribute t(block) onto p\nint main() {}",
        ],
    ),
    // a set in parentheses has nodes 1 to the size
    (
        "M8 at 3:13",
        &[
            "#pragma xmp nodes p(4)\nint main() {\n#pragma xmp task on p(0)\n;\n}",
            "#pragma xmp nodes p(4)\nint main() {\n#pragma xmp task on p(5)\n;\n}",
            "#pragma xmp nodes p(4)\nint main() {\n#pragma xmp task on p(3:2)\n;\n}",
        ],
    ),
    (
        "N3 at 3:21",
        &[
            "#pragma xmp nodes p(4)\nint main() {\n#pragma xmp task on p[0]\n;\n}",
            "#pragma xmp nodes p[4]\nint main() {\n#pragma xmp task on p(1)\n;\n}",
            "#pragma xmp nodes p(4)\nint main() {\n#pragma xmp task on p(1, 1)\n;\n}",
        ],
    ),
    (
        "N3 at 3:24",
        &[
            "#pragma xmp nodes p(4)\n#pragma xmp template t(8)\n#pragma xmp distribute t[block] onto p\nint main() {}",
            "#pragma xmp nodes p[4]\n#pragma xmp template t[8]\n#pragma xmp distribute t(block) onto p\nint main() {}",
        ],
    ),
    // a part of a nodes array
    (
        "N9 at 2:13",
        &[
            "#pragma xmp nodes p[4]\n#pragma xmp nodes q[2] = p[0:2]\nint main() {}",
            "#pragma xmp nodes p(4)\n#pragma xmp nodes q(2) = p(1:2)\nint main() {}",
        ],
    ),
    (
        "N9 at 1:13",
        &["#pragma xmp nodes q(2) = p(1:2)\nint main() {}"],
    ),
    (
        "M2 at 2:13",
        &[
            "#pragma xmp nodes p(1)\n#pragma xmp template t(3:2)\n#pragma xmp distribute t(block) onto p\nint main() {}",
            "#pragma xmp nodes p(1)\n#pragma xmp template t(4194305:4194306)\n#pragma xmp distribute t(block) onto p\nint main() {}",
            "#pragma xmp nodes p(1)\n#pragma xmp template t(0:8388609)\n#pragma xmp distribute t(block) onto p\nint main() {}",
        ],
    ),
    ("M1 at 1:13", &["#pragma xmp nodes p(4, 5)\nint main() {}"]),
    (
        "M3 at 3:13",
        &[
            "#pragma xmp nodes p(4)\n#pragma xmp template t(8)\n#pragma xmp distribute t(*) onto p\nint main() {}",
        ],
    ),
    (
        "M5 at 5:13",
        &[
            "int a[10];\n#pragma xmp nodes p(4)\n#pragma xmp template t(0:9)\n#pragma xmp distribute t(block) onto p\n#pragma xmp align a[k] with t(k+1)\nint main() {}",
            "int a[10];\n#pragma xmp nodes p(4)\n#pragma xmp template t(10)\n#pragma xmp distribute t(block) onto p\n#pragma xmp align a[k] with t(k)\nint main() {}",
        ],
    ),
    (
        "N3 at 5:29",
        &[
            "int a[10];\n#pragma xmp nodes p(4)\n#pragma xmp template t(10)\n#pragma xmp distribute t(block) onto p\n#pragma xmp align a[k] with t[k+1]\nint main() {}",
        ],
    ),
    (
        "N3 at 6:21",
        &[
            "int i;\n#pragma xmp nodes p(4)\n#pragma xmp template t(10)\n#pragma xmp distribute t(block) onto p\nint main() {\n#pragma xmp loop on t[i]\nfor (i = 0; i < 8; i++) ;\n}",
        ],
    ),
    (
        "M7 at 6:13",
        &[
            "int i;\n#pragma xmp nodes p(4)\n#pragma xmp template t(10)\n#pragma xmp distribute t(block) onto p\nint main() {\n#pragma xmp loop on t(i+4194305)\nfor (i = 0; i < 8; i++) ;\n}",
        ],
    ),
    (
        "M8 at 4:13",
        &["#pragma xmp nodes p(4)\nint s;\nint main() {\n#pragma xmp bcast (s) from p(1:2)\n}"],
    ),
    // the word whose place is least stands before the nodes that a macro puts behind it
    (
        "M1 at 2:13",
        &["int main() {\n#pragma xmp barrier\n#pragma xmp barrier\n}"],
    ),
];

// Over a template of eight, on two nodes.
const OVER_EIGHT: Around = (
    "#pragma xmp nodes p[2]\n#pragma xmp template t[8]\n",
    "\nint main() {}",
);

// Forms, or none.
const DISTRIBUTIONS: [Alike; 7] = [
    (
        "",
        &[
            "#pragma xmp distribute t[cyclic(4194304)] onto p",
            "#pragma xmp distribute t[gblock({3, 5})] onto p",
        ],
    ),
    (
        "N3 at 3:24",
        &[
            "#pragma xmp distribute t[block][*] onto p",
            "#pragma xmp distribute p[block] onto p",
        ],
    ),
    ("N3 at 3:38", &["#pragma xmp distribute t[block] onto t"]),
    ("M3 at 2:13", &[""]),
    ("M3 at 3:13", &["#pragma xmp distribute t[*] onto p"]),
    (
        "M3 at 4:13",
        &["#pragma xmp distribute t[block] onto p\n#pragma xmp distribute t[cyclic] onto p"],
    ),
    (
        "M4 at 3:13",
        &[
            "#pragma xmp distribute t[cyclic(0)] onto p",
            "#pragma xmp distribute t[cyclic(4194305)] onto p",
            "#pragma xmp distribute t[gblock({8})] onto p",
            "#pragma xmp distribute t[gblock({9, -1})] onto p",
            "#pragma xmp distribute t[gblock({4294967299, 5})] onto p",
        ],
    ),
];

// Over arrays with one dimension.
const WITH_LISTS: Around = (
    "int a[8], b[9];\n#pragma xmp nodes p[2]\n#pragma xmp template t[8]\n#pragma xmp distribute t[block] onto p\n",
    "\nint main() {}",
);

// Aligns and shadows.
const ALIGNS: [Alike; 10] = [
    (
        "",
        &[
            "#pragma xmp align a[i] with t[i]",
            "#pragma xmp align a[i] with t[i]\n#pragma xmp shadow a[1]",
            "#pragma xmp align a[i] with t[i]\n#pragma xmp shadow a[0:8]",
        ],
    ),
    ("N1 at 5:31", &["#pragma xmp align a[i] with t[j]"]),
    ("N3 at 5:19", &["#pragma xmp align a[i][j] with t[i]"]),
    ("N3 at 5:29", &["#pragma xmp align a[i] with t[i][*]"]),
    ("N3 at 5:31", &["#pragma xmp align a[i] with t[a]"]),
    (
        "N3 at 6:20",
        &["#pragma xmp align a[i] with t[i]\n#pragma xmp shadow a[1][1]"],
    ),
    (
        "M5 at 5:13",
        &[
            "#pragma xmp align b[i] with t[i]",
            "#pragma xmp align a[i] with t[i+1]",
            "#pragma xmp align a[i] with t[i-1]",
            "#pragma xmp align a[i] with t[*]",
            "#pragma xmp align a[*] with t[*]",
            "#pragma xmp align a[i] with t[i+4294967296]",
        ],
    ),
    (
        "M5 at 6:13",
        &["#pragma xmp align a[i] with t[i]\n#pragma xmp align a[i] with t[i]"],
    ),
    (
        "M6 at 6:13",
        &[
            "#pragma xmp align a[i] with t[i]\n#pragma xmp shadow a[-1]",
            "#pragma xmp align a[i] with t[i]\n#pragma xmp shadow a[1:4194305]",
            "#pragma xmp align a[i] with t[i]\n#pragma xmp shadow b[1]",
            "#pragma xmp align a[i] with t[i]\n#pragma xmp shadow a[4194305:0]",
        ],
    ),
    (
        "M6 at 7:13",
        &["#pragma xmp align a[i] with t[i]\n#pragma xmp shadow a[1]\n#pragma xmp shadow a[1]"],
    ),
];

// Over an array with two dimensions.
const WITH_A_SQUARE: Around = (
    "int c[4][4];\n#pragma xmp nodes p[2]\n#pragma xmp template t[8]\n#pragma xmp distribute t[block] onto p\n",
    "\nint main() {}",
);

// Its aligns and shadows.
const SQUARES: [Alike; 4] = [
    (
        "",
        &[
            "#pragma xmp align c[*][j] with t[j+4]",
            "#pragma xmp align c[*][j] with t[j+4]\n#pragma xmp shadow c[0][1]",
        ],
    ),
    ("N2 at 5:24", &["#pragma xmp align c[i][i] with t[i]"]),
    ("M5 at 5:13", &["#pragma xmp align c[i][j] with t[i]"]),
    (
        "M6 at 6:13",
        &["#pragma xmp align c[*][j] with t[j+4]\n#pragma xmp shadow c[1][0]"],
    ),
];

// In main, over a template with two dimensions of which the first is distributed.
const AMONG_LOOPS: Around = (
    "int i, j, s, a[8][8]; long k;\n#pragma xmp nodes p[2]\n#pragma xmp template t[8][8]\n#pragma xmp distribute t[block][*] onto p\nint main() {\n",
    "\n}",
);

// Loop directives with their nests.
const LOOPS: [Alike; 5] = [
    (
        "",
        &[
            "#pragma xmp loop (i, j) on t[i][j]\nfor (i = 0; i < 8; i++) for (j = 0; j < 8; j++) a[i][j] = 1;",
            "#pragma xmp loop on t[i][j]\nfor (i = 0; i < 8; i++) { for (j = 0; j < 8; j++) a[i][j] = 1; }",
            "#pragma xmp loop (i) on t[i][*]\nfor (i = 0; i < 8; i++) for (j = 0; j < 8; j++) a[i][j] = 1;",
            "#pragma xmp loop on t[i+1][*] reduction(+:s)\nfor (i = 0; i < 8; i++) s += i;",
            "#pragma xmp loop on t[i][*]\nfor (i = 0; i < 8; i += 2) ;",
            "#pragma xmp loop on t[i][*]\nfor (i = 0; i < s; i++) ;",
        ],
    ),
    (
        "N3 at 6:21",
        &["#pragma xmp loop on t[i]\nfor (i = 0; i < 8; i++) ;"],
    ),
    (
        "N3 at 6:23",
        &["#pragma xmp loop on t[k][*]\nfor (i = 0; i < 8; i++) ;"],
    ),
    (
        "N3 at 6:41",
        &["#pragma xmp loop on t[i][*] reduction(+:a)\nfor (i = 0; i < 8; i++) ;"],
    ),
    (
        "M7 at 6:13",
        &[
            "#pragma xmp loop (j, i) on t[i][j]\nfor (i = 0; i < 8; i++) for (j = 0; j < 8; j++) a[i][j] = 1;",
            "#pragma xmp loop (i, j) on t[i][*]\nfor (i = 0; i < 8; i++) for (j = 0; j < 8; j++) a[i][j] = 1;",
            "#pragma xmp loop (i) on t[i][j]\nfor (i = 0; i < 8; i++) ;",
            "#pragma xmp loop (i, j) on t[i][j]\nfor (i = 0; i < 8; i++) { s = 1; for (j = 0; j < 8; j++) ; }",
            "#pragma xmp loop on t[*][i]\nfor (i = 0; i < 8; i++) ;",
            "#pragma xmp loop on t[i+4194305][*]\nfor (i = 0; i < 8; i++) ;",
            "#pragma xmp loop on t[i][i]\nfor (i = 0; i < 8; i++) ;",
            "#pragma xmp loop on t[i][*]\nfor (i = 0; i < s; i += 2) ;",
            "#pragma xmp loop on t[i][*]\nfor (i = 0; i <= s; i++) ;",
            "#pragma xmp loop on t[i][*]\nfor (i = 0; i < 8; i++) i = 1;",
            "#pragma xmp loop on t[i][*]\nfor (i = 0; i < s; i++) s = 1;",
        ],
    ),
];

// In main, on two by two nodes.
const ON_A_GRID: Around = (
    "int s, a[8], b[4][4];\n#pragma xmp nodes p[2][2]\nint main() {\n",
    "\n}",
);

// Sets of nodes, tasks and moves.
const SETS: [Alike; 10] = [
    (
        "",
        &[
            "#pragma xmp task on p[1][0]\ns = 1;",
            "#pragma xmp task on p[0:2][1]\ns = 1;",
            "#pragma xmp task on p\ns = 1;",
            "#pragma xmp bcast (s) from p[1][1]",
            "#pragma xmp tasks\n{\n#pragma xmp task on p[0][:]\ns = 1;\n#pragma xmp task on p[1][0]\ns = 2;\n}",
            "#pragma xmp gmove\na[0:4] = b[1][:];",
            "#pragma xmp gmove\na[:] = s;",
        ],
    ),
    ("N3 at 4:20", &["#pragma xmp bcast (a) from p[1][1]"]),
    ("N3 at 4:21", &["#pragma xmp task on p[0]\ns = 1;"]),
    ("N3 at 4:22", &["#pragma xmp reflect (s)"]),
    ("N3 at 5:1", &["#pragma xmp gmove\na[:] = b[:][:];"]),
    ("N3 at 5:8", &["#pragma xmp gmove\na[:] = b[:];"]),
    (
        "M8 at 4:13",
        &[
            "#pragma xmp task on p[2][0]\ns = 1;",
            "#pragma xmp task on p[-1][0]\ns = 1;",
            "#pragma xmp task on p[0:0][0]\ns = 1;",
            "#pragma xmp task on p[1:2][0]\ns = 1;",
            "#pragma xmp bcast (s) from p[1][0:2]",
        ],
    ),
    (
        "M9 at 8:13",
        &[
            "#pragma xmp tasks\n{\n#pragma xmp task on p[0][:]\ns = 1;\n#pragma xmp task on p[:][1]\ns = 2;\n}",
            "#pragma xmp tasks\n{\n#pragma xmp task on p[0][0]\ns = 1;\n#pragma xmp task on p[0][0]\ns = 2;\n}",
        ],
    ),
    (
        "M9 at 10:13",
        &[
            "#pragma xmp tasks\n{\n#pragma xmp task on p[0][0]\ns = 1;\n#pragma xmp task on p[1][1]\ns = 2;\n#pragma xmp task on p\ns = 3;\n}",
        ],
    ),
    ("S1 at 5:8", &["#pragma xmp gmove\na[:] = 1;"]),
];

#[test]
fn mappings_are_judged(rt: HostRuntime) -> Result<(), Fail> {
    check(&rt, rt.alloc(), PROGRAM, &MAPPINGS)
}

#[test]
fn parentheses_are_judged(rt: HostRuntime) -> Result<(), Fail> {
    check(&rt, rt.alloc(), PROGRAM, &PARENTHESES)
}

#[test]
fn distributions_are_judged(rt: HostRuntime) -> Result<(), Fail> {
    check(&rt, rt.alloc(), OVER_EIGHT, &DISTRIBUTIONS)
}

#[test]
fn aligns_and_shadows_are_judged(rt: HostRuntime) -> Result<(), Fail> {
    check(&rt, rt.alloc(), WITH_LISTS, &ALIGNS)
}

#[test]
fn a_square_is_judged(rt: HostRuntime) -> Result<(), Fail> {
    check(&rt, rt.alloc(), WITH_A_SQUARE, &SQUARES)
}

#[test]
fn loops_are_judged(rt: HostRuntime) -> Result<(), Fail> {
    check(&rt, rt.alloc(), AMONG_LOOPS, &LOOPS)
}

#[test]
fn sets_of_nodes_are_judged(rt: HostRuntime) -> Result<(), Fail> {
    check(&rt, rt.alloc(), ON_A_GRID, &SETS)
}
