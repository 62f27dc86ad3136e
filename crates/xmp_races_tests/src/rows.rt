// Texts of coarray programs, and on so many images the first rule that breaks in each, marked by hand.
ghost use Rattle.std.specs.Prelude.{◌≡◌};
ghost use Rattle.xmp_parts.specs.Narrow.{is_count};

use std::alloc::Global;
use std::mem::drop;
use std::test::Fail;
use xmp_base::{Fault, NoMemory, Phase};
use xmp_elab::{elaborate, text_numbers_lie};
use xmp_prog::Prog;
use xmp_races::check;
use xmp_source::tree_of;

/// No rule breaks, or this one of coarrays at this line and column; or the text came to no verdict of coarrays.
#[derive(Clone, Copy, PartialEq, Eq, Debug)]
enum Is {
    Right,
    Breaks(u16, u32, u32),
    NoProgram,
    NoMemory,
}

const HEAD: &str = "int x[4]:[*], y[2][3]:[*], st, s, k, j, a[4];\nint main() {\n\
int me = xmp_node_num(), n = xmp_num_nodes();\n";

const END: &str = "}\n";

// Statements behind HEAD, of which the first stands in line 4.
const ROWS: [(&str, u32, Is); 61] = [
    // C1: where a sync stands, and how many phases there are
    ("xmp_sync_all(&st);\n", 2, Is::Right),
    ("if (me == 0) xmp_sync_all(&st);\n", 2, Is::Breaks(1, 4, 14)),
    (
        "if (n == 2) { xmp_sync_all(&st); }\n",
        2,
        Is::Breaks(1, 4, 15),
    ),
    ("for (k = 0; k < n; k++) xmp_sync_all(&st);\n", 2, Is::Right),
    (
        "for (k = 0; k < me; k++) xmp_sync_all(&st);\n",
        2,
        Is::Breaks(1, 4, 26),
    ),
    (
        "for (k = 0; k < me; k++) xmp_sync_all(&st);\n",
        1,
        Is::Right,
    ),
    (
        "for (k = 0; k < s; k++) xmp_sync_all(&st);\n",
        2,
        Is::Breaks(1, 4, 25),
    ),
    (
        "for (k = 0; k < 0; k++) { { xmp_sync_all(&st); } }\n",
        2,
        Is::Right,
    ),
    (
        "for (k = 0; k < 65536; k++)\nfor (j = 0; j < 65536; j++)\nxmp_sync_all(&st);\n",
        2,
        Is::Breaks(1, 6, 1),
    ),
    (
        "for (k = 0; k < 65535; k++)\nfor (j = 0; j < 65537; j++)\nxmp_sync_all(&st);\n",
        2,
        Is::Right,
    ),
    (
        "for (k = 0; k < 65535; k++)\nfor (j = 0; j < 65537; j++)\nxmp_sync_all(&st);\nxmp_sync_all(&st);\n",
        2,
        Is::Breaks(1, 7, 1),
    ),
    (
        "for (k = 0; k < 2000000000; k++)\nfor (j = 0; j < 0; j++)\nfor (s = 0; s < 2000000000; s++)\nxmp_sync_all(&st);\n",
        2,
        Is::Right,
    ),
    // C2: one access against itself, and two
    ("x[0]:[0] = me;\n", 2, Is::Breaks(2, 4, 1)),
    ("x[0]:[0] = me;\n", 1, Is::Right),
    ("x[0]:[0] += 1;\n", 2, Is::Breaks(2, 4, 1)),
    ("x[0]++;\n", 2, Is::Right),
    ("s = x[0]:[0];\n", 2, Is::Right),
    (
        "x[0]:[(me + 1) % n] = me;\nxmp_sync_all(&st);\nprintf(\"%d\\n\", x[0]);\n",
        3,
        Is::Right,
    ),
    (
        "x[0]:[(me + 1) % n] = me;\nprintf(\"%d\\n\", x[0]);\n",
        3,
        Is::Breaks(2, 4, 1),
    ),
    (
        "s = x[0];\nx[0]:[(me + 1) % n] = me;\n",
        3,
        Is::Breaks(2, 4, 5),
    ),
    (
        "x[0]:[(me + 1) % n] = 1;\ny[0][0] = 2;\na[0] = me;\n",
        3,
        Is::Right,
    ),
    // subscripts by image, of any value, and in two dimensions
    ("x[me]:[0] = me;\n", 2, Is::Right),
    ("x[me / 2]:[0] = me;\n", 2, Is::Breaks(2, 4, 1)),
    ("x[s]:[0] = me;\n", 2, Is::Breaks(2, 4, 1)),
    ("x[s] = me;\n", 2, Is::Right),
    (
        "y[me][0]:[0] = 1;\ny[1][2]:[0] = 1;\n",
        2,
        Is::Breaks(2, 5, 1),
    ),
    ("y[s][me]:[0] = 1;\n", 3, Is::Right),
    // on both sides of a sync, and round the end of a loop
    (
        "if (me == 0) x[0]:[0] = 1;\nxmp_sync_all(&st);\nif (me == 1) x[0]:[0] = 2;\nxmp_sync_all(&st);\nif (me == 0) printf(\"%d\\n\", x[0]);\n",
        2,
        Is::Right,
    ),
    (
        "for (k = 0; k < 3; k++) {\ns = x[0];\nxmp_sync_all(&st);\nx[0]:[(me + 1) % n] = k;\n}\n",
        2,
        Is::Breaks(2, 5, 5),
    ),
    (
        "for (k = 0; k < 3; k++) {\ns = x[0];\nxmp_sync_all(&st);\nx[0]:[(me + 1) % n] = k;\nxmp_sync_all(&st);\n}\n",
        2,
        Is::Right,
    ),
    (
        "x[0]:[(me + 1) % n] = 1;\nfor (k = 0; k < 3; k++) xmp_sync_all(&st);\ns = x[0];\n",
        2,
        Is::Breaks(2, 4, 1),
    ),
    (
        "x[0]:[(me + 1) % n] = 1;\nxmp_sync_all(&st);\nfor (k = 0; k < 3; k++) xmp_sync_all(&st);\ns = x[0];\n",
        2,
        Is::Right,
    ),
    // which images come to an access
    (
        "if (me == 0) x[1]:[1] = 5;\nif (me == 1) s = x[1];\n",
        2,
        Is::Breaks(2, 4, 14),
    ),
    (
        "s = me == 0 ? x[1]:[1] : 3;\nif (me == 0) x[1]:[1] = 5;\n",
        2,
        Is::Right,
    ),
    (
        "s = me == 0 ? 3 : x[1]:[1];\nif (me == 0) x[1]:[1] = 5;\n",
        2,
        Is::Breaks(2, 4, 19),
    ),
    (
        "if (me == 0) x[1]:[1] = 5;\ns = me == 0 && x[1]:[1];\n",
        2,
        Is::Breaks(2, 4, 14),
    ),
    ("if (me < 2) if (me > 0) x[0]:[0] = 1;\n", 3, Is::Right),
    (
        "if (me == 0) s = 1; else x[0]:[0] = 1;\n",
        3,
        Is::Breaks(2, 4, 26),
    ),
    ("if (me == 0) s = 1; else x[0]:[0] = 1;\n", 2, Is::Right),
    ("if (s == 0) x[0]:[0] = 1;\n", 2, Is::Breaks(2, 4, 13)),
    // image variables
    ("int v = me;\nx[v]:[0] = 1;\n", 2, Is::Right),
    (
        "int v = me;\nx[v]:[0] = 1;\nv = 0;\n",
        2,
        Is::Breaks(2, 5, 1),
    ),
    ("int v = me + 1, w = v % n;\nx[w]:[0] = 1;\n", 3, Is::Right),
    ("int v = x[0];\nx[v]:[0] = 1;\n", 2, Is::Breaks(2, 4, 9)),
    (
        "for (k = 0; k < 2; k++) { int v = me; x[v]:[0] = 1; }\n",
        2,
        Is::Right,
    ),
    ("int v = 1 / me;\nx[0]:[v] = 1;\n", 2, Is::Breaks(3, 5, 1)),
    // C3: the image of an access
    ("x[me]:[2] = 5;\n", 2, Is::Breaks(3, 4, 1)),
    ("x[me]:[0 - 1] = 5;\n", 2, Is::Breaks(3, 4, 1)),
    ("x[0]:[2] = 1;\n", 2, Is::Breaks(2, 4, 1)),
    ("x[0]:[s] = 1;\n", 2, Is::Breaks(3, 4, 1)),
    ("x[0]:[me - 1] = 1;\n", 2, Is::Breaks(3, 4, 1)),
    ("if (me > 0) x[0]:[me - 1] = 1;\n", 2, Is::Right),
    ("for (k = 0; k < n; k++) s += x[0]:[k];\n", 2, Is::Right),
    (
        "for (k = 0; k < 3; k++) s += x[0]:[k];\n",
        2,
        Is::Breaks(3, 4, 30),
    ),
    ("for (k = 0; k < n; k++) x[me]:[k] = 1;\n", 2, Is::Right),
    (
        "for (k = 0; k < n; k++) x[0]:[k] = 1;\n",
        2,
        Is::Breaks(2, 4, 25),
    ),
    (
        "for (k = 2; k < 5; k++) x[0]:[k] = 1;\n",
        2,
        Is::Breaks(3, 4, 25),
    ),
    // C4 and C5
    ("while (s < 3) s++;\n", 2, Is::Breaks(4, 4, 1)),
    ("for (k = 0; k != 3; k++) s++;\n", 2, Is::Breaks(4, 4, 1)),
    ("scanf(\"%d\", &s);\n", 2, Is::Breaks(5, 4, 1)),
    ("scanf(\"%d\", &x[0]);\n", 2, Is::Breaks(5, 4, 1)),
];

// Whole texts.
const TEXTS: [(&str, u32, Is); 6] = [
    (
        "int x[1]:[*];\nint f(int n) { while (n > 0) n = n - 1; return n; }\nint main() {}\n",
        2,
        Is::Breaks(4, 2, 16),
    ),
    (
        "int x[1]:[*];\nint f(int n) { return n; }\nint main() { x[0] = f(2); }\n",
        2,
        Is::Right,
    ),
    (
        "int x[1]:[*], s;\n#pragma xmp nodes p[2]\nint main() {\n#pragma xmp bcast (s) from p[0]\n}\n",
        2,
        Is::Breaks(5, 4, 13),
    ),
    (
        "int x[1]:[*], s;\n#pragma xmp nodes p[2]\nint main() {\n#pragma xmp task on p[0]\ns = 1;\n}\n",
        2,
        Is::Breaks(5, 4, 13),
    ),
    (
        "int x[1]:[*];\n#pragma xmp nodes p[2]\nint main() {\n#pragma xmp barrier\n}\n",
        2,
        Is::Breaks(5, 4, 13),
    ),
    (
        "int x[1]:[*], s = 1;\nint main() {\nx[0] = s;\n}\n",
        2,
        Is::Right,
    ),
];

fn is_count(given: Option<u32>) -> bool
    ensures { result ≡ is_count given }
{
    match given {
        Some(count) => 1 <= count && count <= 16,
        None => true,
    }
}

// The typed program of a text that is one.
fn typed(alloc: Global, text: &str, given: Option<u32>) -> Result<Prog, Fault> {
    if text.len() > 1048576 || !is_count(given) {
        return Err(Fault::NoMemory);
    }
    let tree = tree_of(alloc, text.as_bytes())?;
    text_numbers_lie();
    elaborate(alloc, &tree, given)
}

fn judged(alloc: Global, program: &Prog) -> Is {
    match check(alloc, program) {
        Ok(None) => Is::Right,
        Ok(Some(r)) => match r.phase {
            Phase::Coarray => Is::Breaks(r.rule, r.at.line, r.at.column),
            _ => Is::NoProgram,
        },
        Err(NoMemory) => Is::NoMemory,
    }
}

// The verdict on a text, for a number of images.
fn verdict(alloc: Global, text: &str, images: u32) -> Is {
    match typed(alloc, text, Some(images)) {
        Ok(program) => {
            let is = judged(alloc, &program);
            drop(program);
            is
        }
        Err(Fault::Refused(_)) => Is::NoProgram,
        Err(Fault::NoMemory) => Is::NoMemory,
    }
}

#[test]
fn statements_break_the_first_rule(rt: HostRuntime) -> Result<(), Fail> {
    for (statements, images, expected) in ROWS {
        let text = format!(in rt.alloc(); "{HEAD}{statements}{END}")?;
        assert_eq!(rt; verdict(rt.alloc(), text.as_str(), images), expected);
    }
    Ok(())
}

#[test]
fn texts_break_the_first_rule(rt: HostRuntime) -> Result<(), Fail> {
    for (text, images, expected) in TEXTS {
        assert_eq!(rt; verdict(rt.alloc(), text, images), expected);
    }
    Ok(())
}
