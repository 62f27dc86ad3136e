// Texts of programs, and what becomes of them.
use crate::texts::{letter, typed};
use std::alloc::Global;
use std::mem::drop;
use std::test::Fail;
use xmp_base::Fault;
use xmp_prog::{Kind, Prog};

// A program by its number of nodes and whether it has a coarray; a rule by its letter, its number, and the line and column where it breaks.
#[derive(Clone, Copy, PartialEq, Eq, Debug)]
enum Is {
    Program(u32, bool),
    Breaks(char, u16, u32, u32),
    NoMemory,
}

// A typed program by what the rows say of it.
fn program(p: &Prog) -> Is {
    Is::Program(p.nodes(), p.kind() == Kind::Coarray)
}

// What becomes of a text, as the rows say it.
fn judged(alloc: Global, text: &str, given: Option<u32>) -> Is {
    match typed(alloc, text, given) {
        Ok(found) => {
            let is = program(&found);
            drop(found);
            is
        }
        Err(Fault::NoMemory) => Is::NoMemory,
        Err(Fault::Refused(r)) => Is::Breaks(letter(r.phase), r.rule, r.at.line, r.at.column),
    }
}

// Texts for a number of nodes or none, and what becomes of each.
const TEXTS: [(&str, Option<u32>, Is); 14] = [
    (
        "#pragma xmp nodes p[3]\nint main() {}",
        Some(3),
        Is::Program(3, false),
    ),
    (
        "#pragma xmp nodes p[3]\nint main() {}",
        None,
        Is::Program(3, false),
    ),
    (
        "#pragma xmp nodes p[3]\nint main() {}",
        Some(4),
        Is::Breaks('M', 1, 1, 13),
    ),
    (
        "#pragma xmp nodes p[*]\nint main() {}",
        Some(16),
        Is::Program(16, false),
    ),
    (
        "#pragma xmp nodes p[*]\nint main() {}",
        None,
        Is::Program(1, false),
    ),
    ("int main() {}", Some(5), Is::Program(5, false)),
    ("int main() {}", None, Is::Program(1, false)),
    (
        "int c[4]:[*];\nint main() {}",
        Some(2),
        Is::Program(2, true),
    ),
    (
        "int c[2097152]:[*], d[1]:[*];\nint main() {}",
        Some(2),
        Is::Breaks('M', 10, 1, 21),
    ),
    (
        "int c[2097152]:[*], d[1]:[*];\nint main() {}",
        None,
        Is::Program(1, true),
    ),
    ("int x = ;\nint main() {}", None, Is::Breaks('S', 1, 1, 9)),
    (
        "int x = 9223372036854775808;\nint main() {}",
        None,
        Is::Breaks('L', 4, 1, 9),
    ),
    (
        "int main() { long x; x = 9223372036854775807; x = 2147483648; }",
        None,
        Is::Program(1, false),
    ),
    (
        "#pragma xmp nodes p[4]\n#pragma xmp template t[8]\n#pragma xmp distribute t[block] onto p\nint a[8];\n#pragma xmp align a[i] with t[i]\n#pragma xmp shadow a[1:1]\nint main() {\nint i, s;\n#pragma xmp loop (i) on t[i] reduction(+:s)\nfor (i = 0; i < 8; i++) s += a[i];\nprintf(\"%d\\n\", s);\n}",
        Some(4),
        Is::Program(4, false),
    ),
];

#[test]
fn texts_are_programs_or_refused(rt: HostRuntime) -> Result<(), Fail> {
    for (text, given, expected) in TEXTS {
        assert_eq!(rt; judged(rt.alloc(), text, given), expected);
    }
    Ok(())
}
