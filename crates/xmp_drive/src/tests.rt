// Texts, and the verdict on each: which phase speaks first, at which place, and by which rule.
ghost use Rattle.std.specs.Prelude.{◌≡◌};
ghost use Rattle.xmp_parts.specs.Narrow.{is_count};

use crate::accepted::Accepted;
use crate::verdict::compile;
use std::alloc::Global;
use std::mem::drop;
use std::test::Fail;
use xmp_base::{Fault, Phase};

fn is_count(given: Option<u32>) -> bool
    ensures { result ≡ is_count given }
{
    match given {
        Some(count) => 1 <= count && count <= 16,
        None => true,
    }
}

/// A program by its number of nodes; a rule by its letter, its number, and the line and column where it breaks.
#[derive(Clone, Copy, PartialEq, Eq, Debug)]
enum Is {
    Program(u32),
    Breaks(char, u16, u32, u32),
    NoMemory,
    NotAsked,
}

fn letter(phase: Phase) -> char {
    match phase {
        Phase::Lex => 'L',
        Phase::Macro => 'E',
        Phase::Syntax => 'S',
        Phase::Procedure => 'Q',
        Phase::Subset => 'P',
        Phase::Names => 'N',
        Phase::Mapping => 'M',
        Phase::Flow => 'F',
        Phase::Coarray => 'C',
        Phase::Script => 'O',
    }
}

fn program(found: &Accepted) -> Is {
    Is::Program(found.prog().nodes())
}

// The verdict on a text, for a number of nodes or none.
fn judged(alloc: Global, text: &[u8], given: Option<u32>) -> Is {
    if text.len() > 1048576 || !is_count(given) {
        return Is::NotAsked;
    }
    match compile(alloc, text, given) {
        Ok(found) => {
            let is = program(&found);
            drop(found);
            is
        }
        Err(Fault::NoMemory) => Is::NoMemory,
        Err(Fault::Refused(r)) => Is::Breaks(letter(r.phase), r.rule, r.at.line, r.at.column),
    }
}

const SQUARES: &[u8] =
    b"int a[10], i, s;\n#pragma xmp nodes p[4]\n#pragma xmp template t[10]\n#pragma xmp distribute t[block] onto p\n#pragma xmp align a[k] with t[k]\nint main(void) {\n#pragma xmp loop (i) on t[i]\n  for (i = 0; i < 10; i++) a[i] = i * i;\n#pragma xmp loop (i) on t[i] reduction(+:s)\n  for (i = 0; i < 10; i++) s += a[i];\n#pragma xmp task on p[0]\n  printf(\"%d\\n\", s);\n  return 0;\n}\n";

const STENCIL: &[u8] =
    b"#define N 8\nint a[N], b[N], i, s;\n#pragma xmp nodes p[4]\n#pragma xmp template t[N]\n#pragma xmp distribute t[block] onto p\n#pragma xmp align a[k] with t[k]\n#pragma xmp align b[k] with t[k]\n#pragma xmp shadow a[1]\nint main() {\n#pragma xmp loop (i) on t[i]\n  for (i = 0; i < N; i++) a[i] = i;\n#pragma xmp reflect (a)\n#pragma xmp loop (i) on t[i] reduction(+:s)\n  for (i = 1; i < N - 1; i++) { b[i] = a[i-1] + a[i+1]; s += b[i]; }\n#pragma xmp task on p[0]\n  printf(\"%d\\n\", s);\n}\n";

const VERDICTS: [(&[u8], Option<u32>, Is); 50] = [
    // texts that are no program from their start, or whose end comes too early
    (b"", None, Is::Breaks('S', 1, 1, 1)),
    (b"#pragma xmp nodes p[", None, Is::Breaks('S', 1, 1, 21)),
    (b"/* x", None, Is::Breaks('L', 2, 1, 1)),
    (b"#define N 1\n#define N 1", None, Is::Breaks('E', 1, 2, 9)),
    // an earlier phase speaks first, wherever a later one breaks
    (
        b"#define N 1\n#define N 1\nint x = @;\nint main() {}",
        None,
        Is::Breaks('L', 1, 3, 9),
    ),
    (
        b"int ;\n#define N 1\n#define N 2\nint main() {}",
        None,
        Is::Breaks('E', 1, 3, 9),
    ),
    (
        b"int x = y;\nint main() {\n;\n;\n}}",
        None,
        Is::Breaks('S', 1, 5, 2),
    ),
    (
        b"#pragma xmp nodes p[17]\nint ;",
        None,
        Is::Breaks('S', 1, 2, 5),
    ),
    (
        b"int c[4]:[*];\nint main() { }}",
        Some(2),
        Is::Breaks('S', 1, 2, 15),
    ),
    (
        b"#pragma xmp nodes p[17]\nint main() {\n;\n;\n;\n;\n;\n;\nx = 1;\n}",
        None,
        Is::Breaks('N', 1, 9, 1),
    ),
    (
        b"int c[4]:[*];\nint main() { x = 1; }",
        Some(2),
        Is::Breaks('N', 1, 2, 14),
    ),
    (
        b"int c[4]:[*];\n#pragma xmp nodes p[17]\nint main() {}",
        None,
        Is::Breaks('M', 1, 2, 13),
    ),
    (
        b"int c[2097152]:[*];\nint main() {}",
        Some(3),
        Is::Breaks('M', 10, 1, 5),
    ),
    // the least place of a phase, whichever rule breaks there
    (b"int f() { return x; }", None, Is::Breaks('N', 7, 1, 5)),
    (
        b"int main() { return 0; x = 1; }",
        None,
        Is::Breaks('N', 7, 1, 14),
    ),
    (
        b"int a[1][1][1][y];\nint main() {}",
        None,
        Is::Breaks('N', 8, 1, 5),
    ),
    (
        b"int a[2048][2048], x[1];\n#pragma xmp nodes p[17]\nint main() {}",
        None,
        Is::Breaks('M', 10, 1, 20),
    ),
    // the least rule at one place, and the same place with the greater rule alone
    (b"int a[x];\nint main() {}", None, Is::Breaks('N', 1, 1, 7)),
    (
        b"int x, a[x];\nint main() {}",
        None,
        Is::Breaks('N', 4, 1, 10),
    ),
    (
        b"int a;\nint a[0];\nint main() {}",
        None,
        Is::Breaks('N', 2, 2, 5),
    ),
    (
        b"int g;\nint f(int n) { return g(1); }\nint main() {}",
        None,
        Is::Breaks('N', 3, 2, 23),
    ),
    (
        b"#pragma xmp template t[0]\nint main() {}",
        None,
        Is::Breaks('M', 1, 1, 13),
    ),
    (
        b"#pragma xmp nodes p[1]\n#pragma xmp template t[0]\nint main() {}",
        None,
        Is::Breaks('M', 2, 2, 13),
    ),
    // coarrays
    (
        b"int c[4]:[*];\nint main() {}",
        None,
        Is::Breaks('C', 9, 1, 5),
    ),
    (
        b"int a, b[3], x[2]:[*], y[2]:[*];\nint main() {}",
        Some(4),
        Is::Breaks('C', 9, 1, 14),
    ),
    (
        b"int a[2];\nint main() {\nint c[1]:[*], d;\n}",
        Some(16),
        Is::Breaks('C', 9, 3, 5),
    ),
    (
        b"int main() {\nint a[2], c[1]:[*];\nint d[1]:[*];\n}",
        None,
        Is::Breaks('C', 9, 2, 11),
    ),
    (
        b"int c[2097152]:[*];\nint main() {}",
        Some(2),
        Is::Breaks('C', 9, 1, 5),
    ),
    (
        b"int x[1]:[*], st;\nint main() {\nint me = xmp_node_num(), n = xmp_num_nodes();\nx[0]:[(me + 1) % n] = me;\nxmp_sync_all(&st);\nprintf(\"%d\\n\", x[0]);\n}",
        Some(3),
        Is::Breaks('C', 9, 1, 5),
    ),
    (
        b"int c[4];\nint main() { return xmp_node_num(); }",
        Some(2),
        Is::Breaks('N', 1, 2, 21),
    ),
    // reads of copies, and what speaks before them; the least rule at one place
    (
        b"#define N 8\nint a[N], b[N], i, s;\n#pragma xmp nodes p[4]\n#pragma xmp template t[N]\n#pragma xmp distribute t[block] onto p\n#pragma xmp align a[k] with t[k]\n#pragma xmp align b[k] with t[k]\n#pragma xmp shadow a[1]\nint main() {\n#pragma xmp loop (i) on t[i]\n  for (i = 0; i < N; i++) a[i] = i;\n#pragma xmp loop (i) on t[i] reduction(+:s)\n  for (i = 1; i < N - 1; i++) { b[i] = a[i-1] + a[i+1]; s += b[i]; }\n#pragma xmp task on p[0]\n  printf(\"%d\\n\", s);\n}\n",
        None,
        Is::Breaks('F', 3, 13, 40),
    ),
    (
        b"#define N 8\nint a[N], b[N], i, s;\n#pragma xmp nodes p[4]\n#pragma xmp template t[N]\n#pragma xmp distribute t[block] onto p\n#pragma xmp align a[k] with t[k]\n#pragma xmp align b[k] with t[k]\n#pragma xmp shadow a[1]\nint main() {\n#pragma xmp loop (i) on t[i]\n  for (i = 0; i < N; i++) a[i] = i;\n#pragma xmp reflect (a)\n#pragma xmp loop (i) on t[i] reduction(+:s)\n  for (i = 1; i < N - 1; i++) { a[i] = a[i-1] + 1; s += a[i]; }\n#pragma xmp task on p[0]\n  printf(\"%d\\n\", s);\n}\n",
        None,
        Is::Breaks('F', 4, 14, 40),
    ),
    (
        b"#define N 8\nint a[N], b[N], i, s, x;\n#pragma xmp nodes p[4]\n#pragma xmp template t[N]\n#pragma xmp distribute t[block] onto p\n#pragma xmp align a[k] with t[k]\n#pragma xmp align b[k] with t[k]\n#pragma xmp shadow a[1]\nint main() {\n#pragma xmp loop (i) on t[i]\n  for (i = 0; i < N; i++) a[i] = i;\n#pragma xmp reflect (a)\n  for (x = 0; x < 2; x++) {\n#pragma xmp loop (i) on t[i]\n  for (i = 1; i < 7; i++) b[i] = a[i-1];\n#pragma xmp loop (i) on t[i]\n  for (i = 1; i < 7; i++) a[i] = b[i];\n  }\n#pragma xmp task on p[0]\n  printf(\"%d\\n\", s);\n}\n",
        None,
        Is::Breaks('F', 3, 15, 34),
    ),
    (
        b"int main() { printf(\"%d\\n\", 7); }",
        Some(2),
        Is::Breaks('F', 7, 1, 14),
    ),
    (
        b"#define N 8\nint a[N], b[N], i, s;\n#pragma xmp nodes p[4]\n#pragma xmp template t[N]\n#pragma xmp distribute t[gblock({1, 2})] onto p\n#pragma xmp align a[k] with t[k]\n#pragma xmp align b[k] with t[k]\n#pragma xmp shadow a[1]\nint main() {\n#pragma xmp loop (i) on t[i]\n  for (i = 0; i < N; i++) a[i] = i;\n#pragma xmp loop (i) on t[i] reduction(+:s)\n  for (i = 1; i < N - 1; i++) { b[i] = a[i-1] + a[i+1]; s += b[i]; }\n#pragma xmp task on p[0]\n  printf(\"%d\\n\", s);\n}\n",
        None,
        Is::Breaks('M', 4, 5, 13),
    ),
    (
        b"#pragma xmp nodes p[2]\n#pragma xmp template t[8]\n#pragma xmp distribute t[block] onto p\nint i, s;\nint f(int n) { while (n > 1) n -= 1; return n; }\nint main() {\n#pragma xmp loop (i) on t[i]\nfor (i = f(1); i < 8; i++) ;\n}",
        None,
        Is::Breaks('F', 9, 8, 10),
    ),
    (
        b"#pragma xmp nodes p[2]\n#pragma xmp template t[8]\n#pragma xmp distribute t[block] onto p\nint i, s;\nint f(int n) { while (n > 1) n -= 1; return n; }\nint main() {\n#define R s, s\n#pragma xmp task on p[0]\ns = 1;\n#pragma xmp loop (i) on t[i] reduction(+:R)\nfor (i = 0; i < 8; i++) s += 1;\n}",
        None,
        Is::Breaks('F', 1, 10, 42),
    ),
    (
        b"#pragma xmp nodes p[2]\n#pragma xmp template t[8]\n#pragma xmp distribute t[block] onto p\nint i, s;\nint f(int n) { while (n > 1) n -= 1; return n; }\nint main() {\n#define R s, s\n#pragma xmp loop (i) on t[i] reduction(+:R)\nfor (i = 0; i < 8; i++) s += 1;\n}",
        None,
        Is::Breaks('F', 5, 8, 42),
    ),
    (
        b"int main() { printf(\"%d\\n\", 7); }",
        Some(1),
        Is::Program(1),
    ),
    (
        b"#define N 8\nint a[N], b[N], i, s, x;\n#pragma xmp nodes p[4]\n#pragma xmp template t[N]\n#pragma xmp distribute t[block] onto p\n#pragma xmp align a[k] with t[k]\n#pragma xmp align b[k] with t[k]\n#pragma xmp shadow a[1]\nint main() {\n#pragma xmp loop (i) on t[i]\n  for (i = 0; i < N; i++) a[i] = i;\n  for (x = 0; x < 2; x++) {\n#pragma xmp reflect (a)\n#pragma xmp loop (i) on t[i]\n  for (i = 1; i < 7; i++) b[i] = a[i-1];\n#pragma xmp loop (i) on t[i]\n  for (i = 1; i < 7; i++) a[i] = b[i];\n  }\n#pragma xmp task on p[0]\n  printf(\"%d\\n\", s);\n}\n",
        None,
        Is::Program(4),
    ),
    // numbers of nodes
    (
        b"#pragma xmp nodes p[3]\nint main() {}",
        Some(4),
        Is::Breaks('M', 1, 1, 13),
    ),
    (
        b"#pragma xmp nodes p[3]\nint main() {}",
        Some(3),
        Is::Program(3),
    ),
    (
        b"#pragma xmp nodes p[3]\nint main() {}",
        None,
        Is::Program(3),
    ),
    (
        b"#pragma xmp nodes p[*]\nint main() {}",
        Some(5),
        Is::Program(5),
    ),
    (b"int c[4];\nint main() {}", Some(16), Is::Program(16)),
    (b"int c[4];\nint main() {}", None, Is::Program(1)),
    // programs
    (SQUARES, None, Is::Program(4)),
    (SQUARES, Some(5), Is::Breaks('M', 1, 2, 13)),
    (STENCIL, Some(4), Is::Program(4)),
    (
        b"int i;\nint main() { while (i < 10) i++; printf(\"%d\\n\", i); }",
        None,
        Is::Program(1),
    ),
];

#[test]
fn texts_have_their_verdict(rt: HostRuntime) -> Result<(), Fail> {
    for (text, given, expected) in VERDICTS {
        assert_eq!(rt; judged(rt.alloc(), text, given), expected);
    }
    Ok(())
}
