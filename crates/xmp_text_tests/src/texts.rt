// Whole texts: which are programs, and where the others cease to be.
//
// A row of a table is a source, ` => ` and what it breaks: `-` where it is a program, else `S1` or `S2` with line and
// column. `$` stands for the end of a line.
use std::alloc::Global;
use std::fmt::Write;
use std::test::Fail;
use xmp_base::{Fault, SOURCE_LIMIT};
use xmp_source::tree_of;

/// The rule of a refusal with its line and column, 0 for want of memory.
fn rule_and_place(fault: Fault) -> (u16, u32, u32) {
    match fault {
        Fault::NoMemory => (0, 0, 0),
        Fault::Refused(refusal) => (refusal.rule, refusal.at.line, refusal.at.column),
    }
}

/// The rule that the text breaks with its line and column, or nothing for a program.
pub fn broken(alloc: Global, text: &[u8]) -> Option<(u16, u32, u32)> {
    if text.len() > SOURCE_LIMIT {
        return Some((0, 0, 0));
    }
    match tree_of(alloc, text) {
        Ok(_program) => None,
        Err(fault) => Some(rule_and_place(fault)),
    }
}

/// Writes what a text breaks.
pub fn write_answer(row: &mut String, alloc: Global, text: &str) -> Result<(), Fail> {
    match broken(alloc, text.as_bytes()) {
        None => row.push('-')?,
        Some((rule, line, column)) => write!(row, "S{rule} {line}:{column}")?,
    }
    Ok(())
}

/// A source, with the ends of its lines.
pub fn push_source(text: &mut String, source: &str) -> Result<(), Fail> {
    for c in source.chars() {
        text.push(if c == '$' { '\n' } else { c })?;
    }
    Ok(())
}

/// A source with what stands before and behind it, and its answer, as a row of a table.
fn row_of(alloc: Global, begin: &str, source: &str, end: &str) -> Result<String, Fail> {
    let mut text = String::new(alloc);
    text.push_str(begin)?;
    push_source(&mut text, source)?;
    text.push_str(end)?;
    let mut row = String::new(alloc);
    write!(row, "{source} => ")?;
    write_answer(&mut row, alloc, text.as_str())?;
    Ok(row)
}

/// The rows of a table whose answers are others, with those answers.
pub fn wrong_rows(alloc: Global, begin: &str, table: &str, end: &str) -> Result<String, Fail> {
    let mut wrong = String::new(alloc);
    for line in table.lines() {
        let source = match line.split_once(" => ") {
            Some((source, _answer)) => source,
            None => line,
        };
        let row = row_of(alloc, begin, source, end)?;
        if row.as_str() != line {
            wrong.push_str(row.as_str())?;
            wrong.push('\n')?;
        }
    }
    Ok(wrong)
}

// Whole texts.
const TEXTS: &str = "\
$ => S1 2:1\n\
int main(){} => -\n\
#pragma xmp nodes p[ => S1 1:21\n\
int x; => S1 1:7\n\
int x = 1, y, a[2][3], c[4]:[*]; int main(){} => -\n\
int c:[*]; int main(){} => S1 1:6\n\
int a[2]:[2]; int main(){} => S1 1:11\n\
int a[2] = 1; int main(){} => S1 1:10\n\
long x; long int y; int main(){} => -\n\
int long x; int main(){} => S1 1:5\n\
int f(void){} long g(int a, long int b){} int main(){} => -\n\
int f(int){} => S1 1:10\n\
int f(void, int a){} => S1 1:11\n\
int f(int a,){} => S1 1:13\n\
int f(); => S1 1:8\n\
x = 1; => S1 1:1\n\
int main(){} ; => S1 1:14\n\
int main(){} int x; => S1 1:20\n\
int main(){ => S1 1:12\n\
else => S1 1:1\n\
#pragma xmp nodes p[4]$int main(){} => -\n\
#pragma xmp barrier$int main(){} => S1 1:13\n\
#pragma xmp template t[8][2]$int main(){} => -\n\
#pragma xmp template t$int main(){} => S1 1:23\n\
";

// Statements of `main`, which begin at 1:12.
const STATEMENTS: &str = "\
$ => -\n\
; => -\n\
int x; x = 1; => -\n\
x => S1 1:13\n\
x; => S1 1:13\n\
y = x : 3; => S1 1:20\n\
y = x :[3]; => -\n\
y = x :[3; => S1 1:21\n\
x = 1 + 2 * 3 - 4 % 5 / 6; => -\n\
x = 1 +; => S1 1:19\n\
x = a << 2 >> 1 < 3 <= 4 > 5 >= 6 == 7 != 8 & 9 ^ 10 | 11 && 12 || 13; => -\n\
x = a || ; => S1 1:21\n\
x = * 2; => S1 1:16\n\
x = -+~!a; => -\n\
x = - ; => S1 1:18\n\
x = (int)(long)a; => -\n\
x = (long int)a; => S1 1:22\n\
x = (int; => S1 1:20\n\
x = (void)a; => S1 1:17\n\
x = (a); => -\n\
x = (a; => S1 1:18\n\
x = (); => S1 1:17\n\
x = f(); => -\n\
x = f(a, b + 1); => -\n\
x = f(a,); => S1 1:20\n\
x = f(a; => S1 1:19\n\
x = a[1][b[2]]; => -\n\
x = a[; => S1 1:18\n\
x = a[1, 2]; => S1 1:19\n\
x = a ? b : c; => -\n\
x = a ? b :[1] : c; => -\n\
x = a ? b c; => S1 1:22\n\
x = a ? b, c : d; => S1 1:21\n\
x = a ? b : c ? d : e; => -\n\
x = a ? b ? c : d : e; => -\n\
x = a ? b ; => S1 1:22\n\
x = a ? : b; => S1 1:20\n\
x = a ? (b : 1) : c; => S1 1:25\n\
x = a ? (b : [1]) : c; => -\n\
x = a ? f(b :[2]) : c; => -\n\
x = a ? b :[1] ; => S1 1:27\n\
x += 1; x -= 1; x *= 1; x /= 1; x %= 1; x <<= 1; x >>= 1; x &= 1; x |= 1; x ^= 1; => -\n\
x == 1; => S1 1:14\n\
a[1] = 2; a:[1] = 2; a[1]:[2] += 3; => -\n\
a[1] 2; => S1 1:17\n\
x++; x--; ++x; --x; ++a[1]:[2]; => -\n\
++x++; => S1 1:15\n\
";

const MORE_STATEMENTS: &str = "\
++1; => S1 1:14\n\
-x; => S1 1:12\n\
f(); f(1); => -\n\
f() = 1; => S1 1:16\n\
1; => S1 1:12\n\
(x); => S1 1:12\n\
return 1; => -\n\
return; => S1 1:18\n\
return 1 => S1 1:20\n\
{ int x; { ; } } => -\n\
{ ;  => S1 1:17\n\
if (x) ; else ; => -\n\
if (x) if (y) ; else ; => -\n\
if (x) if (y) ; else ; else ; => -\n\
if (x) ; else ; else ; => S1 1:28\n\
else ; => S1 1:12\n\
if x) ; => S1 1:15\n\
if () ; => S1 1:16\n\
if (x) int y; => S1 1:19\n\
if (x) else => S1 1:19\n\
while (x) ; => -\n\
while (x); => -\n\
while (x) } => S1 1:22\n\
while x; => S1 1:18\n\
for (;;) ; => -\n\
for (i = 0; i < 3; i++) ; => -\n\
for (int i = 0; i < 3; i += 2) { } => -\n\
for (int a[1] = 0;;) ; => S1 1:22\n\
for (int a:[1] = 0;;) ; => S1 1:22\n\
for (a[1]:[2] = 0;;) ; => -\n\
for (i;;) ; => S1 1:18\n\
for (i++;;) ; => S1 1:18\n\
for (;;i) ; => S1 1:20\n\
for (;) ; => S1 1:18\n\
for (int i, j;;) ; => S1 1:22\n\
for (;; f()) ; => -\n\
for (long i = 0;;) ; => S1 1:17\n\
printf(\"a\"); printf(\"%d %d\", x, y + 1); => -\n\
printf(x); => S1 1:19\n\
printf(\"a\" x); => S1 1:23\n\
printf(\"a\",); => S1 1:23\n\
printf(\"a\") => S1 1:23\n\
scanf(\"%d\", &x); scanf(\"%d\", &a[1]:[2]); => -\n\
scanf(\"%d\", x); => S1 1:24\n\
scanf(\"%d\"); => S1 1:22\n\
scanf(\"%d\", &x, &y); => S1 1:26\n\
xmp_sync_all(&x); => -\n\
xmp_sync_all(x); => S1 1:25\n\
xmp_sync_all(&x; => S1 1:27\n\
int x = 1, y = x; long z; => -\n\
int x = ; => S1 1:20\n\
int x, ; => S1 1:19\n\
int x y; => S1 1:18\n\
int a[]; => S1 1:18\n\
int a[2]:[*]; => -\n\
int a[2]:[*; => S1 1:23\n\
";

pub const SHADOWED: &[u8] = b"#define N 8
int a[N], b[N], i, s;
#pragma xmp nodes p[4]
#pragma xmp template t[N]
#pragma xmp distribute t[block] onto p
#pragma xmp align a[k] with t[k]
#pragma xmp align b[k] with t[k]
#pragma xmp shadow a[1]
int main() {
#pragma xmp loop (i) on t[i]
  for (i = 0; i < N; i++) a[i] = i;
#pragma xmp reflect (a)
#pragma xmp loop (i) on t[i] reduction(+:s)
  for (i = 1; i < N - 1; i++) { b[i] = a[i-1] + a[i+1]; s += b[i]; }
#pragma xmp task on p[0]
  printf(\"%d\\n\", s);
}";

// The same in parentheses, with a lower bound.
pub const IN_PARENTHESES: &[u8] = b"#define N 8
int a[N], b[N], i, s;
#pragma xmp nodes p(4)
#pragma xmp template t(-1:N-2)
#pragma xmp distribute t(block) onto p
#pragma xmp align a[k] with t(k-1)
#pragma xmp align b[k] with t(k-1)
#pragma xmp shadow a[1]
int main() {
#pragma xmp loop (i) on t(i-1)
  for (i = 0; i < N; i++) a[i] = i;
#pragma xmp reflect (a)
#pragma xmp loop (i) on t(i-1) reduction(+:s)
  for (i = 1; i < N - 1; i++) { b[i] = a[i-1] + a[i+1]; s += b[i]; }
#pragma xmp task on p(1)
  printf(\"%d\\n\", s);
}";

#[test]
fn texts_are_judged(rt: HostRuntime) -> Result<(), Fail> {
    assert_eq!(rt; broken(rt.alloc(), b""), Some((1, 1, 1)));
    let wrong = wrong_rows(rt.alloc(), "", TEXTS, "")?;
    assert_eq!(rt; wrong.as_str(), "");
    Ok(())
}

#[test]
fn statements_are_judged(rt: HostRuntime) -> Result<(), Fail> {
    let wrong = wrong_rows(rt.alloc(), "int main(){", STATEMENTS, "}")?;
    assert_eq!(rt; wrong.as_str(), "");
    let wrong = wrong_rows(rt.alloc(), "int main(){", MORE_STATEMENTS, "}")?;
    assert_eq!(rt; wrong.as_str(), "");
    Ok(())
}

#[test]
fn no_beginning_of_a_program_is_one(rt: HostRuntime) -> Result<(), Fail> {
    for program in [SHADOWED, IN_PARENTHESES] {
        assert_eq!(rt; broken(rt.alloc(), program), None);
        for length in 0..program.len() {
            let beginning = program.get(..length).unwrap_or(b"");
            assert!(rt; broken(rt.alloc(), beginning).is_some(), "{length}");
        }
    }
    Ok(())
}
