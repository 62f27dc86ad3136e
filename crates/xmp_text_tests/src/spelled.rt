// The tokens that the tree of a text is spelled with are the text's.
use crate::texts::{IN_PARENTHESES, SHADOWED};
use std::alloc::Global;
use std::fmt::Write;
use std::test::Fail;
use xmp_base::SOURCE_LIMIT;
use xmp_lex::{TokenKind, expand, lex};
use xmp_source::tree_of;
use xmp_tree::tokens_of;

fn show_bytes(row: &mut String, bytes: &[u8]) -> Result<(), Fail> {
    for byte in bytes {
        row.push(char::from(*byte))?;
    }
    Ok(())
}

fn show(row: &mut String, kind: &TokenKind) -> Result<(), Fail> {
    match kind {
        TokenKind::Name(name) => show_bytes(row, name.as_slice())?,
        TokenKind::Word(word) => write!(row, "{word:?}")?,
        TokenKind::Number(value, ty) => write!(row, "{value}{ty:?}")?,
        TokenKind::Text(text) => show_bytes(row, text.as_slice())?,
        TokenKind::Mark(mark) => write!(row, "{mark:?}")?,
        TokenKind::Define(name) => show_bytes(row, name.as_slice())?,
        TokenKind::Pragma => row.push_str("Pragma")?,
        TokenKind::Close => row.push_str("Close")?,
        TokenKind::Finish => row.push_str("Finish")?,
    }
    row.push(' ')?;
    Ok(())
}

/// The kinds of a text's tokens, its definitions replaced.
fn lexed(alloc: Global, text: &[u8]) -> Result<String, Fail> {
    let mut row = String::new(alloc);
    if text.len() > SOURCE_LIMIT {
        return Ok(row);
    }
    match lex(alloc, text) {
        Err(_) => row.push_str("refused")?,
        Ok(tokens) => match expand(alloc, tokens) {
            Err(_) => row.push_str("refused")?,
            Ok(tokens) => {
                for token in tokens.as_slice() {
                    show(&mut row, &token.kind)?;
                }
            }
        },
    }
    Ok(row)
}

/// The kinds of the tokens of a text's tree.
fn spelled(alloc: Global, text: &[u8]) -> Result<String, Fail> {
    let mut row = String::new(alloc);
    if text.len() > SOURCE_LIMIT {
        return Ok(row);
    }
    match tree_of(alloc, text) {
        Err(_) => row.push_str("no tree")?,
        Ok(tree) => match tokens_of(alloc, &tree) {
            Err(_) => row.push_str("no memory")?,
            Ok(kinds) => {
                for kind in kinds.as_slice() {
                    show(&mut row, kind)?;
                }
            }
        },
    }
    Ok(row)
}

// Each form of declaration, function, expression and statement.
const STATEMENTS: &[u8] = b"int c[4]:[*], a[8], x = 1, y; long z; long int w;
int f(void) { return -1 + 2 * (3 - x) % 4; }
long g(int p, long int q) { ; return (long)p ? q : ~q; }
int main() {
  int v = 2, b[2][3];
  x = y; a[1] += f() + g(1, 2) << 3; c[0]:[2] = c[1]; x++; --y; ++a[0];
  if (x) ; else if (!y && x || y) { x -= 1; }
  while (x < 3) x *= 2;
  for (int i = 0; i < 3; i++) ;
  for (x = 0; ; ) return 1;
  for (;;) ;
  x = y ? c[0]:[1] : 3;
  printf(\"a\"); printf(\"%d %d\\n\", x, y); scanf(\"%d\", &a[1]); xmp_sync_all(&x);
  f();
  return 0;
}";

// Each form of directive that SHADOWED has not.
const DIRECTIVES: &[u8] = b"#pragma xmp nodes p[*]
#pragma xmp nodes q[2][2]
#pragma xmp distribute u[gblock({1, 2})][cyclic(2)][*] onto q
#pragma xmp align a[i][*] with t[i + 1][*]
#pragma xmp shadow a[1][1:2]
int main() {
#pragma xmp nodes r[4]
#pragma xmp loop (i, j) on t[i - 1][j] reduction(+:x, y) reduction(max:z) reduction(min:w)
for (;;) ;
#pragma xmp loop on t[*]
for (;;) ;
#pragma xmp barrier
#pragma xmp bcast (x, y) from p[0:2][:]
#pragma xmp bcast (x) from p
#pragma xmp gmove
a[0:4][:] = b[1:4:2][x];
#pragma xmp tasks
{
#pragma xmp task on p[0]
;
#pragma xmp task on p[1:2]
{ x = 1; }
}
}";

// Each form of directive in parentheses that IN_PARENTHESES has not.
const MORE_DIRECTIVES: &[u8] = b"#pragma xmp nodes p(*)
#pragma xmp nodes q(2, 2)
#pragma xmp nodes r[2] = p[0:2]
#pragma xmp nodes s(2) = p(1:2)
#pragma xmp template u(8, 0:7, N)
#pragma xmp distribute u(gblock({1, 2}), cyclic(2), *) onto q
#pragma xmp align a[i][*] with t(i + 1, *)
int main() {
#pragma xmp loop (i, j) on t(i - 1, j) reduction(+:x, y)
for (;;) ;
#pragma xmp loop on t(*)
for (;;) ;
#pragma xmp bcast (x, y) from p(1:2, :)
#pragma xmp tasks
{
#pragma xmp task on p(1)
;
#pragma xmp task on p(2, 1:2)
{ x = 1; }
}
}";

/// Notes a text whose tree has other tokens.
fn note(wrong: &mut String, alloc: Global, text: &[u8]) -> Result<(), Fail> {
    let made = spelled(alloc, text)?;
    let expected = lexed(alloc, text)?;
    if made.as_str() != expected.as_str() {
        show_bytes(wrong, text)?;
    }
    Ok(())
}

#[test]
fn the_tokens_of_a_tree_are_those_of_its_text(rt: HostRuntime) -> Result<(), Fail> {
    let alloc = rt.alloc();
    let mut wrong = String::new(alloc);
    note(&mut wrong, alloc, SHADOWED)?;
    note(&mut wrong, alloc, STATEMENTS)?;
    note(&mut wrong, alloc, DIRECTIVES)?;
    note(&mut wrong, alloc, IN_PARENTHESES)?;
    note(&mut wrong, alloc, MORE_DIRECTIVES)?;
    assert_eq!(rt; wrong.as_str(), "");
    Ok(())
}
