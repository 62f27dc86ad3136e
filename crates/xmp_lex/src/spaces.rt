//! White space and comments.
ghost use Rattle.std.specs.Prelude.{◌≡◌, ◌+◌, ◌-◌, ◌<◌, ◌≤◌, ℕ, MatchOption, length, slice_index};
ghost use Rattle.xmp_lex.specs.declared.spaces.Found.TheVariants.{Nothing, Some};
ghost use Rattle.xmp_lex.specs.Pieces.{LineSpaces, is_spliced, Splice, IsBlockStart, IsLineStart};
ghost use Rattle.xmp_lex.specs.Found.{IsLineSpace, IsComment};

use crate::bytes::{block, byte_at, from, is_white, line};

/// What stands at the front: nothing of the kind, an open comment, or so many bytes.
#[derive(Clone, Copy)]
pub enum Found {
    Nothing,
    Unclosed,
    Some(usize),
}

/// The comment at the front.
pub fn comment(text: &[u8]) -> Found
    ensures { IsComment text.now result }
{
    if byte_at(text, 0) != b'/' {
        return Found::Nothing;
    }
    match byte_at(text, 1) {
        b'/' => line_comment(text),
        b'*' => block_comment(text),
        _ => Found::Nothing,
    }
}

fn line_comment(text: &[u8]) -> Found
    requires { IsLineStart text.now }
    ensures { IsComment text.now result }
{
    Found::Some(line(from(text, 2)) + 2)
}

fn block_comment(text: &[u8]) -> Found
    requires { IsBlockStart text.now }
    ensures { IsComment text.now result }
{
    match block(from(text, 2)) {
        None => Found::Unclosed,
        Some(n) => Found::Some(n + 4),
    }
}

/// A `\` that joins a line to the next, with its line feed.
pub fn splice(text: &[u8]) -> Option<usize>
    ensures { MatchOption result ((n : ℕ) → Splice text.now n → ⊥) (λ n. Splice text.now n) }
{
    if byte_at(text, 0) != b'\\' {
        return None;
    }
    match byte_at(text, 1) {
        b'\n' => Some(2),
        b'\r' => spliced(text),
        _ => None,
    }
}

fn spliced(text: &[u8]) -> Option<usize>
    requires back { slice_index text.now 0 ≡ 92 }
    requires carriage { slice_index text.now 1 ≡ 13 }
    ensures { MatchOption result ((n : ℕ) → Splice text.now n → ⊥) (λ n. Splice text.now n) }
{
    if byte_at(text, 2) == b'\n' {
        Some(3)
    } else {
        None
    }
}

fn is_spliced(text: &[u8], n: usize) -> bool
    requires { 2 ≤ n }
    ensures { result ≡ is_spliced text.now n }
{
    byte_at(text, n) == b'\n'
        && (byte_at(text, n - 1) == b'\\'
            || (byte_at(text, n - 1) == b'\r' && byte_at(text, n - 2) == b'\\'))
}

/// The white space of a `#` line at the front.
pub fn line_space(text: &[u8]) -> Found
    ensures { IsLineSpace text.now result }
{
    match comment(text) {
        Found::Unclosed => Found::Unclosed,
        Found::Some(n) => comment_space(text, n),
        Found::Nothing => plain_space(text),
    }
}

fn comment_space(text: &[u8], n: usize) -> Found
    requires { IsComment text.now (Some n) }
    ensures { IsLineSpace text.now result }
{
    if is_spliced(text, n) {
        Found::Some(n + 1)
    } else {
        Found::Some(n)
    }
}

fn plain_space(text: &[u8]) -> Found
    requires { IsComment text.now Nothing }
    ensures { IsLineSpace text.now result }
{
    match splice(text) {
        Some(n) => Found::Some(n),
        None => white_space(text),
    }
}

fn white_space(text: &[u8]) -> Found
    requires comment { IsComment text.now Nothing }
    requires splice { (n : ℕ) → Splice text.now n → ⊥ }
    ensures { IsLineSpace text.now result }
{
    let byte = byte_at(text, 0);
    if is_white(byte) && byte != b'\n' {
        Found::Some(1)
    } else {
        Found::Nothing
    }
}

/// All white space of a `#` line at the front.
pub fn line_spaces(text: &[u8]) -> Option<usize>
    ensures { MatchOption result ((n : ℕ) → LineSpaces text.now n → ⊥) (λ n. LineSpaces text.now n × (n ≤ length text.now)) }
{
    let mut n = 0;
    let mut rest = text;
    loop {
        match line_space(rest) {
            Found::Nothing => return Some(n),
            Found::Unclosed => return None,
            Found::Some(k) => {
                n += k;
                rest = from(rest, k);
            }
        }
    }
}
