//! `#` lines.
ghost use Rattle.std.specs.Prelude.{ℕ, ◌≡◌, ◌+◌, ◌<◌, ◌≤◌, IfOk, IfErr, length, slice_index, drop, codes, true, false, ◌≢◌};
ghost use Rattle.xmp_lex.specs.LineStates.{fresh};
ghost use Rattle.xmp_lex.specs.Pieces.{LineSpaces, LineWord, LineHead};
ghost use Rattle.xmp_lex.specs.Found.{IsPiece, IsBroken};

use crate::bytes::{byte_at, from, front, is_letter, run};
use crate::cut::{NextPiece, gives_nothing};
use crate::mode::Mode;
use crate::spaces::line_spaces;
use crate::token::TokenKind;
use crate::tokens::PieceError;
use crate::words::word_of;
use std::alloc::Global;
use xmp_base::Bytes;

/// The head of a `#` line.
pub fn hash(alloc: Global, text: &[u8]) -> Result<NextPiece, PieceError>
    requires begins { slice_index text.now 0 ≡ 35 }
    requires some { 0 < length text.now }
    ensures ok { IfOk result (λ c. IsPiece text.now fresh c) }
    ensures err { IfErr result (λ e. IsBroken text.now fresh e) }
{
    match line_spaces(from(text, 1)) {
        None => Err(PieceError::Rule(6, 0)),
        Some(first) => behind_hash(alloc, text, first),
    }
}

fn behind_hash(alloc: Global, text: &[u8], first: usize) -> Result<NextPiece, PieceError>
    requires begins { slice_index text.now 0 ≡ 35 }
    requires line_spaces { LineSpaces (drop 1 text.now) first }
    requires within { 1 + first ≤ length text.now }
    ensures ok { IfOk result (λ c. IsPiece text.now fresh c) }
    ensures err { IfErr result (λ e. IsBroken text.now fresh e) }
{
    let on = from(text, 1 + first);
    let n = run(on);
    behind_word(alloc, text, 1 + first + n, front(on, n))
}

/// The form of a `#` line, behind its word.
fn behind_word(alloc: Global, text: &[u8], n: usize, word: &[u8]) -> Result<NextPiece, PieceError>
    requires line_word { LineWord text.now n word.now }
    requires within { n ≤ length text.now }
    ensures ok { IfOk result (λ c. IsPiece text.now fresh c) }
    ensures err { IfErr result (λ e. IsBroken text.now fresh e) }
{
    match line_spaces(from(text, n)) {
        Some(second) => form(alloc, text, n, n + second, word),
        None => unclosed(text, n, word),
    }
}

/// The form of a `#` line whose word has an open comment behind it.
fn unclosed(text: &[u8], n: usize, word: &[u8]) -> Result<NextPiece, PieceError>
    requires line_word { LineWord text.now n word.now }
    requires open { (k : ℕ) → LineSpaces (drop n text.now) k → ⊥ }
    requires within { n ≤ length text.now }
    ensures ok { IfOk result (λ c. IsPiece text.now fresh c) }
    ensures err { IfErr result (λ e. IsBroken text.now fresh e) }
{
    if is(word, b"pragma".as_slice()) {
        Ok(gives_nothing(n, Mode::Ignored))
    } else {
        Err(PieceError::Rule(6, 0))
    }
}

fn is(word: &[u8], other: &[u8]) -> bool
    ensures yes { result ≡ true → word.now ≡ other.now }
    ensures no { result ≡ false → word.now ≢ other.now }
{
    word == other
}

/// The form of a `#` line, by its word, which ends at n, and what stands behind its white space, which ends at m.
fn form(
    alloc: Global,
    text: &[u8],
    n: usize,
    m: usize,
    word: &[u8],
) -> Result<NextPiece, PieceError>
    requires line_word { LineWord text.now n word.now }
    requires head { LineHead text.now m word.now }
    requires within { m ≤ length text.now }
    ensures ok { IfOk result (λ c. IsPiece text.now fresh c) }
    ensures err { IfErr result (λ e. IsBroken text.now fresh e) }
{
    if is(word, b"define".as_slice()) {
        return define(alloc, text, m);
    }
    if is(word, b"include".as_slice()) {
        return include(text, m);
    }
    if is(word, b"pragma".as_slice()) {
        return Ok(pragma(text, n, m));
    }
    Err(PieceError::Rule(6, 0))
}

fn include(text: &[u8], n: usize) -> Result<NextPiece, PieceError>
    requires head { LineHead text.now n (codes "include") }
    requires within { n ≤ length text.now }
    ensures ok { IfOk result (λ c. IsPiece text.now fresh c) }
    ensures err { IfErr result (λ e. IsBroken text.now fresh e) }
{
    if byte_at(from(text, n), 0) == b'<' {
        Ok(gives_nothing(n, Mode::Ignored))
    } else {
        Err(PieceError::Rule(6, 0))
    }
}

fn pragma(text: &[u8], n: usize, m: usize) -> NextPiece
    requires line_word { LineWord text.now n (codes "pragma") }
    requires head { LineHead text.now m (codes "pragma") }
    requires within { m ≤ length text.now }
    ensures { IsPiece text.now fresh result }
{
    let after = from(text, m);
    let k = run(after);
    if is(front(after, k), b"xmp".as_slice()) {
        NextPiece {
            length: m + k,
            token: Some((0, TokenKind::Pragma)),
            mode: Mode::Directive,
        }
    } else {
        gives_nothing(n, Mode::Ignored)
    }
}

fn define(alloc: Global, text: &[u8], n: usize) -> Result<NextPiece, PieceError>
    requires head { LineHead text.now n (codes "define") }
    requires within { n ≤ length text.now }
    ensures ok { IfOk result (λ c. IsPiece text.now fresh c) }
    ensures err { IfErr result (λ e. IsBroken text.now fresh e) }
{
    let after = from(text, n);
    if !is_letter(byte_at(after, 0)) {
        return Err(PieceError::Rule(6, 0));
    }
    let k = run(after);
    if byte_at(after, k) == b'(' {
        return Err(PieceError::Rule(6, 0));
    }
    let name = front(after, k);
    match word_of(name) {
        Some(_) => Err(PieceError::Rule(6, 0)),
        None => match Bytes::copy_of(alloc, name) {
            Err(_) => Err(PieceError::NoMemory),
            Ok(name) => Ok(NextPiece {
                length: n + k,
                token: Some((n, TokenKind::Define(name))),
                mode: Mode::Directive,
            }),
        },
    }
}
