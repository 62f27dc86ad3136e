//! The token at the front of a text.
ghost use Rattle.std.specs.Prelude.{◌≡◌, ◌≢◌, ◌+◌, ◌-◌, ◌<◌, ◌≤◌, IfOk, IfErr, length, slice_index, false, true, ◌||◌, nat_le};
ghost use Rattle.xmp_lex.specs.Bytes.{is_white, is_digit, is_letter, is_word, has_suffix, escape_value, escaped};
ghost use Rattle.xmp_lex.specs.Pieces.{IsBlockStart, IsLineStart, type_of};
ghost use Rattle.xmp_lex.specs.Found.{Taken, IsMalformed, IsMeaning, Pushed};

use crate::bytes::{
    byte_at, escapes, from, front, has_suffix, is_digit, is_letter, number_of, run, text_end,
};
use crate::token::TokenKind;
use crate::words::{mark_at, mark_text, word_of};
use std::alloc::Global;
use xmp_base::{Bytes, NoMemory};
use xmp_num::Ty;

/// Want of memory, or a rule that breaks, so many bytes on.
#[derive(Clone, Copy)]
pub enum PieceError {
    NoMemory,
    Rule(u16, usize),
}

impl From<NoMemory> for PieceError {
    ghost use Rattle.xmp_lex.specs.declared.tokens.PieceError.TheVariants.{NoMemory};

    ghost from_gives = { λ _ e. e ≡ NoMemory };

    fn from(_: NoMemory) -> PieceError {
        PieceError::NoMemory
    }
}

/// What a text means, or its first unknown escape.
#[derive(Drop)]
pub enum Meaning {
    Text(Bytes),
    Unknown(usize),
}

fn escape_value(byte: u8) -> Option<u8>
    ensures { result ≡ escape_value byte }
{
    match byte {
        b'n' => Some(b'\n'),
        b't' => Some(b'\t'),
        b'\\' => Some(b'\\'),
        b'"' => Some(b'"'),
        _ => None,
    }
}

/// Puts down what a byte means; false is an unknown escape.
fn push_meant(out: &mut Bytes, byte: u8, escaped: bool) -> Result<bool, NoMemory>
    ensures { IfOk result (λ known. Pushed out.old out.new byte escaped known) }
{
    if escaped {
        match escape_value(byte) {
            None => Ok(false),
            Some(meant) => {
                out.push(meant)?;
                Ok(true)
            }
        }
    } else if byte == b'\\' {
        Ok(true)
    } else {
        out.push(byte)?;
        Ok(true)
    }
}

/// What the first n bytes behind a quote mean.
fn meant(alloc: Global, text: &[u8], n: usize) -> Result<Meaning, NoMemory>
    requires { n ≤ length text.now }
    ensures { IfOk result (λ m. IsMeaning text.now n m) }
{
    let mut out = Bytes::new(alloc);
    let mut escaped = false;
    for i in 0..n {
        let byte = text[i];
        if !push_meant(&mut out, byte, escaped)? {
            return Ok(Meaning::Unknown(i));
        }
        escaped = escapes(byte, escaped);
    }
    Ok(Meaning::Text(out))
}

fn quoted(alloc: Global, text: &[u8]) -> Result<(usize, TokenKind), PieceError>
    requires { slice_index text.now 0 ≡ 34 }
    ensures ok { IfOk result (λ x. Taken text.now x.0 x.1) }
    ensures err { IfErr result (λ e. IsMalformed text.now e) }
{
    let after = from(text, 1);
    let k = text_end(after);
    if byte_at(after, k) != b'"' {
        return Err(PieceError::Rule(3, 0));
    }
    match meant(alloc, after, k)? {
        Meaning::Unknown(j) => Err(PieceError::Rule(1, j)),
        Meaning::Text(bytes) => Ok((k + 2, TokenKind::Text(bytes))),
    }
}

fn type_of(long: bool, value: u64) -> Ty
    ensures { result ≡ type_of (long || nat_le 2147483648 value) }
{
    if long || 0x8000_0000 <= value {
        Ty::Long
    } else {
        Ty::Int
    }
}

fn number(text: &[u8]) -> Result<(usize, TokenKind), PieceError>
    requires { is_digit (slice_index text.now 0) ≡ true }
    ensures ok { IfOk result (λ x. Taken text.now x.0 x.1) }
    ensures err { IfErr result (λ e. IsMalformed text.now e) }
{
    let n = run(text);
    let spelled = front(text, n);
    match number_of(spelled) {
        None => Err(PieceError::Rule(4, 0)),
        Some(value) => Ok((
            n,
            TokenKind::Number(value as i64, type_of(has_suffix(spelled), value)),
        )),
    }
}

fn word(alloc: Global, text: &[u8]) -> Result<(usize, TokenKind), PieceError>
    requires { is_letter (slice_index text.now 0) ≡ true }
    ensures ok { IfOk result (λ x. Taken text.now x.0 x.1) }
    ensures err { IfErr result (λ e. IsMalformed text.now e) }
{
    let n = run(text);
    let spelled = front(text, n);
    match word_of(spelled) {
        Some(word) => Ok((n, TokenKind::Word(word))),
        None => {
            let bytes = Bytes::copy_of(alloc, spelled)?;
            Ok((n, TokenKind::Name(bytes)))
        }
    }
}

fn mark(text: &[u8]) -> Result<(usize, TokenKind), PieceError>
    requires block { IsBlockStart text.now → ⊥ }
    requires line { IsLineStart text.now → ⊥ }
    requires some { 0 < length text.now }
    requires white { is_white (slice_index text.now 0) ≡ false }
    requires word { is_word (slice_index text.now 0) ≡ false }
    requires quote { slice_index text.now 0 ≢ 34 }
    ensures ok { IfOk result (λ x. Taken text.now x.0 x.1) }
    ensures err { IfErr result (λ e. IsMalformed text.now e) }
{
    match mark_at(text) {
        None => Err(PieceError::Rule(1, 0)),
        Some(mark) => Ok((mark_text(mark).len(), TokenKind::Mark(mark))),
    }
}

/// The token at the front.
pub fn token_at(alloc: Global, text: &[u8]) -> Result<(usize, TokenKind), PieceError>
    requires block { IsBlockStart text.now → ⊥ }
    requires line { IsLineStart text.now → ⊥ }
    requires some { 0 < length text.now }
    requires white { is_white (slice_index text.now 0) ≡ false }
    ensures ok { IfOk result (λ x. Taken text.now x.0 x.1) }
    ensures err { IfErr result (λ e. IsMalformed text.now e) }
{
    let first = byte_at(text, 0);
    if first == b'"' {
        return quoted(alloc, text);
    }
    if is_digit(first) {
        return number(text);
    }
    if is_letter(first) {
        return word(alloc, text);
    }
    mark(text)
}
