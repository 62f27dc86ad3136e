// Kinds of tokens.
ghost use Rattle.std.specs.Prelude.{◌≡◌, ◌==◌};
ghost use Rattle.std.specs.Option.{option_copied};
ghost use Rattle.xmp_syntax.specs.Grammar.{mark_code, word_code};
ghost use Rattle.xmp_syntax.specs.Grammar as g;
ghost use Rattle.xmp_reader.specs.Classes.{of_class, IsClass};
ghost use Rattle.xmp_reader.specs.Kinds.{mark_in, name_in, text_in, number_in, type_of_word, type_in};

use crate::marks::{Class, has};
use xmp_base::Bytes;
use xmp_lex::{Mark, Reserved, TokenKind};
use xmp_num::Ty;

fn code_of(mark: Mark) -> u8
    ensures { result ≡ mark_code mark }
{
    match mark {
        Mark::Plus => 0,
        Mark::Minus => 1,
        Mark::Star => 2,
        Mark::Slash => 3,
        Mark::Percent => 4,
        Mark::ShiftLeft => 5,
        Mark::ShiftRight => 6,
        Mark::Less => 7,
        Mark::LessEqual => 8,
        Mark::Greater => 9,
        Mark::GreaterEqual => 10,
        Mark::Equal => 11,
        Mark::Differ => 12,
        Mark::And => 13,
        Mark::Or => 14,
        Mark::Xor => 15,
        Mark::Tilde => 16,
        Mark::Bang => 17,
        Mark::AndAnd => 18,
        Mark::OrOr => 19,
        Mark::Question => 20,
        Mark::Colon => 21,
        Mark::Assign => 22,
        Mark::AddAssign => 23,
        Mark::SubAssign => 24,
        Mark::MulAssign => 25,
        Mark::DivAssign => 26,
        Mark::RemAssign => 27,
        Mark::ShlAssign => 28,
        Mark::ShrAssign => 29,
        Mark::AndAssign => 30,
        Mark::OrAssign => 31,
        Mark::XorAssign => 32,
        Mark::Increment => 33,
        Mark::Decrement => 34,
        Mark::OpenParen => 35,
        Mark::CloseParen => 36,
        Mark::OpenBracket => 37,
        Mark::CloseBracket => 38,
        Mark::OpenBrace => 39,
        Mark::CloseBrace => 40,
        Mark::Comma => 41,
        Mark::Semicolon => 42,
    }
}

fn code_of_word(word: Reserved) -> u8
    ensures { result ≡ word_code word }
{
    match word {
        Reserved::Int => 0,
        Reserved::Long => 1,
        Reserved::Void => 2,
        Reserved::If => 3,
        Reserved::Else => 4,
        Reserved::While => 5,
        Reserved::For => 6,
        Reserved::Return => 7,
        Reserved::Printf => 8,
        Reserved::Scanf => 9,
        Reserved::SyncAll => 10,
    }
}

fn same_mark(a: Mark, b: Mark) -> bool
    ensures { result ≡ (mark_code a == mark_code b) }
{
    code_of(a) == code_of(b)
}

fn same_word(a: Reserved, b: Reserved) -> bool
    ensures { result ≡ (word_code a == word_code b) }
{
    code_of_word(a) == code_of_word(b)
}

fn same_bytes(a: &[u8], b: &[u8]) -> bool
    ensures { result ≡ g.same_text a.now b.now }
{
    a == b
}

pub fn mark_in(kind: &TokenKind) -> Option<Mark>
    ensures { result ≡ mark_in kind.now }
{
    match kind {
        TokenKind::Mark(found) => Some(*found),
        _ => None,
    }
}

pub fn name_in(kind: &TokenKind) -> Option<&Bytes>
    ensures { option_copied result ≡ name_in kind.now }
{
    match kind {
        TokenKind::Name(found) => Some(found),
        _ => None,
    }
}

pub fn text_in(kind: &TokenKind) -> Option<&Bytes>
    ensures { option_copied result ≡ text_in kind.now }
{
    match kind {
        TokenKind::Text(found) => Some(found),
        _ => None,
    }
}

pub fn number_in(kind: &TokenKind) -> Option<(i64, Ty)>
    ensures { result ≡ number_in kind.now }
{
    match kind {
        TokenKind::Number(value, ty) => Some((*value, *ty)),
        _ => None,
    }
}

fn type_of(word: Reserved) -> Option<Ty>
    ensures { result ≡ type_of_word word }
{
    match word {
        Reserved::Int => Some(Ty::Int),
        Reserved::Long => Some(Ty::Long),
        _ => None,
    }
}

/// The type that a word names.
pub fn type_in(kind: &TokenKind) -> Option<Ty>
    ensures { result ≡ type_in kind.now }
{
    match kind {
        TokenKind::Word(found) => type_of(*found),
        _ => None,
    }
}

pub fn is_mark(kind: &TokenKind, mark: Mark) -> bool
    ensures { result ≡ g.is_mark mark kind.now }
{
    match kind {
        TokenKind::Mark(found) => same_mark(mark, *found),
        _ => false,
    }
}

pub fn is_word(kind: &TokenKind, word: Reserved) -> bool
    ensures { result ≡ g.is_word word kind.now }
{
    match kind {
        TokenKind::Word(found) => same_word(word, *found),
        _ => false,
    }
}

pub fn is_spelled(kind: &TokenKind, bytes: &[u8]) -> bool
    ensures { result ≡ g.is_spelled bytes.now kind.now }
{
    match kind {
        TokenKind::Name(found) => same_bytes(bytes, found.as_slice()),
        _ => false,
    }
}

pub fn is_pragma(kind: &TokenKind) -> bool
    ensures { result ≡ g.is_pragma kind.now }
{
    match kind {
        TokenKind::Pragma => true,
        _ => false,
    }
}

pub fn is_close(kind: &TokenKind) -> bool
    ensures { result ≡ g.is_close kind.now }
{
    match kind {
        TokenKind::Close => true,
        _ => false,
    }
}

pub fn is_finish(kind: &TokenKind) -> bool
    ensures { result ≡ g.is_finish kind.now }
{
    match kind {
        TokenKind::Finish => true,
        _ => false,
    }
}

/// Whether the token is a mark of the class.
pub fn is_of(kind: &TokenKind, class: Class) -> bool
    requires { IsClass class }
    ensures { result ≡ of_class class kind.now }
{
    match mark_in(kind) {
        Some(found) => has(class, found),
        None => false,
    }
}

pub fn is_name(kind: &TokenKind) -> bool
    ensures { result ≡ g.is_name kind.now }
{
    match kind {
        TokenKind::Name(_) => true,
        _ => false,
    }
}

pub fn is_number(kind: &TokenKind) -> bool
    ensures { result ≡ g.is_number kind.now }
{
    match kind {
        TokenKind::Number(_, _) => true,
        _ => false,
    }
}
