//! Marks and reserved words.
ghost use Rattle.std.specs.Prelude.{◌≡◌, MatchOption, length};
ghost use Rattle.xmp_lex.specs.Words.{mark_text, word_text, BeginsWith, IsMark};
ghost use Rattle.xmp_lex.specs.Found.{IsNone, IsFirst};
ghost use Rattle.xmp_lex.specs.declared.token.Mark.{Mark};
ghost use Rattle.xmp_lex.specs.declared.token.Reserved.{Reserved};

use crate::token::{Mark, Reserved};

/// How a mark is spelled.
pub fn mark_text(mark: Mark) -> &'static [u8]
    ensures { result.now ≡ mark_text mark }
{
    match mark {
        Mark::Plus => b"+",
        Mark::Minus => b"-",
        Mark::Star => b"*",
        Mark::Slash => b"/",
        Mark::Percent => b"%",
        Mark::ShiftLeft => b"<<",
        Mark::ShiftRight => b">>",
        Mark::Less => b"<",
        Mark::LessEqual => b"<=",
        Mark::Greater => b">",
        Mark::GreaterEqual => b">=",
        Mark::Equal => b"==",
        Mark::Differ => b"!=",
        Mark::And => b"&",
        Mark::Or => b"|",
        Mark::Xor => b"^",
        Mark::Tilde => b"~",
        Mark::Bang => b"!",
        Mark::AndAnd => b"&&",
        Mark::OrOr => b"||",
        Mark::Question => b"?",
        Mark::Colon => b":",
        Mark::Assign => b"=",
        Mark::AddAssign => b"+=",
        Mark::SubAssign => b"-=",
        Mark::MulAssign => b"*=",
        Mark::DivAssign => b"/=",
        Mark::RemAssign => b"%=",
        Mark::ShlAssign => b"<<=",
        Mark::ShrAssign => b">>=",
        Mark::AndAssign => b"&=",
        Mark::OrAssign => b"|=",
        Mark::XorAssign => b"^=",
        Mark::Increment => b"++",
        Mark::Decrement => b"--",
        Mark::OpenParen => b"(",
        Mark::CloseParen => b")",
        Mark::OpenBracket => b"[",
        Mark::CloseBracket => b"]",
        Mark::OpenBrace => b"{",
        Mark::CloseBrace => b"}",
        Mark::Comma => b",",
        Mark::Semicolon => b";",
    }
}

/// The marks, the longest first.
const MARKS: [Mark; 43] = [
    Mark::ShlAssign,
    Mark::ShrAssign,
    Mark::ShiftLeft,
    Mark::ShiftRight,
    Mark::LessEqual,
    Mark::GreaterEqual,
    Mark::Equal,
    Mark::Differ,
    Mark::AndAnd,
    Mark::OrOr,
    Mark::AddAssign,
    Mark::SubAssign,
    Mark::MulAssign,
    Mark::DivAssign,
    Mark::RemAssign,
    Mark::AndAssign,
    Mark::OrAssign,
    Mark::XorAssign,
    Mark::Increment,
    Mark::Decrement,
    Mark::Plus,
    Mark::Minus,
    Mark::Star,
    Mark::Slash,
    Mark::Percent,
    Mark::Less,
    Mark::Greater,
    Mark::And,
    Mark::Or,
    Mark::Xor,
    Mark::Tilde,
    Mark::Bang,
    Mark::Question,
    Mark::Colon,
    Mark::Assign,
    Mark::OpenParen,
    Mark::CloseParen,
    Mark::OpenBracket,
    Mark::CloseBracket,
    Mark::OpenBrace,
    Mark::CloseBrace,
    Mark::Comma,
    Mark::Semicolon,
];

/// The first of the marks that the text begins with.
fn first_of(marks: &[Mark], text: &[u8]) -> Option<Mark>
    ensures { MatchOption result (IsNone marks.now text.now (length marks.now)) (λ x. IsFirst marks.now text.now x) }
{
    for mark in marks {
        if text.starts_with(mark_text(*mark)) {
            return Some(*mark);
        }
    }
    None
}

/// The longest mark at the front.
pub fn mark_at(text: &[u8]) -> Option<Mark>
    ensures { MatchOption result ((x : Mark) → BeginsWith text.now (mark_text x) → ⊥) (λ x. IsMark text.now x) }
{
    first_of(&MARKS, text)
}

/// How a reserved word is spelled.
pub fn word_text(word: Reserved) -> &'static [u8]
    ensures { result.now ≡ word_text word }
{
    match word {
        Reserved::Int => b"int",
        Reserved::Long => b"long",
        Reserved::Void => b"void",
        Reserved::If => b"if",
        Reserved::Else => b"else",
        Reserved::While => b"while",
        Reserved::For => b"for",
        Reserved::Return => b"return",
        Reserved::Printf => b"printf",
        Reserved::Scanf => b"scanf",
        Reserved::SyncAll => b"xmp_sync_all",
    }
}

const WORDS: [Reserved; 11] = [
    Reserved::Int,
    Reserved::Long,
    Reserved::Void,
    Reserved::If,
    Reserved::Else,
    Reserved::While,
    Reserved::For,
    Reserved::Return,
    Reserved::Printf,
    Reserved::Scanf,
    Reserved::SyncAll,
];

/// The reserved word that is spelled so.
pub fn word_of(text: &[u8]) -> Option<Reserved>
    ensures { MatchOption result ((r : Reserved) → text.now ≡ word_text r → ⊥) (λ r. text.now ≡ word_text r) }
{
    for word in &WORDS {
        if *text == *word_text(*word) {
            return Some(*word);
        }
    }
    None
}
