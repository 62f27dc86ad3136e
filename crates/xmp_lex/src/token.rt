// The tokens of a text.
ghost use Rattle.std.specs.Prelude.{◌≡◌, IfOk};

use std::alloc::Global;
use xmp_base::{Bytes, NoMemory, Place};
use xmp_num::Ty;

#[derive(Clone, Copy, Debug, PartialEq, Eq)]
pub enum Reserved {
    Int,
    Long,
    Void,
    If,
    Else,
    While,
    For,
    Return,
    Printf,
    Scanf,
    SyncAll,
}

#[derive(Clone, Copy, Debug, PartialEq, Eq)]
pub enum Mark {
    Plus,
    Minus,
    Star,
    Slash,
    Percent,
    ShiftLeft,
    ShiftRight,
    Less,
    LessEqual,
    Greater,
    GreaterEqual,
    Equal,
    Differ,
    And,
    Or,
    Xor,
    Tilde,
    Bang,
    AndAnd,
    OrOr,
    Question,
    Colon,
    Assign,
    AddAssign,
    SubAssign,
    MulAssign,
    DivAssign,
    RemAssign,
    ShlAssign,
    ShrAssign,
    AndAssign,
    OrAssign,
    XorAssign,
    Increment,
    Decrement,
    OpenParen,
    CloseParen,
    OpenBracket,
    CloseBracket,
    OpenBrace,
    CloseBrace,
    Comma,
    Semicolon,
}

/// What a token is. A `#` line whose tokens count stands between its `Define` or `Pragma` and a `Close`.
#[derive(Drop)]
pub enum TokenKind {
    /// an identifier that is no reserved word
    Name(Bytes),
    Word(Reserved),
    /// a literal of 0 to 2^63 - 1
    Number(i64, Ty),
    /// a string literal: the bytes that its spelling means
    Text(Bytes),
    Mark(Mark),
    /// the start of a `#define` line, with the name that it defines
    Define(Bytes),
    /// the start of a `#pragma xmp` line
    Pragma,
    /// the end of such a line
    Close,
    /// the end of the text
    Finish,
}

impl TokenKind {
    pub fn copied(&self, alloc: Global) -> Result<TokenKind, NoMemory>
        ensures { IfOk result (λ kind. kind ≡ self.now) }
    {
        match self {
            TokenKind::Name(name) => Ok(TokenKind::Name(Bytes::copy_of(alloc, name.as_slice())?)),
            TokenKind::Word(word) => Ok(TokenKind::Word(*word)),
            TokenKind::Number(value, ty) => Ok(TokenKind::Number(*value, *ty)),
            TokenKind::Text(text) => Ok(TokenKind::Text(Bytes::copy_of(alloc, text.as_slice())?)),
            TokenKind::Mark(mark) => Ok(TokenKind::Mark(*mark)),
            TokenKind::Define(name) => Ok(TokenKind::Define(Bytes::copy_of(
                alloc,
                name.as_slice(),
            )?)),
            TokenKind::Pragma => Ok(TokenKind::Pragma),
            TokenKind::Close => Ok(TokenKind::Close),
            TokenKind::Finish => Ok(TokenKind::Finish),
        }
    }
}

/// A token, with the place of its first byte.
#[derive(Drop)]
pub struct Token {
    pub kind: TokenKind,
    pub at: Place,
}
