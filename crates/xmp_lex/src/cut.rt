//! A text cut into tokens.
ghost use Rattle.std.specs.Prelude.{List, ◌≡◌, ◌≢◌, ◌+◌, ◌<◌, ◌≤◌, ℕ, IfOk, IfErr, IfSome, option_to_list, OnOk, [], ◌∷◌, length, slice_index, false, true, ◌++◌, ◌==◌, None, ◌^◌};
ghost use Rattle.xmp_lex.specs.Bytes.{is_white};
ghost use Rattle.xmp_lex.specs.Pieces.{Splice, IsBlockStart, IsLineStart};
ghost use Rattle.xmp_lex.specs.Found.{IsLineSpace};
ghost use Rattle.xmp_lex.specs.declared.spaces.Found.TheVariants.{Nothing};
ghost use Rattle.xmp_base.specs.declared.refusal.Fault.TheVariants as fault;
ghost use Rattle.xmp_lex.specs.declared.token.Token.{Token};
ghost use Rattle.xmp_lex.specs.LineStates.{fresh, directive, ignored, IsOutside, behind_white, behind_token};
ghost use Rattle.xmp_lex.specs.Lines.{IsFinished, IsClosed};
ghost use Rattle.xmp_lex.specs.Cut.{IsRefused, Cut, behind, step, placed, ending};
ghost use Rattle.xmp_lex.specs.Found.{state_of, IsPiece, IsBroken, IsTooMany, IsWithin, refusal, is_directive, breaks};
ghost use Rattle.xmp_base.specs.Limits.{token_limit, source_limit};

use crate::bytes::{byte_at, from, front, is_white};
use crate::hash::hash;
use crate::mode::Mode;
use crate::spaces::{Found, comment, line_space};
use crate::token::{Token, TokenKind};
use crate::tokens::{PieceError, token_at};
use std::alloc::Global;
use xmp_base::{Fault, Phase, Place, Refusal, TOKEN_LIMIT};

/// A piece: its length, the token that it gives and where that begins in it, and how the line goes on.
#[derive(Drop)]
pub struct NextPiece {
    pub length: usize,
    pub token: Option<(usize, TokenKind)>,
    pub mode: Mode,
}

/// A piece that gives no token.
pub fn gives_nothing(length: usize, mode: Mode) -> NextPiece
    ensures { result ≡ record { length = length; token = None; mode = mode } }
{
    NextPiece {
        length,
        token: None,
        mode,
    }
}

fn plain(alloc: Global, mode: Mode, text: &[u8]) -> Result<NextPiece, PieceError>
    requires mode { state_of mode ≢ ignored }
    requires hash { state_of mode ≡ fresh → slice_index text.now 0 ≢ 35 }
    requires splice { state_of mode ≡ directive → (n : ℕ) → Splice text.now n → ⊥ }
    requires block { IsBlockStart text.now → ⊥ }
    requires line { IsLineStart text.now → ⊥ }
    requires some { 0 < length text.now }
    requires white { is_white (slice_index text.now 0) ≡ false }
    ensures ok { IfOk result (λ c. IsPiece text.now (state_of mode) c) }
    ensures err { IfErr result (λ e. IsBroken text.now (state_of mode) e) }
{
    match token_at(alloc, text) {
        Err(bad) => Err(bad),
        Ok((length, kind)) => Ok(NextPiece {
            length,
            token: Some((0, kind)),
            mode: behind_token(mode),
        }),
    }
}

/// A piece outside of `#` lines, behind its comments.
fn outside(alloc: Global, mode: Mode, text: &[u8]) -> Result<NextPiece, PieceError>
    requires mode { IsOutside (state_of mode) }
    requires block { IsBlockStart text.now → ⊥ }
    requires line { IsLineStart text.now → ⊥ }
    requires some { 0 < length text.now }
    ensures ok { IfOk result (λ c. IsPiece text.now (state_of mode) c) }
    ensures err { IfErr result (λ e. IsBroken text.now (state_of mode) e) }
{
    let first = byte_at(text, 0);
    if is_white(first) {
        return Ok(gives_nothing(1, behind_white(mode, first)));
    }
    if is_start(mode) && first == b'#' {
        return hash(alloc, text);
    }
    plain(alloc, mode, text)
}

fn is_start(mode: Mode) -> bool
    ensures yes { result ≡ true → state_of mode ≡ fresh }
    ensures no { result ≡ false → state_of mode ≢ fresh }
{
    match mode {
        Mode::Start => true,
        _ => false,
    }
}

fn behind_white(mode: Mode, byte: u8) -> Mode
    ensures { state_of result ≡ behind_white (state_of mode) (byte == 10) }
{
    if byte == b'\n' { Mode::Start } else { mode }
}

/// A piece of a line whose tokens are cut, behind its white space.
fn in_line(alloc: Global, text: &[u8]) -> Result<NextPiece, PieceError>
    requires line_space { IsLineSpace text.now Nothing }
    requires some { 0 < length text.now }
    ensures ok { IfOk result (λ c. IsPiece text.now directive c) }
    ensures err { IfErr result (λ e. IsBroken text.now directive e) }
{
    if byte_at(text, 0) == b'\n' {
        return Ok(NextPiece {
            length: 1,
            token: Some((0, TokenKind::Close)),
            mode: Mode::Start,
        });
    }
    plain(alloc, Mode::Directive, text)
}

fn ignored(text: &[u8]) -> NextPiece
    requires line_space { IsLineSpace text.now Nothing }
    requires some { 0 < length text.now }
    ensures { IsPiece text.now ignored result }
{
    if byte_at(text, 0) == b'\n' {
        gives_nothing(1, Mode::Start)
    } else {
        gives_nothing(1, Mode::Ignored)
    }
}

/// The piece at the front of a text.
pub fn piece_at(alloc: Global, mode: Mode, text: &[u8]) -> Result<NextPiece, PieceError>
    requires { 0 < length text.now }
    ensures ok { IfOk result (λ c. IsPiece text.now (state_of mode) c) }
    ensures err { IfErr result (λ e. IsBroken text.now (state_of mode) e) }
{
    match mode {
        Mode::Start => piece_outside(alloc, Mode::Start, text),
        Mode::Middle => piece_outside(alloc, Mode::Middle, text),
        Mode::Directive => match line_space(text) {
            Found::Unclosed => Err(PieceError::Rule(2, 0)),
            Found::Some(n) => Ok(gives_nothing(n, Mode::Directive)),
            Found::Nothing => in_line(alloc, text),
        },
        Mode::Ignored => match line_space(text) {
            Found::Unclosed => Err(PieceError::Rule(2, 0)),
            Found::Some(n) => Ok(gives_nothing(n, Mode::Ignored)),
            Found::Nothing => Ok(ignored(text)),
        },
    }
}

fn piece_outside(alloc: Global, mode: Mode, text: &[u8]) -> Result<NextPiece, PieceError>
    requires mode { IsOutside (state_of mode) }
    requires some { 0 < length text.now }
    ensures ok { IfOk result (λ c. IsPiece text.now (state_of mode) c) }
    ensures err { IfErr result (λ e. IsBroken text.now (state_of mode) e) }
{
    match comment(text) {
        Found::Unclosed => Err(PieceError::Rule(2, 0)),
        Found::Some(n) => Ok(gives_nothing(n, mode)),
        Found::Nothing => outside(alloc, mode, text),
    }
}

fn behind_token(mode: Mode) -> Mode
    ensures { state_of result ≡ behind_token (state_of mode) }
{
    match mode {
        Mode::Start => Mode::Middle,
        Mode::Middle => Mode::Middle,
        Mode::Directive => Mode::Directive,
        Mode::Ignored => Mode::Ignored,
    }
}

fn step(at: Place, byte: u8) -> Place
    requires line { at.line < 2 ^ 31 }
    requires column { at.column < 2 ^ 31 }
    ensures { result ≡ step at (byte == 10) }
{
    if byte == b'\n' {
        Place {
            line: at.line + 1,
            column: 1,
        }
    } else {
        Place {
            line: at.line,
            column: at.column + 1,
        }
    }
}

/// The place behind these bytes.
pub fn behind(at: Place, piece: &[u8]) -> Place
    requires line { at.line + length piece.now < 2 ^ 31 }
    requires column { at.column + length piece.now < 2 ^ 31 }
    ensures value { result ≡ behind at piece.now }
    ensures line { result.line ≤ at.line + length piece.now }
    ensures column { result.column ≤ at.column + length piece.now }
{
    let mut place = at;
    for byte in piece {
        place = step(place, *byte);
    }
    place
}

fn refused(rule: u16, at: Place) -> Fault
    ensures { result ≡ breaks rule at }
{
    Fault::Refused(Refusal {
        phase: Phase::Lex,
        rule,
        at,
    })
}

/// Puts down a token, where it is not one too many.
fn push(tokens: &mut Vec<Token>, kind: TokenKind, at: Place) -> Result<(), Fault>
    requires { length tokens.old.items ≤ token_limit }
    ensures ok { OnOk result ((tokens.new.items ≡ tokens.old.items ++ record { kind = kind; at = at } ∷ [])
        × (length tokens.new.items ≤ token_limit)) }
    ensures err { IfErr result (λ e. IsTooMany tokens.old.items (record { kind = kind; at = at } ∷ []) e) }
{
    if tokens.len() == TOKEN_LIMIT {
        return Err(refused(5, at));
    }
    match tokens.push(Token { kind, at }) {
        Ok(()) => Ok(()),
        Err(_) => Err(Fault::NoMemory),
    }
}

/// Puts down the token of a piece.
fn put(
    tokens: &mut Vec<Token>,
    token: Option<(usize, TokenKind)>,
    at: Place,
    rest: &[u8],
) -> Result<(), Fault>
    requires few { length tokens.old.items ≤ token_limit }
    requires within { IfSome token (λ o. o.0 ≤ length rest.now) }
    requires line { at.line + length rest.now < 2 ^ 31 }
    requires column { at.column + length rest.now < 2 ^ 31 }
    ensures ok { OnOk result ((tokens.new.items ≡ tokens.old.items ++ placed at rest.now (option_to_list token))
        × (length tokens.new.items ≤ token_limit)) }
    ensures err { IfErr result (λ e. IsTooMany tokens.old.items (placed at rest.now (option_to_list token)) e) }
{
    match token {
        None => Ok(()),
        Some((k, kind)) => {
            let place = behind(at, front(rest, k));
            push(tokens, kind, place)
        }
    }
}

/// Puts down the tokens at the end of a text.
fn finish(tokens: &mut Vec<Token>, mode: Mode, at: Place) -> Result<(), Fault>
    requires { length tokens.old.items ≤ token_limit }
    ensures ok { OnOk result ((tokens.new.items ≡ tokens.old.items ++ ending (state_of mode) at) × (length tokens.new.items ≤ token_limit)) }
    ensures err { IfErr result (λ e. IsTooMany tokens.old.items (ending (state_of mode) at) e) }
{
    if !is_directive(mode) {
        return push(tokens, TokenKind::Finish, at);
    }
    match push(tokens, TokenKind::Close, at) {
        Err(fault) => Err(fault),
        Ok(()) => push(tokens, TokenKind::Finish, at),
    }
}

/// A broken rule, with its place.
fn refusal(bad: PieceError, at: Place, rest: &[u8]) -> Fault
    requires within { IsWithin bad rest.now }
    requires line { at.line + length rest.now < 2 ^ 31 }
    requires column { at.column + length rest.now < 2 ^ 31 }
    ensures { result ≡ refusal bad at rest.now }
{
    match bad {
        PieceError::NoMemory => Fault::NoMemory,
        PieceError::Rule(rule, k) => refused(rule, behind(at, front(rest, k))),
    }
}

/// Cuts a text into its tokens, with the tokens of its definitions in their lines.
///
/// A text has at most 1,048,576 bytes. Time and memory grow with its length.
pub fn lex(alloc: Global, text: &[u8]) -> Result<Vec<Token>, Fault>
    requires { length text.now ≤ source_limit }
    ensures ok { IfOk result (λ tokens. Cut text.now tokens.items) }
    ensures err { IfErr result (IsRefused text.now) }
    ensures no_other { (tokens : List Token) → Cut text.now tokens → IfErr result (λ e. e ≡ fault.NoMemory) }

    // What `expand` asks for.
    ensures finished { IfOk result (λ tokens. IsFinished tokens.items) }
    ensures closed { IfOk result (λ tokens. IsClosed tokens.items) }
{
    cut_all(alloc, text)
}

fn cut_all(alloc: Global, text: &[u8]) -> Result<Vec<Token>, Fault>
    requires { length text.now ≤ source_limit }
    ensures ok { IfOk result (λ tokens. Cut text.now tokens.items) }
    ensures err { IfErr result (IsRefused text.now) }
{
    let mut tokens: Vec<Token> = Vec::new(alloc);
    let mut rest = text;
    let mut at = Place { line: 1, column: 1 };
    let mut mode = Mode::Start;
    while !rest.is_empty() {
        match piece_at(alloc, mode, rest) {
            Err(bad) => return Err(refusal(bad, at, rest)),
            Ok(
                NextPiece {
                    length,
                    token,
                    mode: next,
                },
            ) => {
                match put(&mut tokens, token, at, rest) {
                    Err(fault) => return Err(fault),
                    Ok(()) => {}
                }
                at = behind(at, front(rest, length));
                rest = from(rest, length);
                mode = next;
            }
        }
    }
    match finish(&mut tokens, mode, at) {
        Err(fault) => Err(fault),
        Ok(()) => Ok(tokens),
    }
}

fn is_directive(mode: Mode) -> bool
    ensures { result ≡ is_directive mode }
{
    match mode {
        Mode::Directive => true,
        _ => false,
    }
}
