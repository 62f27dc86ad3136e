// Macros are replaced.
ghost use Rattle.std.specs.Prelude.{List, ◌≡◌, ◌+◌, ◌≤◌, [], ◌∷◌, ◌++◌, IfOk, IfErr, OnOk, option_map, Some, false, is_some};
ghost use Rattle.std.specs.List.{list_any};
ghost use Rattle.xmp_lex.specs.Expand.{same, out, used, Replaces, moved, definition_of, Expanded, IsMacroRefusal};
ghost use Rattle.xmp_lex.specs.declared.token.Token.{Token};
ghost use Rattle.xmp_lex.specs.Lines.{IsFinished, IsClosed, Closes, IsClosedBehind};
ghost use Rattle.xmp_lex.specs.Output.{frame, frames, Puts, PutsOut, Overflows, Advances, IsFull, IsStopped, names_of, is_close, Defines, IsSecond, IsLine, Steps, BreaksAt};
ghost use Rattle.xmp_base.specs.declared.refusal.Fault.TheVariants as fault;
ghost use Rattle.xmp_base.specs.Limits.{token_limit};

use crate::definitions::{Definitions, Hidden, Use};
use crate::output::{Output, count_name, put, put_copy, refused, room_for};
use crate::token::{Token, TokenKind};
use std::alloc::Global;
use std::collections::VecDeque;
use xmp_base::{Fault, NoMemory, Place, first_and_rest};

/// The use that a token is, if it is a name that is replaced.
fn use_of<'a>(
    definitions: &'a Definitions,
    hidden: &Hidden<'a>,
    kind: &'a TokenKind,
) -> Option<Use<'a>>
    ensures { option_map (λ u. (u.name.now, u.rest.now)) result ≡ definition_of definitions.now hidden.now kind.now }
{
    match kind {
        TokenKind::Name(name) => {
            if hidden.has(name.as_slice()) {
                return None;
            }
            match definitions.body_of(name.as_slice()) {
                Some(body) => Some(Use {
                    name: name.as_slice(),
                    rest: body,
                }),
                None => None,
            }
        }
        _ => None,
    }
}

/// Opens a use.
fn open<'a>(uses: &mut Vec<Use<'a>>, hidden: &mut Hidden<'a>, inner: Use<'a>) -> Result<(), Fault>
    requires { list_any (same inner.name.now) hidden.old ≡ false }
    ensures uses { OnOk result (uses.new.items ≡ uses.old.items ++ inner.entry ∷ []) }
    ensures hidden { OnOk result (hidden.new ≡ hidden.old ++ inner.entry.name.now ∷ []) }
    ensures err { IfErr result (λ e. e ≡ fault.NoMemory) }
{
    match hidden.hide(inner.name) {
        Err(_) => Err(Fault::NoMemory),
        Ok(()) => resume(uses, inner),
    }
}

/// Puts a use back, with the tokens that it has left.
fn resume<'a>(uses: &mut Vec<Use<'a>>, left: Use<'a>) -> Result<(), Fault>
    ensures ok { OnOk result (uses.new.items ≡ uses.old.items ++ left.entry ∷ []) }
    ensures err { IfErr result (λ e. e ≡ fault.NoMemory) }
{
    match uses.push(left) {
        Err(_) => Err(Fault::NoMemory),
        Ok(()) => Ok(()),
    }
}

/// Takes the next token of the innermost use, which is off the stack for that.
fn advance<'a>(
    alloc: Global,
    definitions: &'a Definitions,
    current: Use<'a>,
    at: Place,
    uses: &mut Vec<Use<'a>>,
    hidden: &mut Hidden<'a>,
    output: &mut Output,
) -> Result<(), Fault>
    requires few { output.old.count ≤ token_limit }
    requires names { hidden.old ≡ names_of (frames uses.old.items ++ frame current ∷ []) }
    ensures ok { OnOk result (Advances definitions.now at (frames uses.old.items ++ frame current.entry ∷ [])
        (frames uses.new.items) hidden.new output.old output.new) }
    ensures err { IfErr result (IsStopped output.old.count current.entry.rest.now at) }
{
    match first_and_rest(current.rest) {
        None => {
            hidden.show_last();
            Ok(())
        }
        Some((token, rest)) => {
            let left = Use {
                name: current.name,
                rest,
            };
            match use_of(definitions, hidden, &token.kind) {
                None => keep(alloc, left, &token.kind, at, uses, output),
                Some(inner) => enter(left, inner, at, uses, hidden, output),
            }
        }
    }
}

/// A token of a use stays.
fn keep<'a>(
    alloc: Global,
    left: Use<'a>,
    kind: &TokenKind,
    at: Place,
    uses: &mut Vec<Use<'a>>,
    output: &mut Output,
) -> Result<(), Fault>
    requires few { output.old.count ≤ token_limit }
    ensures uses { OnOk result (uses.new.items ≡ uses.old.items ++ left.entry ∷ []) }
    ensures put { OnOk result (PutsOut (out (record { kind = kind.now; at = at }) ∷ []) output.old output.new) }
    ensures err { IfErr result (IsFull output.old.count at) }
{
    match put_copy(output, alloc, kind, at) {
        Err(fault) => Err(fault),
        Ok(()) => resume(uses, left),
    }
}

/// A name of a use is replaced.
fn enter<'a>(
    left: Use<'a>,
    inner: Use<'a>,
    at: Place,
    uses: &mut Vec<Use<'a>>,
    hidden: &mut Hidden<'a>,
    output: &mut Output,
) -> Result<(), Fault>
    requires few { output.old.count ≤ token_limit }
    requires shown { list_any (same inner.name.now) hidden.old ≡ false }
    ensures uses { OnOk result (uses.new.items ≡ uses.old.items ++ left.entry ∷ [] ++ inner.entry ∷ []) }
    ensures hidden { OnOk result (hidden.new ≡ hidden.old ++ inner.entry.name.now ∷ []) }
    ensures put { OnOk result (PutsOut (used at ∷ []) output.old output.new) }
    ensures err { IfErr result (IsFull output.old.count at) }
{
    match count_name(output, at) {
        Err(fault) => Err(fault),
        Ok(()) => match resume(uses, left) {
            Err(fault) => Err(fault),
            Ok(()) => open(uses, hidden, inner),
        },
    }
}

/// Puts out what a use comes to.
fn replace<'a>(
    alloc: Global,
    definitions: &'a Definitions,
    first: Use<'a>,
    at: Place,
    output: &mut Output,
) -> Result<(), Fault>
    requires { output.old.count ≤ token_limit }
    ensures ok { OnOk result (Puts (Replaces definitions.now (first.entry.name.now ∷ []) (moved at first.entry.rest.now)) output.old output.new) }
    ensures err { IfErr result (Overflows (Replaces definitions.now (first.entry.name.now ∷ []) (moved at first.entry.rest.now)) output.old at) }
{
    let mut hidden = Hidden::new(alloc);
    let mut uses = Vec::new(alloc);
    match open(&mut uses, &mut hidden, first) {
        Err(fault) => return Err(fault),
        Ok(()) => {}
    }
    while let Some(current) = uses.pop() {
        match advance(
            alloc,
            definitions,
            current,
            at,
            &mut uses,
            &mut hidden,
            output,
        ) {
            Err(fault) => return Err(fault),
            Ok(()) => {}
        }
    }
    Ok(())
}

/// Puts out what a token of the text comes to, which stays where it is.
fn replace_token<'a>(
    alloc: Global,
    definitions: &'a Definitions,
    token: &'a Token,
    output: &mut Output,
) -> Result<(), Fault>
    requires { output.old.count ≤ token_limit }
    ensures ok { OnOk result (Puts (Replaces definitions.now [] (token.now ∷ [])) output.old output.new) }
    ensures err { IfErr result (Overflows (Replaces definitions.now [] (token.now ∷ [])) output.old token.now.at) }
{
    match use_of(definitions, &Hidden::new(alloc), &token.kind) {
        None => put_copy(output, alloc, &token.kind, token.at),
        Some(first) => match count_name(output, token.at) {
            Err(fault) => Err(fault),
            Ok(()) => replace(alloc, definitions, first, token.at, output),
        },
    }
}

/// Whether a token of the text is replaced.
fn is_replaced(definitions: &Definitions, kind: &TokenKind) -> bool
    ensures { result ≡ is_some (definition_of definitions.now [] kind.now) }
{
    match kind {
        TokenKind::Name(name) => definitions.body_of(name.as_slice()).is_some(),
        _ => false,
    }
}

/// Puts out what a token of the text comes to: itself where it is not replaced.
fn put_token(
    alloc: Global,
    definitions: &Definitions,
    token: Token,
    output: &mut Output,
) -> Result<(), Fault>
    requires { output.old.count ≤ token_limit }
    ensures ok { OnOk result (Puts (Replaces definitions.now [] (token ∷ [])) output.old output.new) }
    ensures err { IfErr result (Overflows (Replaces definitions.now [] (token ∷ [])) output.old token.at) }
{
    if is_replaced(definitions, &token.kind) {
        return replace_token(alloc, definitions, &token, output);
    }
    put(output, token)
}

fn is_close(kind: &TokenKind) -> bool
    ensures { result ≡ is_close kind.now }
{
    match kind {
        TokenKind::Close => true,
        _ => false,
    }
}

/// Takes the tokens of a line and its Close.
fn line(alloc: Global, rest: &mut VecDeque<Token>) -> Result<Vec<Token>, NoMemory>
    requires { Closes rest.old.items }
    ensures { IfOk result (λ body. IsLine body.items rest.old.items rest.new.items) }
{
    let mut body = Vec::new(alloc);
    while let Some(token) = rest.pop_front() {
        if is_close(&token.kind) {
            return Ok(body);
        }
        body.push(token)?;
    }
    Ok(body)
}

/// Reads a definition up to the end of its line.
fn define(
    alloc: Global,
    definitions: &mut Definitions,
    name: &[u8],
    at: Place,
    rest: &mut VecDeque<Token>,
) -> Result<(), Fault>
    requires { Closes rest.old.items }
    ensures ok { OnOk result (Defines definitions.old definitions.new name.now rest.old.items rest.new.items) }
    ensures err { IfErr result (IsSecond definitions.old name.now at) }
{
    if definitions.body_of(name).is_some() {
        return Err(refused(1, at));
    }
    let body = line(alloc, rest)?;
    definitions.add(alloc, name, body)?;
    Ok(())
}

/// Goes on with the text behind a token.
fn step(
    alloc: Global,
    definitions: &mut Definitions,
    token: Token,
    rest: &mut VecDeque<Token>,
    output: &mut Output,
) -> Result<(), Fault>
    requires few { output.old.count ≤ token_limit }
    requires closed { IsClosedBehind token.kind rest.old.items }
    ensures ok { OnOk result (Steps token.kind definitions.old definitions.new token rest.old.items rest.new.items output.old output.new) }
    ensures err { IfErr result (BreaksAt token.kind definitions.old token output.old) }
{
    if let TokenKind::Define(name) = &token.kind {
        return define(alloc, definitions, name.as_slice(), token.at, rest);
    }
    put_token(alloc, definitions, token, output)
}

/// The text's tokens, with each name that is defined replaced by its definition's tokens, and without the definitions.
///
/// A replaced token has the place of the outermost use. Time and memory grow with the tokens given and put out.
pub fn expand(alloc: Global, tokens: Vec<Token>) -> Result<Vec<Token>, Fault>
    requires finished { IsFinished tokens.items }
    requires closed { IsClosed tokens.items }
    ensures ok { IfOk result (λ expanded. Expanded tokens.items expanded.items) }
    ensures err { IfErr result (IsMacroRefusal tokens.items) }
    ensures no_other { (expanded : List Token) → Expanded tokens.items expanded → IfErr result (λ e. e ≡ fault.NoMemory) }
    ensures finished { IfOk result (λ expanded. IsFinished expanded.items) }
{
    expand_all(alloc, tokens)
}

fn expand_all(alloc: Global, tokens: Vec<Token>) -> Result<Vec<Token>, Fault>
    requires finished { IsFinished tokens.items }
    requires closed { IsClosed tokens.items }
    ensures ok { IfOk result (λ expanded. Expanded tokens.items expanded.items) }
    ensures err { IfErr result (IsMacroRefusal tokens.items) }
    ensures finished { IfOk result (λ expanded. IsFinished expanded.items) }
{
    let mut definitions = Definitions::new(alloc);
    let mut output = room_for(alloc, tokens.len())?;
    let mut rest = VecDeque::from(tokens);
    while let Some(token) = rest.pop_front() {
        match step(alloc, &mut definitions, token, &mut rest, &mut output) {
            Err(fault) => return Err(fault),
            Ok(()) => {}
        }
    }
    Ok(output.tokens)
}
