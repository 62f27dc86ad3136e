// What expansion puts out.
ghost use Rattle.std.specs.Prelude.{◌≡◌, ◌+◌, ◌≤◌, [], ◌∷◌, OnOk, IfOk, IfErr};
ghost use Rattle.xmp_lex.specs.Expand.{out, used};
ghost use Rattle.xmp_lex.specs.Output.{breaks_macro, IsFull, PutsOut};
ghost use Rattle.xmp_lex.specs.declared.output.Output.{Output};
ghost use Rattle.xmp_base.specs.Limits.{token_limit};

use crate::token::{Token, TokenKind};
use std::alloc::Global;
use xmp_base::{Fault, NoMemory, Phase, Place, Refusal, TOKEN_LIMIT};

/// The tokens so far, and how many they and the replaced names are.
#[derive(Drop)]
pub struct Output {
    pub tokens: Vec<Token>,
    pub count: usize,
}

/// The refusal by a rule E.
pub fn refused(rule: u16, at: Place) -> Fault
    ensures { result ≡ breaks_macro rule at }
{
    Fault::Refused(Refusal {
        phase: Phase::Macro,
        rule,
        at,
    })
}

/// Nothing yet, with room for some tokens.
pub fn room_for(alloc: Global, tokens: usize) -> Result<Output, NoMemory>
    ensures { IfOk result (λ output. (output.tokens.items ≡ []) × (output.count ≡ 0)) }
{
    Ok(Output {
        tokens: Vec::with_capacity(alloc, tokens)?,
        count: 0,
    })
}

/// Counts a name that is replaced, where it is not one too many.
pub fn count_name(output: &mut Output, at: Place) -> Result<(), Fault>
    requires { output.old.count ≤ token_limit }
    ensures ok { OnOk result (PutsOut (used at ∷ []) output.old output.new) }
    ensures err { IfErr result (IsFull output.old.count at) }
{
    if output.count == TOKEN_LIMIT {
        return Err(refused(2, at));
    }
    output.count += 1;
    Ok(())
}

/// Puts out a token.
pub fn put(output: &mut Output, token: Token) -> Result<(), Fault>
    requires { output.old.count ≤ token_limit }
    ensures ok { OnOk result (PutsOut (out token ∷ []) output.old output.new) }
    ensures err { IfErr result (IsFull output.old.count token.at) }
{
    if output.count == TOKEN_LIMIT {
        return Err(refused(2, token.at));
    }
    match output.tokens.push(token) {
        Err(_) => Err(Fault::NoMemory),
        Ok(()) => {
            output.count += 1;
            Ok(())
        }
    }
}

/// Puts out a token of this kind, which stays where it is.
pub fn put_copy(
    output: &mut Output,
    alloc: Global,
    kind: &TokenKind,
    at: Place,
) -> Result<(), Fault>
    requires { output.old.count ≤ token_limit }
    ensures ok { OnOk result (PutsOut (out (record { kind = kind.now; at = at }) ∷ []) output.old output.new) }
    ensures err { IfErr result (IsFull output.old.count at) }
{
    match kind.copied(alloc) {
        Err(_) => Err(Fault::NoMemory),
        Ok(kind) => put(output, Token { kind, at }),
    }
}
