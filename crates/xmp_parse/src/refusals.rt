// The refusal of a token.
ghost use Rattle.std.specs.Prelude.{◌≡◌, ℕ, List, ◌∷◌, ◌++◌, length};
ghost use Rattle.xmp_lex.specs.declared.token.Token.{Token};
ghost use Rattle.xmp_base.specs.declared.refusal.Fault.TheVariants as fault;
ghost use Rattle.xmp_base.specs.declared.refusal.Phase.TheVariants as phase;

use xmp_base::{Fault, Phase, Refusal};
use xmp_lex::Token;

/// The refusal of the token from which so many tokens are left.
pub fn refusal(tokens: &[Token], rule: u16, left: usize) -> Fault
    ensures { (front : List Token) (bad : Token) (after : List Token) → tokens.now ≡ front ++ bad ∷ after → left ≡ length (bad ∷ after)
        → result ≡ fault.Refused (record { phase = phase.Syntax; rule = rule; at = bad.at }) }
{
    let behind = tokens.len().saturating_sub(left);
    match tokens.get(behind) {
        Some(token) => Fault::Refused(Refusal {
            phase: Phase::Syntax,
            rule,
            at: token.at,
        }),
        None => Fault::NoMemory,
    }
}
