// Laws of what is answered for tokens.
ghost use Rattle.std.specs.Prelude.{◌≡◌, List};
ghost use Rattle.xmp_base.specs.declared.refusal.Refusal.{Refusal};
ghost use Rattle.xmp_lex.specs.declared.token.Token.{Token};
ghost use Rattle.xmp_syntax.specs.declared.program.Tree.{Tree};
ghost use Rattle.xmp_syntax.specs.Refused.{IsProgram};
ghost use Rattle.xmp_parse.specs.Faults.{Breaks};

use xmp_syntax::{
    never_program_and_refused, never_stuck_and_deep, one_deep_token, one_stuck_token,
};

/// Tokens are refused by one rule at one place.
pub fn one_syntax_refusal()
    ensures { (ts : List Token) (r s : Refusal) → Breaks ts r → Breaks ts s → r ≡ s }
{
    one_stuck_token();
    one_deep_token();
    never_stuck_and_deep();
}

/// No tokens are both a program and refused.
pub fn never_parsed_and_refused()
    ensures { (ts : List Token) (x : Tree) (r : Refusal) → IsProgram ts x → Breaks ts r → ⊥ }
{
    never_program_and_refused();
}
