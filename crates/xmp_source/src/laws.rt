// Laws of the trees and refusals of texts.
ghost use Rattle.std.specs.Prelude.{◌≡◌, ℕ, List};
ghost use Rattle.xmp_base.specs.declared.refusal.Refusal.{Refusal};
ghost use Rattle.xmp_base.specs.declared.refusal.Fault.TheVariants as fault;
ghost use Rattle.xmp_syntax.specs.declared.program.Tree.{Tree};
ghost use Rattle.xmp_source.specs.Source.{Breaks, IsTreeOf};

use xmp_lex::{
    cut_or_refused, expanded_or_refused, one_cut, one_expansion, one_lex_refusal, one_macro_refusal,
};
use xmp_parse::{never_parsed_and_refused, one_syntax_refusal};
use xmp_syntax::same_tokens;

/// A text has one tree at most, places included.
pub fn one_source_tree()
    ensures { (text : List ℕ) (x y : Tree) → IsTreeOf text x → IsTreeOf text y → x ≡ y }
{
    one_cut();
    one_expansion();
    same_tokens();
}

/// No text both has a tree and is refused.
pub fn never_tree_and_refused()
    ensures { (text : List ℕ) (x : Tree) (r : Refusal) → IsTreeOf text x → Breaks text (fault.Refused r) → ⊥ }
{
    one_cut();
    one_expansion();
    cut_or_refused();
    expanded_or_refused();
    never_parsed_and_refused();
}

/// A text is refused by one rule at one place in the phases text, macros and syntax.
pub fn one_source_refusal()
    ensures { (text : List ℕ) (r s : Refusal) → Breaks text (fault.Refused r) → Breaks text (fault.Refused s) → r ≡ s }
{
    one_cut();
    one_expansion();
    one_lex_refusal();
    one_macro_refusal();
    cut_or_refused();
    expanded_or_refused();
    one_syntax_refusal();
}
