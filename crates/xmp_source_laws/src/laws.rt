// Laws of the trees and refusals of texts: each text has one of the two.
ghost use Rattle.std.specs.Prelude.{◌⊎◌, ℕ, List};
ghost use Rattle.xmp_base.specs.declared.refusal.Refusal.{Refusal};
ghost use Rattle.xmp_base.specs.declared.refusal.Fault.TheVariants as fault;
ghost use Rattle.xmp_lex.specs.declared.token.Token.{Token};
ghost use Rattle.xmp_lex.specs.Lines.{IsFinished};
ghost use Rattle.xmp_syntax.specs.declared.program.Tree.{Tree};
ghost use Rattle.xmp_syntax.specs.Refused.{IsProgram};
ghost use Rattle.xmp_parse.specs.Faults as syntax;
ghost use Rattle.xmp_source.specs.Source.{Breaks, IsTreeOf};

/// Tokens that end with a Finish are a program, or break a rule of the syntax at a place.
pub fn every_finished_text_is_parsed_or_refused()
    ensures { (ts : List Token) → IsFinished ts → ((x : Tree) × IsProgram ts x) ⊎ ((r : Refusal) × syntax.Breaks ts r) }
{}

/// Each text has a tree, or breaks a rule of text, macros or syntax at a place.
pub fn every_text_has_a_tree_or_a_refusal()
    ensures { (text : List ℕ) → ((x : Tree) × IsTreeOf text x) ⊎ ((r : Refusal) × Breaks text (fault.Refused r)) }
{}
