// Laws of readings.
ghost use Rattle.std.specs.Prelude.{◌⊎◌, ℕ, List, []};
ghost use Rattle.xmp_lex.specs.declared.token.Token.{Token};
ghost use Rattle.xmp_lex.specs.Lines.{IsFinished};
ghost use Rattle.xmp_syntax.specs.declared.program.Tree.{Tree};
ghost use Rattle.xmp_syntax.specs.Fronts.{FirstBad};
ghost use Rattle.xmp_syntax.specs.Grammar.{rule};
ghost use Rattle.xmp_syntax.specs.Reading.{Rule, State, reading, Reads};
ghost use Rattle.xmp_syntax.specs.Refused.{IsProgram, TooDeep, start, program_rules};
ghost use Rattle.xmp_syntax_laws.specs.OpenParts.{Counts};

/// Tokens that end with a Finish are a program, or one of them is the first with which they begin none, or the first that
/// stands too deep.
pub fn every_finished_text_is_a_program_or_refused()
    ensures { (ts : List Token) → IsFinished ts
        → ((x : Tree) × IsProgram ts x) ⊎ ((left : ℕ) × FirstBad ts left) ⊎ ((left : ℕ) × TooDeep start program_rules ts left) }
{}

/// The depth that a reading from the start of a text gives a token is the number of parts that are open at it.
pub fn depths_count_open_parts()
    ensures counts { (K : List Rule) (ts : List Token) (ds : List ℕ) (u : State) → Reads rule (reading start K ts) ds u → Counts (reading start K ts) [] ds u }
    ensures reads { (K : List Rule) (ts : List Token) (ds : List ℕ) (u : State) → Counts (reading start K ts) [] ds u → Reads rule (reading start K ts) ds u }
{}
