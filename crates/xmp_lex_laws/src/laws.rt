// Laws of the tokens and of the macros of a text: it has some, or a rule breaks.
ghost use Rattle.std.specs.Prelude.{◌⊎◌, ℕ, List};
ghost use Rattle.xmp_base.specs.declared.place.Place.{Place};
ghost use Rattle.xmp_lex.specs.declared.token.Token.{Token};
ghost use Rattle.xmp_lex.specs.Cut.{Cut, BreaksLexRule};
ghost use Rattle.xmp_lex.specs.Expand.{Expanded, BreaksMacros};
ghost use Rattle.xmp_lex.specs.Lines.{IsClosed};

/// Each text is cut into tokens, or a rule L breaks at a place of it.
pub fn every_text_is_cut_or_refused()
    ensures { (text : List ℕ) → ((tokens : List Token) × Cut text tokens) ⊎ ((rule : ℕ) × (at : Place) × BreaksLexRule text rule at) }
{}

/// Tokens whose definitions are closed are expanded, or a rule E breaks at a place.
pub fn every_closed_text_is_expanded_or_refused()
    ensures { (tokens : List Token) → IsClosed tokens → ((result : List Token) × Expanded tokens result) ⊎ ((rule : ℕ) × (at : Place) × BreaksMacros tokens rule at) }
{}
