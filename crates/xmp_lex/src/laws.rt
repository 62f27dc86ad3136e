// Laws of the tokens and of the macros of a text.
ghost use Rattle.std.specs.Prelude.{◌≡◌, ◌↔◌, ℕ, List, [], All};
ghost use Rattle.xmp_base.specs.declared.place.Place.{Place};
ghost use Rattle.xmp_lex.specs.declared.token.Token.{Token};
ghost use Rattle.xmp_lex.specs.Cut.{Front, Cuts, Cut, BreaksLexRule, IsPlaceOf};
ghost use Rattle.xmp_lex.specs.LineStates.{fresh};
ghost use Rattle.xmp_lex.specs.LineStarts.{StandsFirst};
ghost use Rattle.xmp_lex.specs.Expand.{Event, Expands, Expanded, BreaksMacros};
ghost use Rattle.xmp_lex.specs.Lines.{IsClosed};

/// A `#` may begin a `#` line exactly where only white space and comments stand on its line.
pub fn fresh_line()
    ensures { (text : List ℕ) (f : Front) → Cuts text f → (f.state ≡ fresh) ↔ StandsFirst text f }
{}

/// A text is cut in at most one way.
pub fn one_cut()
    ensures { (text : List ℕ) (tokens others : List Token) → Cut text tokens → Cut text others → tokens ≡ others }
{}

/// Each token stands at a place of the text.
pub fn token_places()
    ensures { (text : List ℕ) (tokens : List Token) → Cut text tokens → All (λ token. IsPlaceOf text token.at) tokens }
{}

/// No text is both cut and refused.
pub fn never_cut_and_refused()
    ensures { (text : List ℕ) (tokens : List Token) (rule : ℕ) (at : Place) → Cut text tokens → BreaksLexRule text rule at → ⊥ }
{}

/// A text is refused by one rule L at one place.
pub fn one_lex_refusal()
    ensures { (text : List ℕ) (rule other : ℕ) (at place : Place) → BreaksLexRule text rule at → BreaksLexRule text other place
        → (rule ≡ other) × (at ≡ place) }
{}

/// Tokens whose definitions are closed come to something.
pub fn some_expansion()
    ensures { (tokens : List Token) → IsClosed tokens → (events : List Event) × Expands [] tokens events }
{}

/// Tokens come to at most one list of events.
pub fn one_expansion()
    ensures { (tokens : List Token) (events others : List Event) → Expands [] tokens events → Expands [] tokens others → events ≡ others }
{}

/// No tokens are both expanded and refused.
pub fn never_expanded_and_refused()
    ensures { (tokens result : List Token) (rule : ℕ) (at : Place) → Expanded tokens result → BreaksMacros tokens rule at → ⊥ }
{}

/// Tokens are refused by one rule E at one place.
pub fn one_macro_refusal()
    ensures { (tokens : List Token) (rule other : ℕ) (at place : Place) → BreaksMacros tokens rule at → BreaksMacros tokens other place
        → (rule ≡ other) × (at ≡ place) }
{}

/// The law `never_cut_and_refused`, by the name that crates above still use.
pub fn cut_or_refused()
    ensures { (text : List ℕ) (tokens : List Token) (rule : ℕ) (at : Place) → Cut text tokens → BreaksLexRule text rule at → ⊥ }
{
    never_cut_and_refused();
}

/// The law `never_expanded_and_refused`, by the name that crates above still use.
pub fn expanded_or_refused()
    ensures { (tokens result : List Token) (rule : ℕ) (at : Place) → Expanded tokens result → BreaksMacros tokens rule at → ⊥ }
{
    never_expanded_and_refused();
}
