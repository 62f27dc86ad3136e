// Laws of the grammar and of trees.
ghost use Rattle.std.specs.Prelude.{◌≡◌, ◌++◌, ℕ, List};
ghost use Rattle.xmp_lex.specs.declared.token.Token.{Token};
ghost use Rattle.xmp_syntax.specs.declared.program.Tree.{Tree};
ghost use Rattle.xmp_syntax.specs.Fits.{FitsTree};
ghost use Rattle.xmp_syntax.specs.Fronts.{IsFront, FirstBad};
ghost use Rattle.xmp_syntax.specs.Shape.{tree_shape};
ghost use Rattle.xmp_syntax.specs.Spell.{spelling, tokens};
ghost use Rattle.xmp_syntax.specs.Refused.{Begins, IsProgram, Stuck, TooDeep, start, program_rules};

/// No tokens are both a program and refused.
pub fn never_program_and_refused()
    ensures stuck { (ts : List Token) (x : Tree) (left : ℕ) → IsProgram ts x → Stuck start program_rules ts left → ⊥ }
    ensures deep { (ts : List Token) (x : Tree) (left : ℕ) → IsProgram ts x → TooDeep start program_rules ts left → ⊥ }
{}

/// What begins the spelling of a program does so without its last tokens.
pub fn shorter_begins()
    ensures { (ts us : List Token) → Begins start program_rules (ts ++ us) → Begins start program_rules ts }
{}

/// There is one token at most from which on tokens begin no program: the least.
pub fn one_stuck_token()
    ensures { (ts : List Token) (left other : ℕ) → Stuck start program_rules ts left → Stuck start program_rules ts other → left ≡ other }
{}

/// There is one token at most that is the first to stand too deep.
pub fn one_deep_token()
    ensures { (ts : List Token) (left other : ℕ) → TooDeep start program_rules ts left → TooDeep start program_rules ts other → left ≡ other }
{}

/// No tokens have both a token from which on they begin no program, those before it not too deep, and a first one too deep.
pub fn never_stuck_and_deep()
    ensures { (ts : List Token) (left other : ℕ) → Stuck start program_rules ts left → TooDeep start program_rules ts other → ⊥ }
{}

/// Tokens cease to begin a program by the grammar exactly where they cease to be the front of a tree that fits.
pub fn first_bad_token()
    ensures front { (ts : List Token) (left : ℕ) → Stuck start program_rules ts left → FirstBad ts left }
    ensures stuck { (ts : List Token) (left : ℕ) → FirstBad ts left → Stuck start program_rules ts left }
{}

/// Two trees that fit and have one spelling have one shape.
pub fn one_tree()
    ensures { (x y : Tree) → FitsTree x → FitsTree y → spelling x ≡ spelling y → tree_shape x ≡ tree_shape y }
{}

/// Two trees that fit and have the same tokens are equal.
pub fn same_tokens()
    ensures { (x y : Tree) → FitsTree x → FitsTree y → tokens x ≡ tokens y → x ≡ y }
{}

/// What begins a program by the grammar is the front of the spelling of a tree that fits, and each such front begins one.
pub fn begins_a_program()
    ensures front { (ts : List Token) → Begins start program_rules ts → IsFront ts }
    ensures begins { (ts : List Token) → IsFront ts → Begins start program_rules ts }
{}
