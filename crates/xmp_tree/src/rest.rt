// Tokens that are put down from the last to the first.
ghost use Rattle.std.specs.Prelude.{◌≡◌, List, [], ◌∷◌, reverse, OnOk, IfOk, IsNone, MatchOption};
ghost use Rattle.xmp_lex.specs.declared.token.Token.{Token};
ghost use Rattle.xmp_lex.specs.declared.token.TokenKind.TheVariants.{Text};
ghost use Rattle.xmp_syntax.specs.Spell.{◌at◌, sign, spelled, word};

use std::alloc::Global;
use std::marker::Model;
use xmp_base::{Bytes, NoMemory, Place};
use xmp_lex::{Mark, Reserved, Token, TokenKind};

/// The tokens of the rest of a text.
#[derive(Drop)]
pub struct Rest {
    tokens: Vec<Token>,
}

impl Model for Rest {
    ghost Value = { List Token };

    ghost view = { λ r. reverse r.tokens.items };
}

impl Rest {
    pub fn new(alloc: Global) -> Self
        ensures { result ≡ [] }
    {
        Rest {
            tokens: Vec::new(alloc),
        }
    }

    /// Puts a token before the others.
    pub fn put(&mut self, kind: TokenKind, place: Place) -> Result<(), NoMemory>
        ensures { OnOk result (self.new ≡ kind at place ∷ self.old) }
    {
        self.tokens
            .push(Token { kind, at: place })
            .map_err(|_| NoMemory)
    }

    /// Takes the first token.
    pub fn take(&mut self) -> Option<Token>
        ensures { MatchOption result ((self.old ≡ []) × (self.new ≡ [])) (λ t. self.old ≡ t ∷ self.new) }
    {
        self.tokens.pop()
    }

    pub fn put_sign(&mut self, mark: Mark, place: Place) -> Result<(), NoMemory>
        ensures { OnOk result (self.new ≡ sign mark place self.old) }
    {
        self.put(TokenKind::Mark(mark), place)
    }

    pub fn put_word(&mut self, reserved: Reserved, place: Place) -> Result<(), NoMemory>
        ensures { OnOk result (self.new ≡ word reserved place self.old) }
    {
        self.put(TokenKind::Word(reserved), place)
    }

    /// Puts a plain name.
    pub fn put_spelled(&mut self, alloc: Global, bytes: &[u8], place: Place) -> Result<(), NoMemory>
        ensures { OnOk result (self.new ≡ spelled bytes.now place self.old) }
    {
        let mut copy = Bytes::new(alloc);
        copy.push_all(bytes)?;
        self.put(TokenKind::Name(copy), place)
    }

    /// Puts a string literal.
    pub fn put_text(&mut self, alloc: Global, bytes: &[u8], place: Place) -> Result<(), NoMemory>
        ensures { OnOk result (self.new ≡ Text bytes.now at place ∷ self.old) }
    {
        let mut copy = Bytes::new(alloc);
        copy.push_all(bytes)?;
        self.put(TokenKind::Text(copy), place)
    }
}
