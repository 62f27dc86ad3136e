// Tokens that are read from left to right.
ghost use Rattle.std.specs.Option.{option_copied};
ghost use Rattle.std.specs.Prelude.{◌≡◌, ◌≤◌, ◌<◌, ◌&&◌, ◌||◌, List, ℕ, IfOk, MatchOption, [], ◌∷◌, length, true, false, Some};
ghost use Rattle.xmp_lex.specs.declared.token.Mark.TheVariants as m;
ghost use Rattle.xmp_lex.specs.declared.token.TokenKind.TheVariants as t;
ghost use Rattle.xmp_syntax.specs.Reading.{Test, Rule, Depths, State, part, tok};
ghost use Rattle.xmp_syntax.specs.Parts as p;
ghost use Rattle.xmp_syntax.specs.Grammar as g;
ghost use Rattle.xmp_syntax.specs.Spell.{◌at◌, type_word};
ghost use Rattle.xmp_reader.specs.Going.{Comes};
ghost use Rattle.xmp_reader.specs.Kinds.{next_is, next_are, begins_image, next_kind, next_mark, next_name, next_text, next_number, next_type};
ghost use Rattle.xmp_lex.specs.declared.token.TokenKind.{TokenKind};
ghost use Rattle.xmp_reader.specs.declared.effect.Effect.TheVariants as eff;
ghost use Rattle.xmp_reader.specs.declared.reader.Stop.TheVariants as stop;
ghost use Rattle.xmp_reader.specs.Depths.{now_behind, base_behind};
ghost use Rattle.xmp_reader.specs.Effects.{Takes, OpensImage, Finishes};
ghost use Rattle.xmp_reader.specs.Classes.{of_class, IsClass};

use crate::depth::Depth;
use crate::effect::{Effect, behind};
use crate::kinds::{
    is_close, is_finish, is_mark, is_name, is_number, is_of, is_pragma, is_spelled, is_word,
    mark_in, name_in, number_in, text_in, type_in,
};
use crate::marks::{Class, has};
use std::alloc::{AllocError, Global};
use xmp_base::{Bytes, NoMemory, Place, first_and_rest};
use xmp_lex::{Mark, Reserved, Token, TokenKind};
use xmp_num::Ty;
use xmp_syntax::{Format, Name, Placed};

/// Why nothing was read: want of memory; or a token that begins no program, or one that stands too deep, with the
/// number of the tokens from it on.
#[derive(Clone, Copy, Debug, PartialEq, Eq)]
pub enum Stop {
    NoMemory,
    Unexpected(usize),
    TooDeep(usize),
}

impl From<AllocError> for Stop {
    ghost use Rattle.std.specs.Prelude.{◌≡◌};
    ghost use Rattle.xmp_reader.specs.declared.reader.Stop.TheVariants as stop;

    ghost from_gives = { λ _ e. e ≡ stop.NoMemory };

    fn from(_: AllocError) -> Stop {
        Stop::NoMemory
    }
}

impl From<NoMemory> for Stop {
    ghost use Rattle.std.specs.Prelude.{◌≡◌};
    ghost use Rattle.xmp_reader.specs.declared.reader.Stop.TheVariants as stop;

    ghost from_gives = { λ _ e. e ≡ stop.NoMemory };

    fn from(_: NoMemory) -> Stop {
        Stop::NoMemory
    }
}

/// The tokens that are left, and the depth before them.
#[derive(Clone, Copy)]
pub struct Reader<'a> {
    pub tokens: &'a [Token],
    pub depth: Depth,
}

/// What was read, and what is left.
pub type Parsed<'a, T> = Result<(T, Reader<'a>), Stop>;

impl<'a> Reader<'a> {
    /// The kind of the next token.
    pub fn kind(self) -> Option<&'a TokenKind>
        ensures { option_copied result ≡ next_kind self.entry.tokens.now }
    {
        match self.tokens.first() {
            Some(token) => Some(&token.kind),
            None => None,
        }
    }

    /// The refusal of the next token.
    pub fn unexpected(self) -> Stop
        ensures value { result ≡ stop.Unexpected (length self.entry.tokens.now) }
    {
        Stop::Unexpected(self.tokens.len())
    }

    /// Goes behind the next token.
    fn past(self, effect: Effect) -> Parsed<'a, Place>
        ensures goes { (p : Test) → p t.Finish ≡ false → next_is p self.entry.tokens.now ≡ true → Takes effect p self.entry result }
        ensures reads { (k : TokenKind) → next_kind self.entry.tokens.now ≡ Some k → IfOk result (λ x. self.entry.tokens.now ≡ (k at x.0) ∷ x.1.tokens.now) }
        ensures deep { IfOk result (λ x. x.1.depth.now ≤ 128) }
        ensures depth { IfOk result (λ x. (x.1.depth.now ≡ now_behind self.entry.depth effect) × (x.1.depth.base ≡ base_behind self.entry.depth effect)) }
        ensures shorter { IfOk result (λ x. length x.1.tokens.now < length self.entry.tokens.now) }
    {
        match first_and_rest(self.tokens) {
            None => Err(self.unexpected()),
            Some((token, rest)) => match behind(self.depth, effect) {
                None => Err(Stop::TooDeep(self.tokens.len())),
                Some(depth) => Ok((
                    token.at,
                    Reader {
                        tokens: rest,
                        depth,
                    },
                )),
            },
        }
    }

    /// Goes behind the next token, where it is the one to be found.
    pub fn take(self, found: bool, effect: Effect) -> Parsed<'a, Place>
        ensures goes { (p : Test) → p t.Finish ≡ false → next_is p self.entry.tokens.now ≡ found → Takes effect p self.entry result }
        ensures reads { (k : TokenKind) → (found ≡ true → next_kind self.entry.tokens.now ≡ Some k) → IfOk result (λ x. self.entry.tokens.now ≡ (k at x.0) ∷ x.1.tokens.now) }
        ensures found { IfOk result (λ x. found ≡ true) }
        ensures deep { IfOk result (λ x. x.1.depth.now ≤ 128) }
        ensures depth { IfOk result (λ x. (x.1.depth.now ≡ now_behind self.entry.depth effect) × (x.1.depth.base ≡ base_behind self.entry.depth effect)) }
        ensures shorter { IfOk result (λ x. length x.1.tokens.now < length self.entry.tokens.now) }
    {
        if found {
            self.past(effect)
        } else {
            Err(self.unexpected())
        }
    }

    pub fn is_mark(self, mark: Mark) -> bool
        ensures { result ≡ next_is (g.is_mark mark) self.entry.tokens.now }
    {
        match self.kind() {
            Some(kind) => is_mark(kind, mark),
            None => false,
        }
    }

    pub fn is_word(self, word: Reserved) -> bool
        ensures { result ≡ next_is (g.is_word word) self.entry.tokens.now }
    {
        match self.kind() {
            Some(kind) => is_word(kind, word),
            None => false,
        }
    }

    pub fn is_spelled(self, bytes: &[u8]) -> bool
        ensures { result ≡ next_is (g.is_spelled bytes.now) self.entry.tokens.now }
    {
        match self.kind() {
            Some(kind) => is_spelled(kind, bytes),
            None => false,
        }
    }

    pub fn is_pragma(self) -> bool
        ensures { result ≡ next_is g.is_pragma self.entry.tokens.now }
    {
        match self.kind() {
            Some(kind) => is_pragma(kind),
            None => false,
        }
    }

    pub fn is_close(self) -> bool
        ensures { result ≡ next_is g.is_close self.entry.tokens.now }
    {
        match self.kind() {
            Some(kind) => is_close(kind),
            None => false,
        }
    }

    pub fn is_finish(self) -> bool
        ensures { result ≡ next_is g.is_finish self.entry.tokens.now }
    {
        match self.kind() {
            Some(kind) => is_finish(kind),
            None => false,
        }
    }

    pub fn is_of(self, class: Class) -> bool
        requires { IsClass class }
        ensures { result ≡ next_is (of_class class) self.entry.tokens.now }
    {
        match self.kind() {
            Some(kind) => is_of(kind, class),
            None => false,
        }
    }

    pub fn is_type(self) -> bool
        ensures { result ≡ next_is g.is_type self.entry.tokens.now }
    {
        self.is_word(Reserved::Int) || self.is_word(Reserved::Long)
    }

    pub fn is_name(self) -> bool
        ensures { result ≡ next_is g.is_name self.entry.tokens.now }
    {
        match self.kind() {
            Some(kind) => is_name(kind),
            None => false,
        }
    }

    pub fn is_number(self) -> bool
        ensures { result ≡ next_is g.is_number self.entry.tokens.now }
    {
        match self.kind() {
            Some(kind) => is_number(kind),
            None => false,
        }
    }

    /// Whether a colon and an opening bracket come next.
    fn is_colon_bracket(self) -> bool
        ensures { result ≡ next_are (g.is_mark m.Colon) (g.is_mark m.OpenBracket) self.entry.tokens.now }
    {
        match first_and_rest(self.tokens) {
            None => false,
            Some((_, rest)) => {
                let behind = Reader {
                    tokens: rest,
                    depth: self.depth,
                };
                self.is_mark(Mark::Colon) && behind.is_mark(Mark::OpenBracket)
            }
        }
    }

    /// Whether the image of a reference begins here. Where another colon may follow, a bracket stands behind its colon.
    pub fn is_image(self, colon: bool) -> bool
        ensures { result ≡ begins_image colon self.entry.tokens.now }
    {
        if colon {
            self.is_colon_bracket()
        } else {
            self.is_mark(Mark::Colon)
        }
    }

    /// A colon and an opening bracket, which are there.
    fn both(self) -> Parsed<'a, (Place, Place)>
        requires deep { self.depth.now ≤ 128 }
        requires pair { next_are (g.is_mark m.Colon) (g.is_mark m.OpenBracket) self.tokens.now ≡ true }
        ensures goes { OpensImage true self.entry result }
        ensures reads { IfOk result (λ x. self.entry.tokens.now ≡ (t.Mark m.Colon at x.0.0) ∷ (t.Mark m.OpenBracket at x.0.1) ∷ x.1.tokens.now) }
        ensures deep { IfOk result (λ x. x.1.depth.now ≤ 128) }
        ensures shorter { IfOk result (λ x. length x.1.tokens.now < length self.entry.tokens.now) }
    {
        match first_and_rest(self.tokens) {
            None => Err(self.unexpected()),
            Some((colon, rest)) => match first_and_rest(rest) {
                None => Err(self.unexpected()),
                Some((open, last)) => match behind(self.depth, Effect::Opening) {
                    None => Err(Stop::TooDeep(rest.len())),
                    Some(depth) => Ok((
                        (colon.at, open.at),
                        Reader {
                            tokens: last,
                            depth,
                        },
                    )),
                },
            },
        }
    }

    /// The colon and the opening bracket of an image that begins here.
    pub fn image_open(self, colon: bool) -> Parsed<'a, (Place, Place)>
        requires deep { self.depth.now ≤ 128 }
        requires image { begins_image colon self.tokens.now ≡ true }
        ensures goes { OpensImage colon self.entry result }
        ensures reads { IfOk result (λ x. self.entry.tokens.now ≡ (t.Mark m.Colon at x.0.0) ∷ (t.Mark m.OpenBracket at x.0.1) ∷ x.1.tokens.now) }
        ensures deep { IfOk result (λ x. x.1.depth.now ≤ 128) }
        ensures shorter { IfOk result (λ x. length x.1.tokens.now < length self.entry.tokens.now) }
    {
        if colon {
            return self.both();
        }
        let (mark, rest) = self.mark(Mark::Colon, Effect::Plain)?;
        let (open, last) = rest.mark(Mark::OpenBracket, Effect::Opening)?;
        Ok(((mark, open), last))
    }

    pub fn mark(self, mark: Mark, effect: Effect) -> Parsed<'a, Place>
        ensures goes { Takes effect (g.is_mark mark) self.entry result }
        ensures reads { IfOk result (λ x. self.entry.tokens.now ≡ t.Mark mark at x.0 ∷ x.1.tokens.now) }
        ensures deep { IfOk result (λ x. x.1.depth.now ≤ 128) }
        ensures depth { IfOk result (λ x. (x.1.depth.now ≡ now_behind self.entry.depth effect) × (x.1.depth.base ≡ base_behind self.entry.depth effect)) }
        ensures shorter { IfOk result (λ x. length x.1.tokens.now < length self.entry.tokens.now) }
    {
        self.take(self.is_mark(mark), effect)
    }

    pub fn word(self, word: Reserved, effect: Effect) -> Parsed<'a, Place>
        ensures goes { Takes effect (g.is_word word) self.entry result }
        ensures reads { IfOk result (λ x. self.entry.tokens.now ≡ t.Word word at x.0 ∷ x.1.tokens.now) }
        ensures shorter { IfOk result (λ x. length x.1.tokens.now < length self.entry.tokens.now) }
    {
        self.take(self.is_word(word), effect)
    }

    pub fn spelled(self, bytes: &[u8], effect: Effect) -> Parsed<'a, Place>
        ensures goes { Takes effect (g.is_spelled bytes.now) self.entry result }
        ensures reads { IfOk result (λ x. self.entry.tokens.now ≡ t.Name bytes.now at x.0 ∷ x.1.tokens.now) }
        ensures shorter { IfOk result (λ x. length x.1.tokens.now < length self.entry.tokens.now) }
    {
        self.take(self.is_spelled(bytes), effect)
    }

    pub fn pragma(self) -> Parsed<'a, Place>
        ensures goes { Takes eff.Plain g.is_pragma self.entry result }
        ensures reads { IfOk result (λ x. self.entry.tokens.now ≡ t.Pragma at x.0 ∷ x.1.tokens.now) }
        ensures shorter { IfOk result (λ x. length x.1.tokens.now < length self.entry.tokens.now) }
    {
        self.take(self.is_pragma(), Effect::Plain)
    }

    pub fn line_end(self) -> Parsed<'a, Place>
        ensures goes { Takes eff.Plain g.is_close self.entry result }
        ensures reads { IfOk result (λ x. self.entry.tokens.now ≡ t.Close at x.0 ∷ x.1.tokens.now) }
        ensures shorter { IfOk result (λ x. length x.1.tokens.now < length self.entry.tokens.now) }
    {
        self.take(self.is_close(), Effect::Plain)
    }

    fn next_mark(self) -> Option<Mark>
        ensures { result ≡ next_mark self.entry.tokens.now }
    {
        match self.kind() {
            Some(kind) => mark_in(kind),
            None => None,
        }
    }

    fn next_name(self) -> Option<&'a Bytes>
        ensures { option_copied result ≡ next_name self.entry.tokens.now }
    {
        match self.kind() {
            Some(kind) => name_in(kind),
            None => None,
        }
    }

    fn next_text(self) -> Option<&'a Bytes>
        ensures { option_copied result ≡ next_text self.entry.tokens.now }
    {
        match self.kind() {
            Some(kind) => text_in(kind),
            None => None,
        }
    }

    fn next_number(self) -> Option<(i64, Ty)>
        ensures { result ≡ next_number self.entry.tokens.now }
    {
        match self.kind() {
            Some(kind) => number_in(kind),
            None => None,
        }
    }

    fn next_type(self) -> Option<Ty>
        ensures { result ≡ next_type self.entry.tokens.now }
    {
        match self.kind() {
            Some(kind) => type_in(kind),
            None => None,
        }
    }

    /// A mark of the class.
    pub fn mark_of(self, class: Class, effect: Effect) -> Parsed<'a, Placed<Mark>>
        requires { IsClass class }
        ensures goes { Takes effect (of_class class) self.entry result }
        ensures reads { IfOk result (λ x. self.entry.tokens.now ≡ t.Mark x.0.what at x.0.at ∷ x.1.tokens.now) }
        ensures kind { IfOk result (λ x. of_class class (t.Mark x.0.what) ≡ true) }
        ensures shorter { IfOk result (λ x. length x.1.tokens.now < length self.entry.tokens.now) }
    {
        match self.next_mark() {
            Some(what) => {
                let (at, rest) = self.take(has(class, what), effect)?;
                Ok((Placed { what, at }, rest))
            }
            None => Err(self.unexpected()),
        }
    }

    pub fn name(self, alloc: Global) -> Parsed<'a, Name>
        ensures goes { Takes eff.Plain g.is_name self.entry result }
        ensures reads { IfOk result (λ x. self.entry.tokens.now ≡ t.Name x.0.text at x.0.at ∷ x.1.tokens.now) }
        ensures deep { IfOk result (λ x. x.1.depth.now ≤ 128) }
        ensures shorter { IfOk result (λ x. length x.1.tokens.now < length self.entry.tokens.now) }
    {
        match self.next_name() {
            Some(text) => {
                let (at, rest) = self.take(true, Effect::Plain)?;
                let text = Bytes::copy_of(alloc, text.as_slice())?;
                Ok((Name { text, at }, rest))
            }
            None => Err(self.unexpected()),
        }
    }

    pub fn format(self, alloc: Global) -> Parsed<'a, Format>
        ensures goes { Takes eff.Plain g.is_text self.entry result }
        ensures reads { IfOk result (λ x. self.entry.tokens.now ≡ t.Text x.0.text at x.0.at ∷ x.1.tokens.now) }
        ensures shorter { IfOk result (λ x. length x.1.tokens.now < length self.entry.tokens.now) }
    {
        match self.next_text() {
            Some(text) => {
                let (at, rest) = self.take(true, Effect::Plain)?;
                let text = Bytes::copy_of(alloc, text.as_slice())?;
                Ok((Format { text, at }, rest))
            }
            None => Err(self.unexpected()),
        }
    }

    pub fn number(self) -> Parsed<'a, (i64, Ty, Place)>
        ensures goes { Takes eff.Plain g.is_number self.entry result }
        ensures reads { IfOk result (λ x. self.entry.tokens.now ≡ t.Number x.0.0 x.0.1 at x.0.2 ∷ x.1.tokens.now) }
        ensures shorter { IfOk result (λ x. length x.1.tokens.now < length self.entry.tokens.now) }
    {
        match self.next_number() {
            Some((value, ty)) => {
                let (at, rest) = self.take(true, Effect::Plain)?;
                Ok(((value, ty, at), rest))
            }
            None => Err(self.unexpected()),
        }
    }

    /// The type of a cast.
    pub fn cast_type(self) -> Parsed<'a, Placed<Ty>>
        ensures goes { Takes eff.Plain g.is_type self.entry result }
        ensures reads { IfOk result (λ x. self.entry.tokens.now ≡ t.Word (type_word x.0.what) at x.0.at ∷ x.1.tokens.now) }
        ensures shorter { IfOk result (λ x. length x.1.tokens.now < length self.entry.tokens.now) }
    {
        match self.next_type() {
            Some(what) => {
                let (at, rest) = self.take(true, Effect::Plain)?;
                Ok((Placed { what, at }, rest))
            }
            None => Err(self.unexpected()),
        }
    }

    /// The end of the text, behind which no token may stand.
    pub fn finish(self) -> Parsed<'a, Place>
        ensures goes { Finishes self.entry result }
        ensures reads { IfOk result (λ x. self.entry.tokens.now ≡ t.Finish at x.0 ∷ x.1.tokens.now) }
    {
        if !self.is_finish() {
            return Err(self.unexpected());
        }
        match first_and_rest(self.tokens) {
            None => Err(self.unexpected()),
            Some((token, rest)) => match behind(self.depth, Effect::Plain) {
                None => Err(Stop::TooDeep(self.tokens.len())),
                Some(depth) => Ok((
                    token.at,
                    Reader {
                        tokens: rest,
                        depth,
                    },
                )),
            },
        }
    }

    /// The same place, behind a statement that is counted.
    pub fn leaving(self, outer: Depth) -> Reader<'a>
        ensures tokens { result.tokens ≡ self.entry.tokens }
        ensures depth { result.depth ≡ outer }
    {
        Reader {
            tokens: self.tokens,
            depth: outer,
        }
    }
}
