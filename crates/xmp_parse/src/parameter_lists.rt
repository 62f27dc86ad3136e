// The parameters of functions.
ghost use Rattle.std.specs.Prelude.{◌≡◌, ◌≤◌, ◌<◌, IfOk, ◌∷◌, length, not};
ghost use Rattle.xmp_lex.specs.declared.token.Mark.TheVariants as m;
ghost use Rattle.xmp_lex.specs.declared.token.Reserved.TheVariants as w;
ghost use Rattle.xmp_syntax.specs.Parts as p;
ghost use Rattle.xmp_syntax.specs.Reading.{part, choice, ◌·◌};
ghost use Rattle.xmp_syntax.specs.Grammar as g;
ghost use Rattle.xmp_syntax.specs.Spell as sp;
ghost use Rattle.xmp_reader.specs.Going.{Parses};

use crate::declarations::TypedNames;
use std::alloc::Global;
use xmp_lex::{Mark, Reserved};
use xmp_reader::{Effect, Parsed, Reader, comma_list};
use xmp_syntax::{Inside, Parameters};

/// `void`, or the types and names of parameters.
fn some_parameters(alloc: Global, r: Reader<'_>) -> Parsed<'_, Parameters>
    ensures goes { Parses (choice (g.is_word w.Void) (g.word w.Void) (g.list (part p.parameter))) r.entry result }
    ensures reads { IfOk result (λ x. r.entry.tokens.now ≡ sp.parameters x.0 x.1.tokens.now) }
    ensures shorter { IfOk result (λ x. length x.1.tokens.now < length r.entry.tokens.now) }
{
    if r.is_word(Reserved::Void) {
        let (void, r) = r.word(Reserved::Void, Effect::Plain)?;
        return Ok((Parameters::Void(void), r));
    }
    let (list, r) = comma_list::<TypedNames>(alloc, r)?;
    Ok((Parameters::Named(list), r))
}

/// What stands in the parentheses of a function, where something does.
fn any_parameters(alloc: Global, r: Reader<'_>) -> Parsed<'_, Option<Parameters>>
    ensures goes { Parses (g.optional (λ k. not (g.is_mark m.CloseParen k)) (choice (g.is_word w.Void) (g.word w.Void) (g.list (part p.parameter)))) r.entry result }
    ensures reads { IfOk result (λ x. r.entry.tokens.now ≡ sp.optional sp.parameters x.0 x.1.tokens.now) }
    ensures shorter { IfOk result (λ x. length x.1.tokens.now ≤ length r.entry.tokens.now) }
{
    if r.is_mark(Mark::CloseParen) {
        return Ok((None, r));
    }
    let (some, r) = some_parameters(alloc, r)?;
    Ok((Some(some), r))
}

/// The parameters of a function, in parentheses.
pub fn parameters(alloc: Global, r: Reader<'_>) -> Parsed<'_, Inside<Option<Parameters>>>
    ensures goes { Parses (g.parens (g.optional (λ k. not (g.is_mark m.CloseParen k)) (choice (g.is_word w.Void) (g.word w.Void) (g.list (part p.parameter))))) r.entry result }
    ensures reads { IfOk result (λ x. r.entry.tokens.now ≡ sp.in_parens (sp.optional sp.parameters) x.0 x.1.tokens.now) }
    ensures shorter { IfOk result (λ x. length x.1.tokens.now < length r.entry.tokens.now) }
{
    let outer = r.depth;
    let (open, r) = r.mark(Mark::OpenParen, Effect::Opening)?;
    let (item, r) = any_parameters(alloc, r)?;
    let (close, r) = r.mark(Mark::CloseParen, Effect::Closing(outer))?;
    Ok((Inside { open, item, close }, r))
}
