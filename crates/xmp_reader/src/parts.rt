// Lists of parts, and parts in brackets.
ghost use Rattle.std.specs.Prelude.{◌≡◌, ◌≤◌, ◌<◌, ⊤, List, IfOk, ◌∷◌, length};
ghost use Rattle.xmp_lex.specs.declared.token.Mark.TheVariants as m;
ghost use Rattle.xmp_lex.specs.declared.token.Token.{Token};
ghost use Rattle.xmp_syntax.specs.Parts as p;
ghost use Rattle.xmp_syntax.specs.Reading.{Rule, part, many, ◌·◌};
ghost use Rattle.xmp_syntax.specs.Grammar as g;
ghost use Rattle.xmp_syntax.specs.Spell as sp;
ghost use Rattle.xmp_syntax.specs.Fits as f;
ghost use Rattle.xmp_reader.specs.Going.{Parses};

use crate::effect::Effect;
use crate::expressions::expression;
use crate::reader::{Parsed, Reader};
use sqlite_items::Items;
use std::alloc::Global;
use xmp_lex::{Mark, Reserved};
use xmp_syntax::{CommaList, Expr, Inside, Name, Next, Several, TypeWords};

/// A kind of part that stands in lists and in brackets.
pub trait Part {
    /// What is made of one.
    type Made: Drop;

    /// Its rule.
    ghost rule: { Rule };

    /// Its tokens, before those of the rest.
    ghost text: { Self.Made → List Token → List Token };

    /// It fits the grammar.
    ghost is_fit: { Self.Made → Type 0 };

    fn read(alloc: Global, r: Reader<'_>) -> Parsed<'_, Self::Made>
        ensures goes { Parses rule r.entry result }
        ensures reads { IfOk result (λ x. r.entry.tokens.now ≡ text x.0 x.1.tokens.now) }
        ensures fits { IfOk result (λ x. is_fit x.0) }
        ensures shorter { IfOk result (λ x. length x.1.tokens.now < length r.entry.tokens.now) };
}

/// `{ "," P }`
pub fn more_parts<P: Part>(alloc: Global, r: Reader<'_>) -> Parsed<'_, Items<Next<P::Made>>>
    ensures goes { Parses (many (g.is_mark m.Comma) (g.comma · P.rule)) r.entry result }
    ensures reads { IfOk result (λ x. r.entry.tokens.now ≡ sp.each (sp.next P.text) x.0 x.1.tokens.now) }
    ensures fits { IfOk result (λ x. f.Each (λ y. P.is_fit y.item) x.0) }
    ensures shorter { IfOk result (λ x. length x.1.tokens.now ≤ length r.entry.tokens.now) }
{
    let mut more = Items::new(alloc);
    let mut rest = r;
    while rest.is_mark(Mark::Comma) {
        let (comma, r) = rest.mark(Mark::Comma, Effect::Separator)?;
        let (item, r) = P::read(alloc, r)?;
        more.push(Next { comma, item })?;
        rest = r;
    }
    Ok((more, rest))
}

/// `P { "," P }`
pub fn comma_list<P: Part>(alloc: Global, r: Reader<'_>) -> Parsed<'_, CommaList<P::Made>>
    ensures goes { Parses (g.list P.rule) r.entry result }
    ensures reads { IfOk result (λ x. r.entry.tokens.now ≡ sp.list P.text x.0 x.1.tokens.now) }
    ensures fits { IfOk result (λ x. f.FitsList P.is_fit x.0) }
    ensures shorter { IfOk result (λ x. length x.1.tokens.now < length r.entry.tokens.now) }
{
    let (first, r) = P::read(alloc, r)?;
    let (more, r) = more_parts::<P>(alloc, r)?;
    Ok((CommaList { first, more }, r))
}

/// `"[" P "]"`
fn in_brackets<P: Part>(alloc: Global, r: Reader<'_>) -> Parsed<'_, Inside<P::Made>>
    ensures goes { Parses (g.brackets P.rule) r.entry result }
    ensures reads { IfOk result (λ x. r.entry.tokens.now ≡ sp.in_brackets P.text x.0 x.1.tokens.now) }
    ensures fits { IfOk result (λ x. P.is_fit x.0.item) }
    ensures shorter { IfOk result (λ x. length x.1.tokens.now < length r.entry.tokens.now) }
{
    let outer = r.depth;
    let (open, r) = r.mark(Mark::OpenBracket, Effect::Opening)?;
    let (item, r) = P::read(alloc, r)?;
    let (close, r) = r.mark(Mark::CloseBracket, Effect::Closing(outer))?;
    Ok((Inside { open, item, close }, r))
}

/// `"(" P ")"`
pub fn in_parens<P: Part>(alloc: Global, r: Reader<'_>) -> Parsed<'_, Inside<P::Made>>
    ensures goes { Parses (g.parens P.rule) r.entry result }
    ensures reads { IfOk result (λ x. r.entry.tokens.now ≡ sp.in_parens P.text x.0 x.1.tokens.now) }
    ensures fits { IfOk result (λ x. P.is_fit x.0.item) }
    ensures shorter { IfOk result (λ x. length x.1.tokens.now < length r.entry.tokens.now) }
{
    let outer = r.depth;
    let (open, r) = r.mark(Mark::OpenParen, Effect::Opening)?;
    let (item, r) = P::read(alloc, r)?;
    let (close, r) = r.mark(Mark::CloseParen, Effect::Closing(outer))?;
    Ok((Inside { open, item, close }, r))
}

/// `"{" P "}"`
pub fn in_braces<P: Part>(alloc: Global, r: Reader<'_>) -> Parsed<'_, Inside<P::Made>>
    ensures goes { Parses (g.braces P.rule) r.entry result }
    ensures reads { IfOk result (λ x. r.entry.tokens.now ≡ sp.in_braces P.text x.0 x.1.tokens.now) }
    ensures fits { IfOk result (λ x. P.is_fit x.0.item) }
    ensures shorter { IfOk result (λ x. length x.1.tokens.now < length r.entry.tokens.now) }
{
    let outer = r.depth;
    let (open, r) = r.mark(Mark::OpenBrace, Effect::Opening)?;
    let (item, r) = P::read(alloc, r)?;
    let (close, r) = r.mark(Mark::CloseBrace, Effect::Closing(outer))?;
    Ok((Inside { open, item, close }, r))
}

/// `{ "[" P "]" }`
pub fn any_dims<P: Part>(alloc: Global, r: Reader<'_>) -> Parsed<'_, Items<Inside<P::Made>>>
    ensures goes { Parses (g.any_dims P.rule) r.entry result }
    ensures reads { IfOk result (λ x. r.entry.tokens.now ≡ sp.dims P.text x.0 x.1.tokens.now) }
    ensures fits { IfOk result (λ x. f.FitsDims P.is_fit x.0) }
    ensures shorter { IfOk result (λ x. length x.1.tokens.now ≤ length r.entry.tokens.now) }
{
    let mut dims = Items::new(alloc);
    let mut rest = r;
    while rest.is_mark(Mark::OpenBracket) {
        let (dim, r) = in_brackets::<P>(alloc, rest)?;
        dims.push(dim)?;
        rest = r;
    }
    Ok((dims, rest))
}

/// `"[" P "]" { "[" P "]" }`
pub fn dims<P: Part>(alloc: Global, r: Reader<'_>) -> Parsed<'_, Items<Inside<P::Made>>>
    ensures goes { Parses (g.dims P.rule) r.entry result }
    ensures reads { IfOk result (λ x. r.entry.tokens.now ≡ sp.dims P.text x.0 x.1.tokens.now) }
    ensures fits { IfOk result (λ x. f.FitsSomeDims P.is_fit x.0) }
    ensures shorter { IfOk result (λ x. length x.1.tokens.now < length r.entry.tokens.now) }
{
    let (first, r) = in_brackets::<P>(alloc, r)?;
    let (more, r) = any_dims::<P>(alloc, r)?;
    let mut dims = Items::new(alloc);
    dims.push(first)?;
    dims.append(more)?;
    Ok((dims, r))
}

/// `"(" P { "," P } ")"`
fn list_in_parens<P: Part>(alloc: Global, r: Reader<'_>) -> Parsed<'_, Inside<CommaList<P::Made>>>
    ensures goes { Parses (g.parens (g.list P.rule)) r.entry result }
    ensures reads { IfOk result (λ x. r.entry.tokens.now ≡ sp.in_parens (sp.list P.text) x.0 x.1.tokens.now) }
    ensures fits { IfOk result (λ x. f.FitsList P.is_fit x.0.item) }
    ensures shorter { IfOk result (λ x. length x.1.tokens.now < length r.entry.tokens.now) }
{
    let outer = r.depth;
    let (open, r) = r.mark(Mark::OpenParen, Effect::Opening)?;
    let (item, r) = comma_list::<P>(alloc, r)?;
    let (close, r) = r.mark(Mark::CloseParen, Effect::Closing(outer))?;
    Ok((Inside { open, item, close }, r))
}

/// Each in brackets, `B`, or all between one pair of parentheses, `P`; at least one.
pub fn several<B: Part, P: Part>(
    alloc: Global,
    r: Reader<'_>,
) -> Parsed<'_, Several<B::Made, P::Made>>
    ensures goes { Parses (g.several B.rule P.rule) r.entry result }
    ensures reads { IfOk result (λ x. r.entry.tokens.now ≡ sp.several B.text P.text x.0 x.1.tokens.now) }
    ensures fits { IfOk result (λ x. f.FitsSeveral B.is_fit P.is_fit x.0) }
    ensures shorter { IfOk result (λ x. length x.1.tokens.now < length r.entry.tokens.now) }
{
    if r.is_mark(Mark::OpenParen) {
        let (list, r) = list_in_parens::<P>(alloc, r)?;
        return Ok((Several::Parens(list), r));
    }
    let (dims, r) = dims::<B>(alloc, r)?;
    Ok((Several::Brackets(dims), r))
}

/// The same of one kind, or none.
pub fn any_several<P: Part>(alloc: Global, r: Reader<'_>) -> Parsed<'_, Several<P::Made, P::Made>>
    ensures goes { Parses (g.any_several P.rule) r.entry result }
    ensures reads { IfOk result (λ x. r.entry.tokens.now ≡ sp.several P.text P.text x.0 x.1.tokens.now) }
    ensures fits { IfOk result (λ x. f.FitsAnySeveral P.is_fit P.is_fit x.0) }
    ensures shorter { IfOk result (λ x. length x.1.tokens.now ≤ length r.entry.tokens.now) }
{
    if r.is_mark(Mark::OpenParen) {
        let (list, r) = list_in_parens::<P>(alloc, r)?;
        return Ok((Several::Parens(list), r));
    }
    let (dims, r) = any_dims::<P>(alloc, r)?;
    Ok((Several::Brackets(dims), r))
}

/// Plain names.
pub struct Names;

impl Part for Names {
    type Made = Name;

    ghost rule = { g.name };

    ghost text = { sp.name };

    ghost is_fit = { λ x. ⊤ };

    fn read(alloc: Global, r: Reader<'_>) -> Parsed<'_, Name> {
        r.name(alloc)
    }
}

/// Expressions, behind which no further colon may stand.
pub struct Exprs;

impl Part for Exprs {
    type Made = Expr;

    ghost rule = { g.expr };

    ghost text = { sp.expr };

    ghost is_fit = { f.FitsExpr };

    fn read(alloc: Global, r: Reader<'_>) -> Parsed<'_, Expr> {
        expression(alloc, false, r)
    }
}

/// Lists of names.
pub struct NameLists;

impl Part for NameLists {
    type Made = CommaList<Name>;

    ghost rule = { part p.names };

    ghost text = { sp.names };

    ghost is_fit = { λ x. ⊤ };

    fn read(alloc: Global, r: Reader<'_>) -> Parsed<'_, CommaList<Name>> {
        comma_list::<Names>(alloc, r)
    }
}

/// `int`, `long` or `long int`
pub fn type_words(r: Reader<'_>) -> Parsed<'_, TypeWords>
    ensures goes { Parses (part p.type_words) r.entry result }
    ensures reads { IfOk result (λ x. r.entry.tokens.now ≡ sp.type_words x.0 x.1.tokens.now) }
    ensures shorter { IfOk result (λ x. length x.1.tokens.now < length r.entry.tokens.now) }
{
    if r.is_word(Reserved::Int) {
        let (int, r) = r.word(Reserved::Int, Effect::Plain)?;
        return Ok((TypeWords::Int(int), r));
    }
    let (long, r) = r.word(Reserved::Long, Effect::Plain)?;
    if r.is_word(Reserved::Int) {
        let (int, r) = r.word(Reserved::Int, Effect::Plain)?;
        return Ok((TypeWords::LongInt(long, int), r));
    }
    Ok((TypeWords::Long(long), r))
}
