// What stands before the statement that `if`, `while` and `for` hold.
ghost use Rattle.std.specs.Prelude.{◌≡◌, ◌≤◌, ◌<◌, false, IfOk, [], ◌∷◌, length, not};
ghost use Rattle.xmp_lex.specs.declared.token.Mark.TheVariants as m;
ghost use Rattle.xmp_lex.specs.declared.token.TokenKind.TheVariants as t;
ghost use Rattle.xmp_lex.specs.declared.token.Reserved.TheVariants as w;
ghost use Rattle.xmp_syntax.specs.Parts as p;
ghost use Rattle.xmp_syntax.specs.Reading.{part, ◌·◌};
ghost use Rattle.xmp_syntax.specs.Grammar as g;
ghost use Rattle.xmp_syntax.specs.Spell as sp;
ghost use Rattle.xmp_syntax.specs.Spell.{◌at◌};
ghost use Rattle.xmp_syntax.specs.Fits as f;
ghost use Rattle.xmp_reader.specs.Going.{Parses, ParsesAll};
ghost use Rattle.xmp_parse.specs.Counted.{Enters, for_parts};

use std::alloc::Global;
use xmp_base::Place;
use xmp_lex::{Mark, Reserved};
use xmp_reader::{Effect, Exprs, Parsed, Reader, expression, in_parens, reference, simple};
use xmp_syntax::{Expr, ForFirst, ForHead, Inside, Simple};

/// `if` or `while`, and the condition in parentheses.
pub fn condition(alloc: Global, word: Reserved, r: Reader<'_>) -> Parsed<'_, (Place, Inside<Expr>)>
    ensures goes { Enters word (g.parens g.expr) r.entry result }
    ensures reads { IfOk result (λ x. r.entry.tokens.now ≡ (t.Word word at x.0.0) ∷ sp.in_parens sp.expr x.0.1 x.1.tokens.now) }
    ensures fits { IfOk result (λ x. f.FitsExpr x.0.1.item) }
    ensures shorter { IfOk result (λ x. length x.1.tokens.now < length r.entry.tokens.now) }
{
    let (at, r) = r.word(word, Effect::Entering)?;
    let (condition, r) = in_parens::<Exprs>(alloc, r)?;
    Ok(((at, condition), r))
}

/// A declared index and its value.
fn declared_index(alloc: Global, r: Reader<'_>) -> Parsed<'_, ForFirst>
    ensures goes { ParsesAll ((g.word w.Int · g.name) ∷ (g.sign m.Assign · g.expr) ∷ []) r.entry result }
    ensures reads { IfOk result (λ x. r.entry.tokens.now ≡ sp.for_first x.0 x.1.tokens.now) }
    ensures fits { IfOk result (λ x. f.FitsFirst x.0) }
    ensures shorter { IfOk result (λ x. length x.1.tokens.now < length r.entry.tokens.now) }
{
    let (int, r) = r.word(Reserved::Int, Effect::Plain)?;
    let (name, r) = r.name(alloc)?;
    let (assign, r) = r.mark(Mark::Assign, Effect::Plain)?;
    let (value, r) = expression(alloc, false, r)?;
    Ok((ForFirst::Declare(int, name, assign, value), r))
}

/// A variable or an element, and the value that it is given.
fn assigned_index(alloc: Global, r: Reader<'_>) -> Parsed<'_, ForFirst>
    ensures goes { ParsesAll (part (p.reference false) ∷ (g.sign m.Assign · g.expr) ∷ []) r.entry result }
    ensures reads { IfOk result (λ x. r.entry.tokens.now ≡ sp.for_first x.0 x.1.tokens.now) }
    ensures fits { IfOk result (λ x. f.FitsFirst x.0) }
    ensures shorter { IfOk result (λ x. length x.1.tokens.now < length r.entry.tokens.now) }
{
    let (target, r) = reference(alloc, r)?;
    let (assign, r) = r.mark(Mark::Assign, Effect::Plain)?;
    let (value, r) = expression(alloc, false, r)?;
    Ok((ForFirst::Assign(target, assign, value), r))
}

fn first_part(alloc: Global, r: Reader<'_>) -> Parsed<'_, ForFirst>
    ensures goes { Parses (part p.for_first) r.entry result }
    ensures reads { IfOk result (λ x. r.entry.tokens.now ≡ sp.for_first x.0 x.1.tokens.now) }
    ensures fits { IfOk result (λ x. f.FitsFirst x.0) }
    ensures shorter { IfOk result (λ x. length x.1.tokens.now < length r.entry.tokens.now) }
{
    if r.is_word(Reserved::Int) {
        return declared_index(alloc, r);
    }
    assigned_index(alloc, r)
}

/// The first part of `for`, where there is one.
fn any_first(alloc: Global, r: Reader<'_>) -> Parsed<'_, Option<ForFirst>>
    ensures goes { Parses (g.optional (λ k. not (g.is_mark m.Semicolon k)) (part p.for_first)) r.entry result }
    ensures reads { IfOk result (λ x. r.entry.tokens.now ≡ sp.optional sp.for_first x.0 x.1.tokens.now) }
    ensures fits { IfOk result (λ x. f.If f.FitsFirst x.0) }
    ensures shorter { IfOk result (λ x. length x.1.tokens.now ≤ length r.entry.tokens.now) }
{
    if r.is_mark(Mark::Semicolon) {
        return Ok((None, r));
    }
    let (first, r) = first_part(alloc, r)?;
    Ok((Some(first), r))
}

/// The condition of `for`, where there is one.
fn any_test(alloc: Global, r: Reader<'_>) -> Parsed<'_, Option<Expr>>
    ensures goes { Parses (g.optional (λ k. not (g.is_mark m.Semicolon k)) g.expr) r.entry result }
    ensures reads { IfOk result (λ x. r.entry.tokens.now ≡ sp.optional sp.expr x.0 x.1.tokens.now) }
    ensures fits { IfOk result (λ x. f.If f.FitsExpr x.0) }
    ensures shorter { IfOk result (λ x. length x.1.tokens.now ≤ length r.entry.tokens.now) }
{
    if r.is_mark(Mark::Semicolon) {
        return Ok((None, r));
    }
    let (test, r) = expression(alloc, false, r)?;
    Ok((Some(test), r))
}

/// The last part of `for`, where there is one.
fn any_next(alloc: Global, r: Reader<'_>) -> Parsed<'_, Option<Simple>>
    ensures goes { Parses (g.optional (λ k. not (g.is_mark m.CloseParen k)) (part p.simple)) r.entry result }
    ensures reads { IfOk result (λ x. r.entry.tokens.now ≡ sp.optional sp.spell_simple x.0 x.1.tokens.now) }
    ensures fits { IfOk result (λ x. f.If f.FitsSimple x.0) }
    ensures shorter { IfOk result (λ x. length x.1.tokens.now ≤ length r.entry.tokens.now) }
{
    if r.is_mark(Mark::CloseParen) {
        return Ok((None, r));
    }
    let (next, r) = simple(alloc, r)?;
    Ok((Some(next), r))
}

/// The semicolon behind the condition of `for`, and the last part.
fn next_part(alloc: Global, r: Reader<'_>) -> Parsed<'_, (Place, Option<Simple>)>
    ensures goes { Parses (g.semicolon · g.optional (λ k. not (g.is_mark m.CloseParen k)) (part p.simple)) r.entry result }
    ensures reads { IfOk result (λ x. r.entry.tokens.now ≡ sp.sign m.Semicolon x.0.0 (sp.optional sp.spell_simple x.0.1 x.1.tokens.now)) }
    ensures fits { IfOk result (λ x. f.If f.FitsSimple x.0.1) }
    ensures shorter { IfOk result (λ x. length x.1.tokens.now < length r.entry.tokens.now) }
{
    let (end, r) = r.mark(Mark::Semicolon, Effect::Separator)?;
    let (next, r) = any_next(alloc, r)?;
    Ok(((end, next), r))
}

/// The condition, its semicolon and the last part of `for`.
#[derive(Drop)]
struct LastParts {
    test: Option<Expr>,
    test_end: Place,
    next: Option<Simple>,
}

fn last_parts(alloc: Global, r: Reader<'_>) -> Parsed<'_, LastParts>
    ensures goes { Parses (g.optional (λ k. not (g.is_mark m.Semicolon k)) g.expr · g.semicolon · g.optional (λ k. not (g.is_mark m.CloseParen k)) (part p.simple)) r.entry result }
    ensures reads { IfOk result (λ x. r.entry.tokens.now ≡ sp.optional sp.expr x.0.test (sp.sign m.Semicolon x.0.test_end (sp.optional sp.spell_simple x.0.next x.1.tokens.now))) }
    ensures fits { IfOk result (λ x. f.If f.FitsExpr x.0.test × f.If f.FitsSimple x.0.next) }
    ensures shorter { IfOk result (λ x. length x.1.tokens.now < length r.entry.tokens.now) }
{
    let (test, r) = any_test(alloc, r)?;
    match next_part(alloc, r) {
        Ok((behind, r)) => Ok((
            LastParts {
                test,
                test_end: behind.0,
                next: behind.1,
            },
            r,
        )),
        Err(stop) => {
            drop(test);
            Err(stop)
        }
    }
}

/// The semicolon behind the first part of `for`, and the parts behind it.
fn later_parts(alloc: Global, r: Reader<'_>) -> Parsed<'_, (Place, LastParts)>
    ensures goes { Parses (g.semicolon · g.optional (λ k. not (g.is_mark m.Semicolon k)) g.expr · g.semicolon · g.optional (λ k. not (g.is_mark m.CloseParen k)) (part p.simple)) r.entry result }
    ensures reads { IfOk result (λ x. r.entry.tokens.now ≡ sp.sign m.Semicolon x.0.0 (sp.optional sp.expr x.0.1.test (sp.sign m.Semicolon x.0.1.test_end (sp.optional sp.spell_simple x.0.1.next x.1.tokens.now)))) }
    ensures fits { IfOk result (λ x. f.If f.FitsExpr x.0.1.test × f.If f.FitsSimple x.0.1.next) }
    ensures shorter { IfOk result (λ x. length x.1.tokens.now < length r.entry.tokens.now) }
{
    let (end, r) = r.mark(Mark::Semicolon, Effect::Separator)?;
    let (last, r) = last_parts(alloc, r)?;
    Ok(((end, last), r))
}

/// The first part of `for` and its semicolon, and the parts behind.
#[derive(Drop)]
struct AllParts {
    first: Option<ForFirst>,
    first_end: Place,
    last: LastParts,
}

fn all_parts(alloc: Global, r: Reader<'_>) -> Parsed<'_, AllParts>
    ensures goes { Parses (g.optional (λ k. not (g.is_mark m.Semicolon k)) (part p.for_first) · g.semicolon · g.optional (λ k. not (g.is_mark m.Semicolon k)) g.expr · g.semicolon · g.optional (λ k. not (g.is_mark m.CloseParen k)) (part p.simple)) r.entry result }
    ensures reads { IfOk result (λ x. r.entry.tokens.now ≡ sp.optional sp.for_first x.0.first (sp.sign m.Semicolon x.0.first_end (sp.optional sp.expr x.0.last.test (sp.sign m.Semicolon x.0.last.test_end (sp.optional sp.spell_simple x.0.last.next x.1.tokens.now))))) }
    ensures fits { IfOk result (λ x. f.If f.FitsFirst x.0.first × f.If f.FitsExpr x.0.last.test × f.If f.FitsSimple x.0.last.next) }
    ensures shorter { IfOk result (λ x. length x.1.tokens.now < length r.entry.tokens.now) }
{
    let (first, r) = any_first(alloc, r)?;
    match later_parts(alloc, r) {
        Ok((later, r)) => Ok((
            AllParts {
                first,
                first_end: later.0,
                last: later.1,
            },
            r,
        )),
        Err(stop) => {
            drop(first);
            Err(stop)
        }
    }
}

/// The head of these parts and of the places around them.
fn head_of(word: Place, bracket: Place, parts: AllParts, close: Place) -> ForHead
    ensures first { (result.first ≡ parts.first) × (result.first_end ≡ parts.first_end) }
    ensures last { (result.test ≡ parts.last.test) × (result.test_end ≡ parts.last.test_end) × (result.next ≡ parts.last.next) }
    ensures places { (result.word ≡ word) × (result.open ≡ bracket) × (result.close ≡ close) }
{
    ForHead {
        word,
        open: bracket,
        first: parts.first,
        first_end: parts.first_end,
        test: parts.last.test,
        test_end: parts.last.test_end,
        next: parts.last.next,
        close,
    }
}

/// The three parts of `for` in parentheses, behind its word.
fn head_behind(alloc: Global, word: Place, r: Reader<'_>) -> Parsed<'_, ForHead>
    ensures goes { Parses for_parts r.entry result }
    ensures reads { IfOk result (λ x. (t.Word w.For at word) ∷ r.entry.tokens.now ≡ sp.for_head x.0 x.1.tokens.now) }
    ensures fits { IfOk result (λ x. f.FitsHead x.0) }
    ensures shorter { IfOk result (λ x. length x.1.tokens.now < length r.entry.tokens.now) }
{
    let outer = r.depth;
    let (open, r) = r.mark(Mark::OpenParen, Effect::Opening)?;
    let (parts, r) = all_parts(alloc, r)?;
    match r.mark(Mark::CloseParen, Effect::Closing(outer)) {
        Ok((close, r)) => Ok((head_of(word, open, parts, close), r)),
        Err(stop) => {
            drop(parts);
            Err(stop)
        }
    }
}

/// `for` and its three parts.
pub fn for_head(alloc: Global, r: Reader<'_>) -> Parsed<'_, ForHead>
    ensures goes { Enters w.For for_parts r.entry result }
    ensures reads { IfOk result (λ x. r.entry.tokens.now ≡ sp.for_head x.0 x.1.tokens.now) }
    ensures fits { IfOk result (λ x. f.FitsHead x.0) }
    ensures shorter { IfOk result (λ x. length x.1.tokens.now < length r.entry.tokens.now) }
{
    let (word, r) = r.word(Reserved::For, Effect::Entering)?;
    head_behind(alloc, word, r)
}
