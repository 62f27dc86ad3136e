// Declarations of scalars and arrays, and parameters.
ghost use Rattle.std.specs.Prelude.{◌≡◌, ◌≤◌, ◌<◌, ⊤, List, [], IfOk, ◌∷◌, length};
ghost use Rattle.xmp_lex.specs.declared.token.Mark.TheVariants as m;
ghost use Rattle.xmp_lex.specs.declared.token.TokenKind.TheVariants as t;
ghost use Rattle.xmp_syntax.specs.Parts as p;
ghost use Rattle.xmp_syntax.specs.Reading.{part, many, ◌·◌};
ghost use Rattle.xmp_syntax.specs.Grammar as g;
ghost use Rattle.xmp_syntax.specs.Spell as sp;
ghost use Rattle.xmp_syntax.specs.Fits as f;
ghost use Rattle.xmp_reader.specs.Going.{Parses, ParsesAll};
ghost use Rattle.xmp_parse.specs.Programs.{Declares, EndsDeclaration};

use sqlite_items::Items;
use std::alloc::Global;
use xmp_base::Place;
use xmp_lex::Mark;
use xmp_reader::{Effect, Exprs, Parsed, Part, Reader, dims, expression, more_parts, type_words};
use xmp_syntax::{CommaList, Declaration, Declarator, Expr, Inside, Name, Next, TypeWords};

/// `":" "[" "*" "]"`
fn coarray(r: Reader<'_>) -> Parsed<'_, (Place, Inside<Place>)>
    ensures goes { Parses (g.sign m.Colon · g.brackets (g.sign m.Star)) r.entry result }
    ensures reads { IfOk result (λ x. r.entry.tokens.now ≡ sp.coarray x.0 x.1.tokens.now) }
    ensures shorter { IfOk result (λ x. length x.1.tokens.now < length r.entry.tokens.now) }
{
    let (colon, r) = r.mark(Mark::Colon, Effect::Plain)?;
    let outer = r.depth;
    let (open, r) = r.mark(Mark::OpenBracket, Effect::Opening)?;
    let (item, r) = r.mark(Mark::Star, Effect::Plain)?;
    let (close, r) = r.mark(Mark::CloseBracket, Effect::Closing(outer))?;
    Ok(((colon, Inside { open, item, close }), r))
}

/// What makes an array a coarray, where it is one.
fn any_coarray(r: Reader<'_>) -> Parsed<'_, Option<(Place, Inside<Place>)>>
    ensures goes { Parses (g.optional (g.is_mark m.Colon) (g.sign m.Colon · g.brackets (g.sign m.Star))) r.entry result }
    ensures reads { IfOk result (λ x. r.entry.tokens.now ≡ sp.optional sp.coarray x.0 x.1.tokens.now) }
    ensures shorter { IfOk result (λ x. length x.1.tokens.now ≤ length r.entry.tokens.now) }
{
    if !r.is_mark(Mark::Colon) {
        return Ok((None, r));
    }
    let (star, r) = coarray(r)?;
    Ok((Some(star), r))
}

fn array(alloc: Global, name: Name, r: Reader<'_>) -> Parsed<'_, Declarator>
    ensures goes { Parses (g.dims g.expr · g.optional (g.is_mark m.Colon) (g.sign m.Colon · g.brackets (g.sign m.Star))) r.entry result }
    ensures reads { IfOk result (λ x. sp.name name r.entry.tokens.now ≡ sp.declarator x.0 x.1.tokens.now) }
    ensures fits { IfOk result (λ x. f.FitsDeclarator x.0) }
    ensures shorter { IfOk result (λ x. length x.1.tokens.now < length r.entry.tokens.now) }
{
    let (sizes, r) = dims::<Exprs>(alloc, r)?;
    let (star, r) = any_coarray(r)?;
    Ok((Declarator::Array(name, sizes, star), r))
}

/// The value that a scalar begins with, where it has one.
fn first_value(alloc: Global, r: Reader<'_>) -> Parsed<'_, Option<(Place, Expr)>>
    ensures goes { Parses (g.optional (g.is_mark m.Assign) (g.sign m.Assign · g.expr)) r.entry result }
    ensures reads { IfOk result (λ x. r.entry.tokens.now ≡ sp.optional sp.value x.0 x.1.tokens.now) }
    ensures fits { IfOk result (λ x. f.If f.FitsSecond x.0) }
    ensures shorter { IfOk result (λ x. length x.1.tokens.now ≤ length r.entry.tokens.now) }
{
    if !r.is_mark(Mark::Assign) {
        return Ok((None, r));
    }
    let (assign, r) = r.mark(Mark::Assign, Effect::Plain)?;
    let (value, r) = expression(alloc, false, r)?;
    Ok((Some((assign, value)), r))
}

/// The rest of a declarator, behind its name.
pub fn declarator_rest(alloc: Global, name: Name, r: Reader<'_>) -> Parsed<'_, Declarator>
    ensures goes { Parses (part p.declarator_rest) r.entry result }
    ensures reads { IfOk result (λ x. sp.name name r.entry.tokens.now ≡ sp.declarator x.0 x.1.tokens.now) }
    ensures fits { IfOk result (λ x. f.FitsDeclarator x.0) }
    ensures shorter { IfOk result (λ x. length x.1.tokens.now ≤ length r.entry.tokens.now) }
{
    if r.is_mark(Mark::OpenBracket) {
        return array(alloc, name, r);
    }
    let (value, r) = first_value(alloc, r)?;
    Ok((Declarator::Scalar(name, value), r))
}

/// Declarators.
struct Declarators;

impl Part for Declarators {
    type Made = Declarator;

    ghost rule = { part p.declarator };

    ghost text = { sp.declarator };

    ghost is_fit = { f.FitsDeclarator };

    fn read(alloc: Global, r: Reader<'_>) -> Parsed<'_, Declarator> {
        let (name, r) = r.name(alloc)?;
        declarator_rest(alloc, name, r)
    }
}

/// The further declarators of a declaration, and its semicolon.
fn more_declarators(alloc: Global, r: Reader<'_>) -> Parsed<'_, (Items<Next<Declarator>>, Place)>
    ensures before { EndsDeclaration r.entry result }
    ensures goes { ParsesAll (many (g.is_mark m.Comma) (g.comma · part p.declarator) ∷ g.semicolon ∷ []) r.entry result }
    ensures reads { IfOk result (λ x. r.entry.tokens.now ≡ sp.each (sp.next sp.declarator) x.0.0 (sp.sign m.Semicolon x.0.1 x.1.tokens.now)) }
    ensures fits { IfOk result (λ x. f.Each (λ y. f.FitsDeclarator y.item) x.0.0) }
    ensures shorter { IfOk result (λ x. length x.1.tokens.now < length r.entry.tokens.now) }
{
    let (more, r) = more_parts::<Declarators>(alloc, r)?;
    let (end, r) = r.mark(Mark::Semicolon, Effect::Separator)?;
    Ok(((more, end), r))
}

/// The rest of a declaration, behind its first name.
pub fn declaration_rest(
    alloc: Global,
    ty: TypeWords,
    name: Name,
    r: Reader<'_>,
) -> Parsed<'_, Declaration>
    ensures before { Declares r.entry result }
    ensures goes { ParsesAll (part p.declarator_rest ∷ many (g.is_mark m.Comma) (g.comma · part p.declarator) ∷ g.semicolon ∷ []) r.entry result }
    ensures reads { IfOk result (λ x. sp.type_words ty (sp.name name r.entry.tokens.now) ≡ sp.spell_declaration x.0 x.1.tokens.now) }
    ensures fits { IfOk result (λ x. f.FitsDeclaration x.0) }
    ensures shorter { IfOk result (λ x. length x.1.tokens.now < length r.entry.tokens.now) }
{
    let (first, r) = declarator_rest(alloc, name, r)?;
    match more_declarators(alloc, r) {
        Ok((more, r)) => {
            let items = CommaList {
                first,
                more: more.0,
            };
            Ok((
                Declaration {
                    ty,
                    items,
                    end: more.1,
                },
                r,
            ))
        }
        Err(stop) => {
            drop(first);
            Err(stop)
        }
    }
}

/// A declaration.
pub fn declaration(alloc: Global, r: Reader<'_>) -> Parsed<'_, Declaration>
    ensures goes { Parses (g.rule p.declaration) r.entry result }
    ensures reads { IfOk result (λ x. r.entry.tokens.now ≡ sp.spell_declaration x.0 x.1.tokens.now) }
    ensures fits { IfOk result (λ x. f.FitsDeclaration x.0) }
    ensures shorter { IfOk result (λ x. length x.1.tokens.now < length r.entry.tokens.now) }
{
    let (ty, r) = type_words(r)?;
    let (name, r) = r.name(alloc)?;
    declaration_rest(alloc, ty, name, r)
}

/// Parameters: the type and the name of each.
pub struct TypedNames;

impl Part for TypedNames {
    type Made = (TypeWords, Name);

    ghost rule = { part p.parameter };

    ghost text = { sp.parameter };

    ghost is_fit = { λ x. ⊤ };

    fn read(alloc: Global, r: Reader<'_>) -> Parsed<'_, (TypeWords, Name)> {
        let (ty, r) = type_words(r)?;
        let (name, r) = r.name(alloc)?;
        Ok(((ty, name), r))
    }
}
