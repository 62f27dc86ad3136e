// The lines of templates, distributions, aligns and shadows, and of mappings in all.
ghost use Rattle.std.specs.Prelude.{◌≡◌, ◌≤◌, ◌<◌, ⊤, false, List, [], IfOk, ◌∷◌, length, codes};
ghost use Rattle.xmp_lex.specs.declared.token.Mark.TheVariants as m;
ghost use Rattle.xmp_lex.specs.declared.token.TokenKind.TheVariants as t;
ghost use Rattle.xmp_syntax.specs.Parts as p;
ghost use Rattle.xmp_syntax.specs.Reading.{part, tok, operator, ◌·◌};
ghost use Rattle.xmp_syntax.specs.Grammar as g;
ghost use Rattle.xmp_syntax.specs.Spell as sp;
ghost use Rattle.xmp_syntax.specs.Spell.{◌at◌};
ghost use Rattle.xmp_syntax.specs.Fits as f;
ghost use Rattle.xmp_reader.specs.Going.{Parses};
ghost use Rattle.xmp_line_reader.specs.Lines.{ReadsBefore, part_of_mapping};

use crate::nodes::nodes;
use crate::words::{MappingWord, mapping_word};
use std::alloc::Global;
use xmp_base::Place;
use xmp_lex::Mark;
use xmp_reader::{
    Class, Effect, Exprs, Parsed, Part, Reader, comma_list, dims, expression, in_braces, in_parens,
    level, several,
};
use xmp_syntax::{
    AlignDimension, CommaList, DirectiveLine, DistForm, Expr, Inside, Mapping, Name, Placed, Point,
    Several,
};

/// Lists of expressions.
struct ExprLists;

impl Part for ExprLists {
    type Made = CommaList<Expr>;

    ghost rule = { g.list g.expr };

    ghost text = { sp.list sp.expr };

    ghost is_fit = { f.FitsList f.FitsExpr };

    fn read(alloc: Global, r: Reader<'_>) -> Parsed<'_, CommaList<Expr>> {
        comma_list::<Exprs>(alloc, r)
    }
}

/// The lengths of `gblock`, in braces.
struct Lengths;

impl Part for Lengths {
    type Made = Inside<CommaList<Expr>>;

    ghost rule = { g.braces (g.list g.expr) };

    ghost text = { sp.in_braces (sp.list sp.expr) };

    ghost is_fit = { λ x. f.FitsList f.FitsExpr x.item };

    fn read(alloc: Global, r: Reader<'_>) -> Parsed<'_, Inside<CommaList<Expr>>> {
        in_braces::<ExprLists>(alloc, r)
    }
}

/// The width of `cyclic`, where one is given.
fn any_width(alloc: Global, r: Reader<'_>) -> Parsed<'_, Option<Inside<Expr>>>
    ensures goes { Parses (g.optional (g.is_mark m.OpenParen) (g.parens g.expr)) r.entry result }
    ensures reads { IfOk result (λ x. r.entry.tokens.now ≡ sp.optional (sp.in_parens sp.expr) x.0 x.1.tokens.now) }
    ensures fits { IfOk result (λ x. f.If (λ y. f.FitsExpr y.item) x.0) }
    ensures shorter { IfOk result (λ x. length x.1.tokens.now ≤ length r.entry.tokens.now) }
{
    if !r.is_mark(Mark::OpenParen) {
        return Ok((None, r));
    }
    let (width, r) = in_parens::<Exprs>(alloc, r)?;
    Ok((Some(width), r))
}

/// How dimensions are distributed.
struct DistForms;

impl Part for DistForms {
    type Made = DistForm;

    ghost rule = { part p.how };

    ghost text = { sp.dist_form };

    ghost is_fit = { f.FitsForm };

    fn read(alloc: Global, r: Reader<'_>) -> Parsed<'_, DistForm> {
        if r.is_mark(Mark::Star) {
            let (star, r) = r.mark(Mark::Star, Effect::Plain)?;
            return Ok((DistForm::Whole(star), r));
        }
        if r.is_spelled(b"block") {
            let (block, r) = r.spelled(b"block", Effect::Plain)?;
            return Ok((DistForm::Block(block), r));
        }
        if r.is_spelled(b"cyclic") {
            let (cyclic, r) = r.spelled(b"cyclic", Effect::Plain)?;
            let (width, r) = any_width(alloc, r)?;
            return Ok((DistForm::Cyclic(cyclic, width), r));
        }
        let (gblock, r) = r.spelled(b"gblock", Effect::Plain)?;
        let (sizes, r) = in_parens::<Lengths>(alloc, r)?;
        Ok((DistForm::Gblock(gblock, sizes), r))
    }
}

/// The dimensions of the array of an align.
struct AlignDimensions;

impl Part for AlignDimensions {
    type Made = AlignDimension;

    ghost rule = { part p.align_dimension };

    ghost text = { sp.align_dimension };

    ghost is_fit = { λ x. ⊤ };

    fn read(alloc: Global, r: Reader<'_>) -> Parsed<'_, AlignDimension> {
        if r.is_mark(Mark::Star) {
            let (star, r) = r.mark(Mark::Star, Effect::Plain)?;
            return Ok((AlignDimension::Star(star), r));
        }
        let (name, r) = r.name(alloc)?;
        Ok((AlignDimension::Dummy(name), r))
    }
}

/// The offset of a point with its sign, where there is one.
fn any_offset(alloc: Global, r: Reader<'_>) -> Parsed<'_, Option<(Placed<Mark>, Expr)>>
    ensures goes { Parses (g.optional g.is_offset (tok operator g.is_offset · part (p.level 0 false))) r.entry result }
    ensures reads { IfOk result (λ x. r.entry.tokens.now ≡ sp.optional sp.offset x.0 x.1.tokens.now) }
    ensures fits { IfOk result (λ x. f.If f.FitsOffset x.0) }
    ensures shorter { IfOk result (λ x. length x.1.tokens.now ≤ length r.entry.tokens.now) }
{
    if !r.is_of(Class::Offset) {
        return Ok((None, r));
    }
    let (sign, r) = r.mark_of(Class::Offset, Effect::Operator)?;
    let (size, r) = level(alloc, 0, false, r)?;
    Ok((Some((sign, size)), r))
}

/// The dimensions of the template of an align or a loop.
struct Points;

impl Part for Points {
    type Made = Point;

    ghost rule = { part p.place };

    ghost text = { sp.point };

    ghost is_fit = { f.FitsPoint };

    fn read(alloc: Global, r: Reader<'_>) -> Parsed<'_, Point> {
        if r.is_mark(Mark::Star) {
            let (star, r) = r.mark(Mark::Star, Effect::Plain)?;
            return Ok((Point::Star(star), r));
        }
        let (name, r) = r.name(alloc)?;
        let (offset, r) = any_offset(alloc, r)?;
        Ok((Point::Index(name, offset), r))
    }
}

/// `[ ":" expr ]`, where no further colon may follow.
fn after_colon(alloc: Global, r: Reader<'_>) -> Parsed<'_, Option<(Place, Expr)>>
    ensures goes { Parses (g.optional (g.is_mark m.Colon) (g.sign m.Colon · g.expr)) r.entry result }
    ensures reads { IfOk result (λ x. r.entry.tokens.now ≡ sp.optional sp.after_colon x.0 x.1.tokens.now) }
    ensures fits { IfOk result (λ x. f.If f.FitsSecond x.0) }
    ensures shorter { IfOk result (λ x. length x.1.tokens.now ≤ length r.entry.tokens.now) }
{
    if !r.is_mark(Mark::Colon) {
        return Ok((None, r));
    }
    let (colon, r) = r.mark(Mark::Colon, Effect::Plain)?;
    let (value, r) = expression(alloc, false, r)?;
    Ok((Some((colon, value)), r))
}

/// Bounds of a template, widths of a shadow, and numbers of a section: one, or two with a colon between them.
pub struct Ranges;

impl Part for Ranges {
    type Made = (Expr, Option<(Place, Expr)>);

    ghost rule = { part p.range };

    ghost text = { sp.range };

    ghost is_fit = { f.FitsRange };

    fn read(alloc: Global, r: Reader<'_>) -> Parsed<'_, (Expr, Option<(Place, Expr)>)> {
        let (low, r) = expression(alloc, true, r)?;
        match after_colon(alloc, r) {
            Ok((high, r)) => Ok(((low, high), r)),
            Err(stop) => {
                drop(low);
                Err(stop)
            }
        }
    }
}

/// A plain name that is a word of the line, and the name behind it.
pub fn named<'a>(alloc: Global, word: &[u8], r: Reader<'a>) -> Parsed<'a, (Place, Name)>
    ensures goes { ReadsBefore (λ N. g.spelled word.now · g.name · N) r.entry result }
    ensures reads { IfOk result (λ x. r.entry.tokens.now ≡ sp.spelled word.now x.0.0 (sp.name x.0.1 x.1.tokens.now)) }
    ensures shorter { IfOk result (λ x. length x.1.tokens.now < length r.entry.tokens.now) }
{
    let (at, r) = r.spelled(word, Effect::Plain)?;
    let (name, r) = r.name(alloc)?;
    Ok(((at, name), r))
}

/// A word of the line, the template that it names and the points of it.
pub fn template_points<'a>(
    alloc: Global,
    word: &[u8],
    r: Reader<'a>,
) -> Parsed<'a, (Place, Name, Several<Point, Point>)>
    ensures goes { ReadsBefore (λ N. g.spelled word.now · g.name · g.several (part p.place) (part p.place) · N) r.entry result }
    ensures reads { IfOk result (λ x. r.entry.tokens.now ≡ sp.spelled word.now x.0.0 (sp.name x.0.1 (sp.several sp.point sp.point x.0.2 x.1.tokens.now))) }
    ensures fits { IfOk result (λ x. f.FitsSeveral f.FitsPoint f.FitsPoint x.0.2) }
    ensures shorter { IfOk result (λ x. length x.1.tokens.now < length r.entry.tokens.now) }
{
    let (head, r) = named(alloc, word, r)?;
    let (points, r) = several::<Points, Points>(alloc, r)?;
    Ok(((head.0, head.1, points), r))
}

fn template(alloc: Global, start: Place, r: Reader<'_>) -> Parsed<'_, Mapping>
    ensures goes { Parses (g.rule p.template) r.entry result }
    ensures reads { IfOk result (λ x. (t.Pragma at start) ∷ r.entry.tokens.now ≡ sp.spell_mapping x.0 x.1.tokens.now) }
    ensures fits { IfOk result (λ x. f.FitsMapping x.0) }
    ensures shorter { IfOk result (λ x. length x.1.tokens.now < length r.entry.tokens.now) }
{
    let (head, r) = named(alloc, b"template", r)?;
    let (sizes, r) = several::<Exprs, Ranges>(alloc, r)?;
    let (end, r) = r.line_end()?;
    let word = head.0;
    let line = DirectiveLine { start, word, end };
    Ok((Mapping::Template(line, head.1, sizes), r))
}

fn distribute(alloc: Global, start: Place, r: Reader<'_>) -> Parsed<'_, Mapping>
    ensures goes { Parses (g.rule p.distribute) r.entry result }
    ensures reads { IfOk result (λ x. (t.Pragma at start) ∷ r.entry.tokens.now ≡ sp.spell_mapping x.0 x.1.tokens.now) }
    ensures fits { IfOk result (λ x. f.FitsMapping x.0) }
    ensures shorter { IfOk result (λ x. length x.1.tokens.now < length r.entry.tokens.now) }
{
    let (head, r) = named(alloc, b"distribute", r)?;
    let (forms, r) = several::<DistForms, DistForms>(alloc, r)?;
    let (onto, r) = named(alloc, b"onto", r)?;
    let (end, r) = r.line_end()?;
    let word = head.0;
    let line = DirectiveLine { start, word, end };
    Ok((Mapping::Distribute(line, head.1, forms, onto.0, onto.1), r))
}

fn align(alloc: Global, start: Place, r: Reader<'_>) -> Parsed<'_, Mapping>
    ensures goes { Parses (g.rule p.align) r.entry result }
    ensures reads { IfOk result (λ x. (t.Pragma at start) ∷ r.entry.tokens.now ≡ sp.spell_mapping x.0 x.1.tokens.now) }
    ensures fits { IfOk result (λ x. f.FitsMapping x.0) }
    ensures shorter { IfOk result (λ x. length x.1.tokens.now < length r.entry.tokens.now) }
{
    let (head, r) = named(alloc, b"align", r)?;
    let (dummies, r) = dims::<AlignDimensions>(alloc, r)?;
    let (with, r) = template_points(alloc, b"with", r)?;
    let (end, r) = r.line_end()?;
    let word = head.0;
    let line = DirectiveLine { start, word, end };
    Ok((
        Mapping::Align(line, head.1, dummies, with.0, with.1, with.2),
        r,
    ))
}

fn shadow(alloc: Global, start: Place, r: Reader<'_>) -> Parsed<'_, Mapping>
    ensures goes { Parses (g.rule p.shadow) r.entry result }
    ensures reads { IfOk result (λ x. (t.Pragma at start) ∷ r.entry.tokens.now ≡ sp.spell_mapping x.0 x.1.tokens.now) }
    ensures fits { IfOk result (λ x. f.FitsMapping x.0) }
    ensures shorter { IfOk result (λ x. length x.1.tokens.now < length r.entry.tokens.now) }
{
    let (head, r) = named(alloc, b"shadow", r)?;
    let (widths, r) = dims::<Ranges>(alloc, r)?;
    let (end, r) = r.line_end()?;
    let word = head.0;
    let line = DirectiveLine { start, word, end };
    Ok((Mapping::Shadow(line, head.1, widths), r))
}

/// The rest of a mapping's line, from its word on.
pub fn mapping_line(
    alloc: Global,
    word: MappingWord,
    start: Place,
    r: Reader<'_>,
) -> Parsed<'_, Mapping>
    ensures goes { Parses (g.rule (part_of_mapping word)) r.entry result }
    ensures reads { IfOk result (λ x. (t.Pragma at start) ∷ r.entry.tokens.now ≡ sp.spell_mapping x.0 x.1.tokens.now) }
    ensures fits { IfOk result (λ x. f.FitsMapping x.0) }
    ensures shorter { IfOk result (λ x. length x.1.tokens.now < length r.entry.tokens.now) }
{
    match word {
        MappingWord::Nodes => nodes(alloc, start, r),
        MappingWord::Template => template(alloc, start, r),
        MappingWord::Distribute => distribute(alloc, start, r),
        MappingWord::Align => align(alloc, start, r),
        MappingWord::Shadow => shadow(alloc, start, r),
    }
}

/// The line of a mapping.
pub fn mapping(alloc: Global, r: Reader<'_>) -> Parsed<'_, Mapping>
    ensures goes { Parses (part p.mapping) r.entry result }
    ensures reads { IfOk result (λ x. r.entry.tokens.now ≡ sp.spell_mapping x.0 x.1.tokens.now) }
    ensures fits { IfOk result (λ x. f.FitsMapping x.0) }
    ensures shorter { IfOk result (λ x. length x.1.tokens.now < length r.entry.tokens.now) }
{
    let (start, r) = r.pragma()?;
    match mapping_word(r) {
        Some(word) => mapping_line(alloc, word, start, r),
        None => Err(r.unexpected()),
    }
}
