// The lines of directives other than mappings: those that hold no statement, and the heads of those that do.
ghost use Rattle.std.specs.Prelude.{◌≡◌, ◌≤◌, ◌<◌, ⊤, List, [], IfOk, ◌∷◌, length, codes};
ghost use Rattle.xmp_lex.specs.declared.token.Mark.TheVariants as m;
ghost use Rattle.xmp_lex.specs.declared.token.TokenKind.TheVariants as t;
ghost use Rattle.xmp_syntax.specs.Parts as p;
ghost use Rattle.xmp_syntax.specs.Reading.{part, choice, many, tok, plain, ◌·◌};
ghost use Rattle.xmp_syntax.specs.Grammar as g;
ghost use Rattle.xmp_syntax.specs.declared.expression.Expr as made;
ghost use Rattle.xmp_syntax.specs.declared.directive.Section.TheVariants as s;
ghost use Rattle.xmp_syntax.specs.Spell as sp;
ghost use Rattle.xmp_syntax.specs.Spell.{◌at◌};
ghost use Rattle.xmp_syntax.specs.Fits as f;
ghost use Rattle.xmp_reader.specs.Going.{Parses};
ghost use Rattle.xmp_line_reader.specs.Lines.{IsPlainWord, part_of_directive};

use crate::mappings::Ranges;
use crate::words::DirectiveWord;
use sqlite_items::Items;
use std::alloc::Global;
use xmp_base::Place;
use xmp_lex::Mark;
use xmp_reader::{
    Class, Effect, NameLists, Parsed, Part, Reader, any_dims, any_several, expression, in_parens,
};
use xmp_syntax::{
    CommaList, DirectiveLine, Expr, Name, NodesSet, Piece, Plain, Reduction, ReductionOperator,
    Section, Sections,
};

/// The second and the third number of a section, where there are such.
type MoreNumbers = (Option<(Place, Expr)>, Option<(Place, Expr)>);

/// The numbers of a section behind its first.
fn more_numbers(alloc: Global, r: Reader<'_>) -> Parsed<'_, MoreNumbers>
    ensures goes { Parses (g.optional (g.is_mark m.Colon) (g.sign m.Colon · part p.range)) r.entry result }
    ensures reads { IfOk result (λ x. r.entry.tokens.now ≡ sp.optional sp.after_colon x.0.0 (sp.optional sp.after_colon x.0.1 x.1.tokens.now)) }
    ensures fits { IfOk result (λ x. (a : made.Expr) → f.FitsExpr a → f.FitsSection (s.Numbers a x.0.0 x.0.1)) }
    ensures shorter { IfOk result (λ x. length x.1.tokens.now ≤ length r.entry.tokens.now) }
{
    if !r.is_mark(Mark::Colon) {
        return Ok(((None, None), r));
    }
    let (colon, r) = r.mark(Mark::Colon, Effect::Plain)?;
    let (range, r) = Ranges::read(alloc, r)?;
    Ok(((Some((colon, range.0)), range.1), r))
}

/// The sections of a part of an array.
struct ArraySections;

impl Part for ArraySections {
    type Made = Section;

    ghost rule = { part p.section };

    ghost text = { sp.section };

    ghost is_fit = { f.FitsSection };

    fn read(alloc: Global, r: Reader<'_>) -> Parsed<'_, Section> {
        if r.is_mark(Mark::Colon) {
            let (colon, r) = r.mark(Mark::Colon, Effect::Plain)?;
            return Ok((Section::All(colon), r));
        }
        let (first, r) = expression(alloc, true, r)?;
        match more_numbers(alloc, r) {
            Ok((more, r)) => Ok((Section::Numbers(first, more.0, more.1), r)),
            Err(stop) => {
                drop(first);
                Err(stop)
            }
        }
    }
}

/// The pieces of a set of nodes.
struct Pieces;

impl Part for Pieces {
    type Made = Piece;

    ghost rule = { part p.piece };

    ghost text = { sp.piece };

    ghost is_fit = { f.FitsPiece };

    fn read(alloc: Global, r: Reader<'_>) -> Parsed<'_, Piece> {
        if r.is_mark(Mark::Colon) {
            let (colon, r) = r.mark(Mark::Colon, Effect::Plain)?;
            return Ok((Piece::All(colon), r));
        }
        let (range, r) = Ranges::read(alloc, r)?;
        Ok((Piece::Numbers(range.0, range.1), r))
    }
}

/// A set of nodes.
pub fn set(alloc: Global, r: Reader<'_>) -> Parsed<'_, NodesSet>
    ensures goes { Parses (part p.set) r.entry result }
    ensures reads { IfOk result (λ x. r.entry.tokens.now ≡ sp.nodes_set x.0 x.1.tokens.now) }
    ensures fits { IfOk result (λ x. f.FitsSet x.0) }
    ensures shorter { IfOk result (λ x. length x.1.tokens.now < length r.entry.tokens.now) }
{
    let (name, r) = r.name(alloc)?;
    let (pieces, r) = any_several::<Pieces>(alloc, r)?;
    Ok((NodesSet { name, pieces }, r))
}

/// A part of an array.
pub fn sections(alloc: Global, r: Reader<'_>) -> Parsed<'_, Sections>
    ensures goes { Parses (part p.sections) r.entry result }
    ensures reads { IfOk result (λ x. r.entry.tokens.now ≡ sp.sections x.0 x.1.tokens.now) }
    ensures fits { IfOk result (λ x. f.FitsSections x.0) }
    ensures shorter { IfOk result (λ x. length x.1.tokens.now < length r.entry.tokens.now) }
{
    let (name, r) = r.name(alloc)?;
    let (sections, r) = any_dims::<ArraySections>(alloc, r)?;
    Ok((Sections { name, sections }, r))
}

fn reduction_operator(r: Reader<'_>) -> Parsed<'_, ReductionOperator>
    ensures goes { Parses (choice g.is_reduction (tok plain g.is_reduction) (tok plain g.is_max_or_min)) r.entry result }
    ensures reads { IfOk result (λ x. r.entry.tokens.now ≡ sp.reduction_operator x.0 x.1.tokens.now) }
    ensures fits { IfOk result (λ x. f.FitsOperator x.0) }
    ensures shorter { IfOk result (λ x. length x.1.tokens.now < length r.entry.tokens.now) }
{
    if r.is_of(Class::Reduction) {
        let (operator, r) = r.mark_of(Class::Reduction, Effect::Plain)?;
        return Ok((ReductionOperator::Mark(operator), r));
    }
    if r.is_spelled(b"max") {
        let (word, r) = r.take(true, Effect::Plain)?;
        return Ok((ReductionOperator::Max(word), r));
    }
    let (word, r) = r.take(r.is_spelled(b"min"), Effect::Plain)?;
    Ok((ReductionOperator::Min(word), r))
}

/// The operator, `:` and the names of a reduction.
struct ReductionLists;

impl Part for ReductionLists {
    type Made = (ReductionOperator, Place, CommaList<Name>);

    ghost rule = { choice g.is_reduction (tok plain g.is_reduction) (tok plain g.is_max_or_min) · g.sign m.Colon · part p.names };

    ghost text = { sp.reduction_list };

    ghost is_fit = { λ x. f.FitsOperator x.0 };

    fn read(
        alloc: Global,
        r: Reader<'_>,
    ) -> Parsed<'_, (ReductionOperator, Place, CommaList<Name>)> {
        let (operator, r) = reduction_operator(r)?;
        let (colon, r) = r.mark(Mark::Colon, Effect::Plain)?;
        let (names, r) = NameLists::read(alloc, r)?;
        Ok(((operator, colon, names), r))
    }
}

fn reduction(alloc: Global, r: Reader<'_>) -> Parsed<'_, Reduction>
    ensures goes { Parses (part p.reduction) r.entry result }
    ensures reads { IfOk result (λ x. r.entry.tokens.now ≡ sp.reduction x.0 x.1.tokens.now) }
    ensures fits { IfOk result (λ x. f.FitsReduction x.0) }
    ensures shorter { IfOk result (λ x. length x.1.tokens.now < length r.entry.tokens.now) }
{
    let (word, r) = r.spelled(b"reduction", Effect::Plain)?;
    let (list, r) = in_parens::<ReductionLists>(alloc, r)?;
    Ok((Reduction { word, list }, r))
}

pub fn reductions(alloc: Global, r: Reader<'_>) -> Parsed<'_, Items<Reduction>>
    ensures goes { Parses (many (g.is_spelled (codes "reduction")) (part p.reduction)) r.entry result }
    ensures reads { IfOk result (λ x. r.entry.tokens.now ≡ sp.each sp.reduction x.0 x.1.tokens.now) }
    ensures fits { IfOk result (λ x. f.Each f.FitsReduction x.0) }
    ensures shorter { IfOk result (λ x. length x.1.tokens.now ≤ length r.entry.tokens.now) }
{
    let mut reductions = Items::new(alloc);
    let mut rest = r;
    while rest.is_spelled(b"reduction") {
        let (item, r) = reduction(alloc, rest)?;
        reductions.push(item)?;
        rest = r;
    }
    Ok((reductions, rest))
}

/// The line of a reflect directive, from its word on.
pub fn reflect(alloc: Global, start: Place, r: Reader<'_>) -> Parsed<'_, Plain>
    ensures goes { Parses (g.rule p.reflect) r.entry result }
    ensures reads { IfOk result (λ x. (t.Pragma at start) ∷ r.entry.tokens.now ≡ sp.spell_plain x.0 x.1.tokens.now) }
    ensures fits { IfOk result (λ x. f.FitsPlain x.0) }
    ensures shorter { IfOk result (λ x. length x.1.tokens.now < length r.entry.tokens.now) }
{
    let (word, r) = r.spelled(b"reflect", Effect::Plain)?;
    let (names, r) = in_parens::<NameLists>(alloc, r)?;
    let (end, r) = r.line_end()?;
    let line = DirectiveLine { start, word, end };
    Ok((Plain::Reflect(line, names), r))
}

/// The line of a barrier directive, from its word on.
pub fn barrier(start: Place, r: Reader<'_>) -> Parsed<'_, Plain>
    ensures goes { Parses (g.rule p.barrier) r.entry result }
    ensures reads { IfOk result (λ x. (t.Pragma at start) ∷ r.entry.tokens.now ≡ sp.spell_plain x.0 x.1.tokens.now) }
    ensures fits { IfOk result (λ x. f.FitsPlain x.0) }
    ensures shorter { IfOk result (λ x. length x.1.tokens.now < length r.entry.tokens.now) }
{
    let (word, r) = r.spelled(b"barrier", Effect::Plain)?;
    let (end, r) = r.line_end()?;
    Ok((Plain::Barrier(DirectiveLine { start, word, end }), r))
}

/// The set of nodes that a bcast comes from, up to the end of its line.
fn source_set(alloc: Global, r: Reader<'_>) -> Parsed<'_, (Place, NodesSet, Place)>
    ensures goes { Parses (g.spelled (codes "from") · part p.set · g.line_end) r.entry result }
    ensures reads { IfOk result (λ x. r.entry.tokens.now ≡ sp.spelled (codes "from") x.0.0 (sp.nodes_set x.0.1 ((t.Close at x.0.2) ∷ x.1.tokens.now))) }
    ensures fits { IfOk result (λ x. f.FitsSet x.0.1) }
    ensures shorter { IfOk result (λ x. length x.1.tokens.now < length r.entry.tokens.now) }
{
    let (from, r) = r.spelled(b"from", Effect::Plain)?;
    let (set, r) = set(alloc, r)?;
    match r.line_end() {
        Ok((end, r)) => Ok(((from, set, end), r)),
        Err(stop) => {
            drop(set);
            Err(stop)
        }
    }
}

/// The line of a bcast directive, from its word on.
pub fn bcast(alloc: Global, start: Place, r: Reader<'_>) -> Parsed<'_, Plain>
    ensures goes { Parses (g.rule p.bcast) r.entry result }
    ensures reads { IfOk result (λ x. (t.Pragma at start) ∷ r.entry.tokens.now ≡ sp.spell_plain x.0 x.1.tokens.now) }
    ensures fits { IfOk result (λ x. f.FitsPlain x.0) }
    ensures shorter { IfOk result (λ x. length x.1.tokens.now < length r.entry.tokens.now) }
{
    let (word, r) = r.spelled(b"bcast", Effect::Plain)?;
    let (names, r) = in_parens::<NameLists>(alloc, r)?;
    match source_set(alloc, r) {
        Ok((from, r)) => {
            let line = DirectiveLine {
                start,
                word,
                end: from.2,
            };
            Ok((Plain::Bcast(line, names, from.0, from.1), r))
        }
        Err(stop) => {
            drop(names);
            Err(stop)
        }
    }
}

/// The right side of the assignment behind a gmove, with what stands around it.
fn source_sections(alloc: Global, r: Reader<'_>) -> Parsed<'_, (Place, Sections, Place)>
    ensures goes { Parses (g.sign m.Assign · part p.sections · g.semicolon) r.entry result }
    ensures reads { IfOk result (λ x. r.entry.tokens.now ≡ sp.sign m.Assign x.0.0 (sp.sections x.0.1 (sp.sign m.Semicolon x.0.2 x.1.tokens.now))) }
    ensures fits { IfOk result (λ x. f.FitsSections x.0.1) }
    ensures shorter { IfOk result (λ x. length x.1.tokens.now < length r.entry.tokens.now) }
{
    let (assign, r) = r.mark(Mark::Assign, Effect::Plain)?;
    let (source, r) = sections(alloc, r)?;
    match r.mark(Mark::Semicolon, Effect::Separator) {
        Ok((end, r)) => Ok(((assign, source, end), r)),
        Err(stop) => {
            drop(source);
            Err(stop)
        }
    }
}

/// The line of a gmove directive, from its word on, and the assignment behind it.
pub fn gmove(alloc: Global, start: Place, r: Reader<'_>) -> Parsed<'_, Plain>
    ensures goes { Parses (g.rule p.gmove) r.entry result }
    ensures reads { IfOk result (λ x. (t.Pragma at start) ∷ r.entry.tokens.now ≡ sp.spell_plain x.0 x.1.tokens.now) }
    ensures fits { IfOk result (λ x. f.FitsPlain x.0) }
    ensures shorter { IfOk result (λ x. length x.1.tokens.now < length r.entry.tokens.now) }
{
    let (word, r) = r.spelled(b"gmove", Effect::Plain)?;
    let (close, r) = r.line_end()?;
    let (target, r) = sections(alloc, r)?;
    match source_sections(alloc, r) {
        Ok((source, r)) => {
            let line = DirectiveLine {
                start,
                word,
                end: close,
            };
            Ok((Plain::Gmove(line, target, source.0, source.1, source.2), r))
        }
        Err(stop) => {
            drop(target);
            Err(stop)
        }
    }
}

/// The line of a directive that holds no statement, from its word on.
pub fn plain_line(
    alloc: Global,
    word: DirectiveWord,
    start: Place,
    r: Reader<'_>,
) -> Parsed<'_, Plain>
    ensures goes { IsPlainWord word → Parses (g.rule (part_of_directive word)) r.entry result }
    ensures reads { IfOk result (λ x. (t.Pragma at start) ∷ r.entry.tokens.now ≡ sp.spell_plain x.0 x.1.tokens.now) }
    ensures fits { IfOk result (λ x. f.FitsPlain x.0) }
    ensures shorter { IfOk result (λ x. length x.1.tokens.now < length r.entry.tokens.now) }
{
    match word {
        DirectiveWord::Reflect => reflect(alloc, start, r),
        DirectiveWord::Barrier => barrier(start, r),
        DirectiveWord::Bcast => bcast(alloc, start, r),
        DirectiveWord::Gmove => gmove(alloc, start, r),
        DirectiveWord::Loop | DirectiveWord::Task | DirectiveWord::Tasks => Err(r.unexpected()),
    }
}
