// Statements that hold no statement and are no directives.
ghost use Rattle.std.specs.Prelude.{◌≡◌, ◌<◌, false, IfOk, ◌∷◌, length};
ghost use Rattle.xmp_lex.specs.declared.token.Mark.TheVariants as m;
ghost use Rattle.xmp_syntax.specs.Parts as p;
ghost use Rattle.xmp_syntax.specs.Reading as reading;
ghost use Rattle.xmp_syntax.specs.Reading.{part, many, tok, ◌·◌};
ghost use Rattle.xmp_syntax.specs.Grammar as g;
ghost use Rattle.xmp_syntax.specs.Spell as sp;
ghost use Rattle.xmp_syntax.specs.Fits as f;
ghost use Rattle.xmp_syntax.specs.View.{ref_view, rest_view};
ghost use Rattle.xmp_reader.specs.Going.{Parses};
ghost use Rattle.xmp_parse.specs.Counted.{HoldsNone};

use sqlite_items::{Boxed, Items};
use std::alloc::Global;
use xmp_base::Place;
use xmp_lex::{Mark, Reserved};
use xmp_reader::{
    Class, Effect, Exprs, Parsed, Part, Reader, expression, in_parens, more_parts, reference,
    simple,
};
use xmp_syntax::{Expr, Format, Next, Plain, Reference};

fn empty(r: Reader<'_>) -> Parsed<'_, Plain>
    ensures goes { Parses (g.rule p.empty) r.entry result }
    ensures reads { IfOk result (λ x. r.entry.tokens.now ≡ sp.spell_plain x.0 x.1.tokens.now) }
    ensures fits { IfOk result (λ x. f.FitsPlain x.0) }
    ensures shorter { IfOk result (λ x. length x.1.tokens.now < length r.entry.tokens.now) }
{
    let (end, r) = r.mark(Mark::Semicolon, Effect::Separator)?;
    Ok((Plain::Empty(end), r))
}

fn simple_statement(alloc: Global, r: Reader<'_>) -> Parsed<'_, Plain>
    ensures goes { Parses (g.rule p.simple_statement) r.entry result }
    ensures reads { IfOk result (λ x. r.entry.tokens.now ≡ sp.spell_plain x.0 x.1.tokens.now) }
    ensures fits { IfOk result (λ x. f.FitsPlain x.0) }
    ensures shorter { IfOk result (λ x. length x.1.tokens.now < length r.entry.tokens.now) }
{
    let (simple, r) = simple(alloc, r)?;
    match r.mark(Mark::Semicolon, Effect::Separator) {
        Ok((end, r)) => Ok((Plain::Simple(simple, end), r)),
        Err(stop) => {
            drop(simple);
            Err(stop)
        }
    }
}

fn return_statement(alloc: Global, r: Reader<'_>) -> Parsed<'_, Plain>
    ensures goes { Parses (g.rule p.return_statement) r.entry result }
    ensures reads { IfOk result (λ x. r.entry.tokens.now ≡ sp.spell_plain x.0 x.1.tokens.now) }
    ensures fits { IfOk result (λ x. f.FitsPlain x.0) }
    ensures shorter { IfOk result (λ x. length x.1.tokens.now < length r.entry.tokens.now) }
{
    let (word, r) = r.word(Reserved::Return, Effect::Plain)?;
    let (value, r) = expression(alloc, false, r)?;
    match r.mark(Mark::Semicolon, Effect::Separator) {
        Ok((end, r)) => Ok((Plain::Return(word, value, end), r)),
        Err(stop) => {
            drop(value);
            Err(stop)
        }
    }
}

/// The format and the values of `printf`.
struct PrintLists;

impl Part for PrintLists {
    type Made = (Format, Items<Next<Expr>>);

    ghost rule = { tok reading.plain g.is_text · many (g.is_mark m.Comma) (g.comma · g.expr) };

    ghost text = { sp.print_list };

    ghost is_fit = { λ x. f.FitsRest (rest_view x.1) };

    #[tactic(auto, using(xmp_reader::proofs::Views::rest_spelled, xmp_reader::proofs::Views::rest_fits))]
    fn read(alloc: Global, r: Reader<'_>) -> Parsed<'_, (Format, Items<Next<Expr>>)> {
        let (format, r) = r.format(alloc)?;
        let (values, r) = more_parts::<Exprs>(alloc, r)?;
        Ok(((format, values), r))
    }
}

fn print(alloc: Global, r: Reader<'_>) -> Parsed<'_, Plain>
    ensures goes { Parses (g.rule p.print_statement) r.entry result }
    ensures reads { IfOk result (λ x. r.entry.tokens.now ≡ sp.spell_plain x.0 x.1.tokens.now) }
    ensures fits { IfOk result (λ x. f.FitsPlain x.0) }
    ensures shorter { IfOk result (λ x. length x.1.tokens.now < length r.entry.tokens.now) }
{
    let (word, r) = r.word(Reserved::Printf, Effect::Plain)?;
    let (list, r) = in_parens::<PrintLists>(alloc, r)?;
    let (end, r) = r.mark(Mark::Semicolon, Effect::Separator)?;
    Ok((Plain::Print(word, list, end), r))
}

/// The format and the target of `scanf`.
struct ScanLists;

impl Part for ScanLists {
    type Made = (Format, Place, Place, Reference<Boxed<Expr>>);

    ghost rule = { tok reading.plain g.is_text · g.comma · g.sign m.And · part (p.reference false) };

    ghost text = { λ y z. sp.format y.0 (sp.sign m.Comma y.1 (sp.sign m.And y.2 (sp.spell_ref (ref_view y.3) z))) };

    ghost is_fit = { λ x. f.FitsRef (ref_view x.3) };

    fn read(
        alloc: Global,
        r: Reader<'_>,
    ) -> Parsed<'_, (Format, Place, Place, Reference<Boxed<Expr>>)> {
        let (format, r) = r.format(alloc)?;
        let (comma, r) = r.mark(Mark::Comma, Effect::Separator)?;
        let (and, r) = r.mark(Mark::And, Effect::Plain)?;
        let (target, r) = reference(alloc, r)?;
        Ok(((format, comma, and, target), r))
    }
}

fn scan(alloc: Global, r: Reader<'_>) -> Parsed<'_, Plain>
    ensures goes { Parses (g.rule p.scan_statement) r.entry result }
    ensures reads { IfOk result (λ x. r.entry.tokens.now ≡ sp.spell_plain x.0 x.1.tokens.now) }
    ensures fits { IfOk result (λ x. f.FitsPlain x.0) }
    ensures shorter { IfOk result (λ x. length x.1.tokens.now < length r.entry.tokens.now) }
{
    let (word, r) = r.word(Reserved::Scanf, Effect::Plain)?;
    let (list, r) = in_parens::<ScanLists>(alloc, r)?;
    match r.mark(Mark::Semicolon, Effect::Separator) {
        Ok((end, r)) => Ok((Plain::Scan(word, list, end), r)),
        Err(stop) => {
            drop(list);
            Err(stop)
        }
    }
}

/// The target of `xmp_sync_all`.
struct SyncTargets;

impl Part for SyncTargets {
    type Made = (Place, Reference<Boxed<Expr>>);

    ghost rule = { g.sign m.And · part (p.reference false) };

    ghost text = { λ y z. sp.sign m.And y.0 (sp.spell_ref (ref_view y.1) z) };

    ghost is_fit = { λ x. f.FitsRef (ref_view x.1) };

    fn read(alloc: Global, r: Reader<'_>) -> Parsed<'_, (Place, Reference<Boxed<Expr>>)> {
        let (and, r) = r.mark(Mark::And, Effect::Plain)?;
        let (target, r) = reference(alloc, r)?;
        Ok(((and, target), r))
    }
}

fn sync(alloc: Global, r: Reader<'_>) -> Parsed<'_, Plain>
    ensures goes { Parses (g.rule p.sync_statement) r.entry result }
    ensures reads { IfOk result (λ x. r.entry.tokens.now ≡ sp.spell_plain x.0 x.1.tokens.now) }
    ensures fits { IfOk result (λ x. f.FitsPlain x.0) }
    ensures shorter { IfOk result (λ x. length x.1.tokens.now < length r.entry.tokens.now) }
{
    let (word, r) = r.word(Reserved::SyncAll, Effect::Plain)?;
    let (target, r) = in_parens::<SyncTargets>(alloc, r)?;
    let (end, r) = r.mark(Mark::Semicolon, Effect::Separator)?;
    Ok((Plain::Sync(word, target, end), r))
}

/// A statement that holds no statement and is no directive.
pub fn plain(alloc: Global, r: Reader<'_>) -> Parsed<'_, Plain>
    ensures goes { HoldsNone r.entry.tokens.now → Parses (part p.statement) r.entry result }
    ensures reads { IfOk result (λ x. r.entry.tokens.now ≡ sp.spell_plain x.0 x.1.tokens.now) }
    ensures fits { IfOk result (λ x. f.FitsPlain x.0) }
    ensures shorter { IfOk result (λ x. length x.1.tokens.now < length r.entry.tokens.now) }
{
    if r.is_mark(Mark::Semicolon) {
        return empty(r);
    }
    if r.is_word(Reserved::Return) {
        return return_statement(alloc, r);
    }
    if r.is_word(Reserved::Printf) {
        return print(alloc, r);
    }
    if r.is_word(Reserved::Scanf) {
        return scan(alloc, r);
    }
    if r.is_word(Reserved::SyncAll) {
        return sync(alloc, r);
    }
    if r.is_of(Class::Step) {
        return simple_statement(alloc, r);
    }
    if r.is_name() {
        return simple_statement(alloc, r);
    }
    Err(r.unexpected())
}
