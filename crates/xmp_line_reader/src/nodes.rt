// The lines of nodes arrays.
ghost use Rattle.std.specs.Prelude.{◌≡◌, ◌≤◌, ◌<◌, List, IfOk, ◌∷◌, [], length};
ghost use Rattle.xmp_lex.specs.declared.token.Token.{Token};
ghost use Rattle.xmp_lex.specs.declared.token.Mark.TheVariants as m;
ghost use Rattle.xmp_lex.specs.declared.token.TokenKind.TheVariants as t;
ghost use Rattle.xmp_syntax.specs.Parts as p;
ghost use Rattle.xmp_syntax.specs.Reading.{part, choice, many, tok, closing, ◌·◌};
ghost use Rattle.xmp_syntax.specs.Grammar as g;
ghost use Rattle.xmp_syntax.specs.Spell as sp;
ghost use Rattle.xmp_syntax.specs.Spell.{◌at◌};
ghost use Rattle.xmp_syntax.specs.Fits as f;
ghost use Rattle.xmp_reader.specs.Going.{Parses, ParsesAll};
ghost use Rattle.xmp_line_reader.specs.Lines.{Closes, Ends, nodes_line};

use crate::lines::set;
use crate::mappings::named;
use sqlite_items::Items;
use std::alloc::Global;
use xmp_base::{NoMemory, Place};
use xmp_lex::Mark;
use xmp_reader::{Depth, Effect, Exprs, Parsed, Reader, dims, expression, more_parts};
use xmp_syntax::{
    CommaList, DirectiveLine, Expr, Inside, Mapping, Name, NodesSet, Several, Single,
};

/// The star of a nodes array whose size is not given, behind its opening bracket, and the closing one.
fn star_behind(outer: Depth, bracket: Place, mark: Mark, r: Reader<'_>) -> Parsed<'_, Inside<Place>>
    ensures goes { Closes (g.sign m.Star) mark outer r.entry result }
    ensures reads { IfOk result (λ x. r.entry.tokens.now ≡ sp.sign m.Star x.0.item (sp.sign mark x.0.close x.1.tokens.now)) }
    ensures opens { IfOk result (λ x. x.0.open ≡ bracket) }
    ensures shorter { IfOk result (λ x. length x.1.tokens.now < length r.entry.tokens.now) }
{
    let (item, r) = r.mark(Mark::Star, Effect::Plain)?;
    let (close, r) = r.mark(mark, Effect::Closing(outer))?;
    let open = bracket;
    Ok((Inside { open, item, close }, r))
}

/// The end of the line of a nodes array whose size is not given.
fn star_end<'a>(
    start: Place,
    head: (Place, Name),
    star: Single<Place>,
    r: Reader<'a>,
) -> Parsed<'a, Mapping>
    ensures goes { Parses g.line_end r.entry result }
    ensures reads { IfOk result (λ x. nodes_line start head (sp.single (sp.sign m.Star) star r.entry.tokens.now) ≡ sp.spell_mapping x.0 x.1.tokens.now) }
    ensures fits { IfOk result (λ x. f.FitsMapping x.0) }
    ensures shorter { IfOk result (λ x. length x.1.tokens.now < length r.entry.tokens.now) }
{
    let (end, r) = r.line_end()?;
    let word = head.0;
    let line = DirectiveLine { start, word, end };
    Ok((Mapping::NodesStar(line, head.1, star), r))
}

/// One size, as sizes.
fn one_size(alloc: Global, size: Single<Expr>) -> Result<Several<Expr, Expr>, NoMemory>
    ensures reads { IfOk result (λ x. (r : List Token) → sp.single sp.expr size r ≡ sp.several sp.expr sp.expr x r) }
    ensures fits { f.FitsSingle f.FitsExpr size → IfOk result (λ x. f.FitsSeveral f.FitsExpr f.FitsExpr x) }
{
    match size {
        Single::Bracket(size) => {
            let mut sizes = Items::new(alloc);
            sizes.push(size)?;
            Ok(Several::Brackets(sizes))
        }
        Single::Paren(size) => {
            let item = CommaList {
                first: size.item,
                more: Items::new(alloc),
            };
            Ok(Several::Parens(Inside {
                open: size.open,
                item,
                close: size.close,
            }))
        }
    }
}

/// `=`, the set of nodes that a nodes array names, and the end of the line.
fn assigned_set(alloc: Global, r: Reader<'_>) -> Parsed<'_, (Place, NodesSet, Place)>
    ensures goes { ParsesAll ((g.sign m.Assign · part p.set) ∷ g.line_end ∷ []) r.entry result }
    ensures reads { IfOk result (λ x. r.entry.tokens.now ≡ sp.sign m.Assign x.0.0 (sp.nodes_set x.0.1 ((t.Close at x.0.2) ∷ x.1.tokens.now))) }
    ensures fits { IfOk result (λ x. f.FitsSet x.0.1) }
    ensures shorter { IfOk result (λ x. length x.1.tokens.now < length r.entry.tokens.now) }
{
    let (assign, r) = r.mark(Mark::Assign, Effect::Plain)?;
    let (set, r) = set(alloc, r)?;
    match r.line_end() {
        Ok((end, r)) => Ok(((assign, set, end), r)),
        Err(stop) => {
            drop(set);
            Err(stop)
        }
    }
}

/// A nodes array of one size that names a set of nodes, from `=` on.
fn nodes_part<'a>(
    alloc: Global,
    start: Place,
    head: (Place, Name),
    size: Single<Expr>,
    r: Reader<'a>,
) -> Parsed<'a, Mapping>
    ensures goes { ParsesAll ((g.sign m.Assign · part p.set) ∷ g.line_end ∷ []) r.entry result }
    ensures reads { IfOk result (λ x. nodes_line start head (sp.single sp.expr size r.entry.tokens.now) ≡ sp.spell_mapping x.0 x.1.tokens.now) }
    ensures fits { f.FitsSingle f.FitsExpr size → IfOk result (λ x. f.FitsMapping x.0) }
    ensures shorter { IfOk result (λ x. length x.1.tokens.now < length r.entry.tokens.now) }
{
    match assigned_set(alloc, r) {
        Ok((set, r)) => {
            let line = DirectiveLine {
                start,
                word: head.0,
                end: set.2,
            };
            Ok((Mapping::NodesPart(line, head.1, size, set.0, set.1), r))
        }
        Err(stop) => {
            drop(size);
            drop(head);
            Err(stop)
        }
    }
}

/// A nodes array of one size, from behind it on.
fn nodes_end<'a>(
    alloc: Global,
    start: Place,
    head: (Place, Name),
    size: Single<Expr>,
    r: Reader<'a>,
) -> Parsed<'a, Mapping>
    ensures goes { Parses g.nodes_end r.entry result }
    ensures reads { IfOk result (λ x. nodes_line start head (sp.single sp.expr size r.entry.tokens.now) ≡ sp.spell_mapping x.0 x.1.tokens.now) }
    ensures fits { f.FitsSingle f.FitsExpr size → IfOk result (λ x. f.FitsMapping x.0) }
    ensures shorter { IfOk result (λ x. length x.1.tokens.now < length r.entry.tokens.now) }
{
    if r.is_mark(Mark::Assign) {
        return nodes_part(alloc, start, head, size, r);
    }
    match r.line_end() {
        Ok((end, r)) => {
            let sizes = one_size(alloc, size)?;
            let word = head.0;
            let line = DirectiveLine { start, word, end };
            Ok((Mapping::Nodes(line, head.1, sizes), r))
        }
        Err(stop) => {
            drop(size);
            drop(head);
            Err(stop)
        }
    }
}

/// The first size of a nodes array, behind its opening bracket.
fn size_behind(
    alloc: Global,
    outer: Depth,
    bracket: Place,
    r: Reader<'_>,
) -> Parsed<'_, Inside<Expr>>
    ensures goes { Closes g.expr m.CloseBracket outer r.entry result }
    ensures reads { IfOk result (λ x. (t.Mark m.OpenBracket at bracket) ∷ r.entry.tokens.now ≡ sp.in_brackets sp.expr x.0 x.1.tokens.now) }
    ensures fits { IfOk result (λ x. f.FitsExpr x.0.item) }
    ensures shorter { IfOk result (λ x. length x.1.tokens.now < length r.entry.tokens.now) }
{
    let (item, r) = expression(alloc, false, r)?;
    let open = bracket;
    match r.mark(Mark::CloseBracket, Effect::Closing(outer)) {
        Ok((close, r)) => Ok((Inside { open, item, close }, r)),
        Err(stop) => {
            drop(item);
            Err(stop)
        }
    }
}

/// The sizes of a nodes array from the second on, each in brackets, and the end of the line.
fn more_sizes(
    alloc: Global,
    first: Inside<Expr>,
    r: Reader<'_>,
) -> Parsed<'_, (Items<Inside<Expr>>, Place)>
    ensures goes { Parses (g.dims g.expr · g.line_end) r.entry result }
    ensures reads { IfOk result (λ x. sp.in_brackets sp.expr first r.entry.tokens.now ≡ sp.dims sp.expr x.0.0 ((t.Close at x.0.1) ∷ x.1.tokens.now)) }
    ensures fits { f.FitsExpr first.item → IfOk result (λ x. f.FitsSomeDims f.FitsExpr x.0.0) }
    ensures shorter { IfOk result (λ x. length x.1.tokens.now < length r.entry.tokens.now) }
{
    let mut sizes = Items::new(alloc);
    sizes.push(first)?;
    let (more, r) = dims::<Exprs>(alloc, r)?;
    let (end, r) = r.line_end()?;
    sizes.append(more)?;
    Ok(((sizes, end), r))
}

/// A nodes array with its sizes in brackets, from behind the first on.
fn sizes_in_brackets<'a>(
    alloc: Global,
    start: Place,
    head: (Place, Name),
    size: Inside<Expr>,
    r: Reader<'a>,
) -> Parsed<'a, Mapping>
    ensures goes { Parses (choice (g.is_mark m.OpenBracket) (g.dims g.expr · g.line_end) g.nodes_end) r.entry result }
    ensures reads { IfOk result (λ x. nodes_line start head (sp.in_brackets sp.expr size r.entry.tokens.now) ≡ sp.spell_mapping x.0 x.1.tokens.now) }
    ensures fits { f.FitsExpr size.item → IfOk result (λ x. f.FitsMapping x.0) }
    ensures shorter { IfOk result (λ x. length x.1.tokens.now < length r.entry.tokens.now) }
{
    if !r.is_mark(Mark::OpenBracket) {
        return nodes_end(alloc, start, head, Single::Bracket(size), r);
    }
    match more_sizes(alloc, size, r) {
        Ok((sizes, r)) => {
            let line = DirectiveLine {
                start,
                word: head.0,
                end: sizes.1,
            };
            Ok((Mapping::Nodes(line, head.1, Several::Brackets(sizes.0)), r))
        }
        Err(stop) => {
            drop(head);
            Err(stop)
        }
    }
}

/// A nodes array with its sizes in brackets, from behind its name on.
fn bracketed_nodes<'a>(
    alloc: Global,
    start: Place,
    head: (Place, Name),
    r: Reader<'a>,
) -> Parsed<'a, Mapping>
    ensures goes { Parses g.nodes_in_brackets r.entry result }
    ensures reads { IfOk result (λ x. nodes_line start head r.entry.tokens.now ≡ sp.spell_mapping x.0 x.1.tokens.now) }
    ensures fits { IfOk result (λ x. f.FitsMapping x.0) }
    ensures shorter { IfOk result (λ x. length x.1.tokens.now < length r.entry.tokens.now) }
{
    let outer = r.depth;
    let (open, r) = r.mark(Mark::OpenBracket, Effect::Opening)?;
    if r.is_mark(Mark::Star) {
        let (star, r) = star_behind(outer, open, Mark::CloseBracket, r)?;
        return star_end(start, head, Single::Bracket(star), r);
    }
    let (size, r) = size_behind(alloc, outer, open, r)?;
    sizes_in_brackets(alloc, start, head, size, r)
}

/// The closing parenthesis behind sizes, and the end of the line.
fn list_end<'a>(
    outer: Depth,
    bracket: Place,
    item: CommaList<Expr>,
    r: Reader<'a>,
) -> Parsed<'a, (Inside<CommaList<Expr>>, Place)>
    ensures goes { Ends (tok closing (g.is_mark m.CloseParen) · g.line_end) outer r.entry result }
    ensures reads { IfOk result (λ x. (t.Mark m.OpenParen at bracket) ∷ sp.list sp.expr item r.entry.tokens.now ≡ sp.in_parens (sp.list sp.expr) x.0.0 ((t.Close at x.0.1) ∷ x.1.tokens.now)) }
    ensures fits { f.FitsList f.FitsExpr item → IfOk result (λ x. f.FitsList f.FitsExpr x.0.0.item) }
    ensures shorter { IfOk result (λ x. length x.1.tokens.now < length r.entry.tokens.now) }
{
    let (close, r) = r.mark(Mark::CloseParen, Effect::Closing(outer))?;
    let (end, r) = r.line_end()?;
    let open = bracket;
    Ok(((Inside { open, item, close }, end), r))
}

/// The sizes of a nodes array from the second on, between parentheses, and the end of the line.
fn more_behind(
    alloc: Global,
    outer: Depth,
    bracket: Place,
    first: Expr,
    r: Reader<'_>,
) -> Parsed<'_, (Inside<CommaList<Expr>>, Place)>
    ensures goes { Ends (many (g.is_mark m.Comma) (g.comma · g.expr) · tok closing (g.is_mark m.CloseParen) · g.line_end) outer r.entry result }
    ensures reads { IfOk result (λ x. (t.Mark m.OpenParen at bracket) ∷ sp.expr first r.entry.tokens.now ≡ sp.in_parens (sp.list sp.expr) x.0.0 ((t.Close at x.0.1) ∷ x.1.tokens.now)) }
    ensures fits { f.FitsExpr first → IfOk result (λ x. f.FitsList f.FitsExpr x.0.0.item) }
    ensures shorter { IfOk result (λ x. length x.1.tokens.now < length r.entry.tokens.now) }
{
    match more_parts::<Exprs>(alloc, r) {
        Ok((more, r)) => list_end(outer, bracket, CommaList { first, more }, r),
        Err(stop) => {
            drop(first);
            Err(stop)
        }
    }
}

/// A nodes array with its sizes between parentheses, from the second on.
fn list_of_sizes<'a>(
    alloc: Global,
    start: Place,
    head: (Place, Name),
    around: (Depth, Place),
    first: Expr,
    r: Reader<'a>,
) -> Parsed<'a, Mapping>
    ensures goes { Ends (many (g.is_mark m.Comma) (g.comma · g.expr) · tok closing (g.is_mark m.CloseParen) · g.line_end) around.0 r.entry result }
    ensures reads { IfOk result (λ x. nodes_line start head ((t.Mark m.OpenParen at around.1) ∷ sp.expr first r.entry.tokens.now) ≡ sp.spell_mapping x.0 x.1.tokens.now) }
    ensures fits { f.FitsExpr first → IfOk result (λ x. f.FitsMapping x.0) }
    ensures shorter { IfOk result (λ x. length x.1.tokens.now < length r.entry.tokens.now) }
{
    match more_behind(alloc, around.0, around.1, first, r) {
        Ok((sizes, r)) => {
            let line = DirectiveLine {
                start,
                word: head.0,
                end: sizes.1,
            };
            Ok((Mapping::Nodes(line, head.1, Several::Parens(sizes.0)), r))
        }
        Err(stop) => {
            drop(head);
            Err(stop)
        }
    }
}

/// A nodes array with its sizes between parentheses, from behind the first on.
fn sizes_in_parens<'a>(
    alloc: Global,
    start: Place,
    head: (Place, Name),
    around: (Depth, Place),
    first: Expr,
    r: Reader<'a>,
) -> Parsed<'a, Mapping>
    ensures goes { Ends (choice (g.is_mark m.Comma) (many (g.is_mark m.Comma) (g.comma · g.expr) · tok closing (g.is_mark m.CloseParen) · g.line_end) (tok closing (g.is_mark m.CloseParen) · g.nodes_end)) around.0 r.entry result }
    ensures reads { IfOk result (λ x. nodes_line start head ((t.Mark m.OpenParen at around.1) ∷ sp.expr first r.entry.tokens.now) ≡ sp.spell_mapping x.0 x.1.tokens.now) }
    ensures fits { f.FitsExpr first → IfOk result (λ x. f.FitsMapping x.0) }
    ensures shorter { IfOk result (λ x. length x.1.tokens.now < length r.entry.tokens.now) }
{
    if r.is_mark(Mark::Comma) {
        return list_of_sizes(alloc, start, head, around, first, r);
    }
    match r.mark(Mark::CloseParen, Effect::Closing(around.0)) {
        Ok((close, r)) => {
            let size = Inside {
                open: around.1,
                item: first,
                close,
            };
            nodes_end(alloc, start, head, Single::Paren(size), r)
        }
        Err(stop) => {
            drop(first);
            drop(head);
            Err(stop)
        }
    }
}

/// A nodes array with its sizes between parentheses, from behind its name on.
fn parenthesised_nodes<'a>(
    alloc: Global,
    start: Place,
    head: (Place, Name),
    r: Reader<'a>,
) -> Parsed<'a, Mapping>
    ensures goes { Parses g.nodes_in_parens r.entry result }
    ensures reads { IfOk result (λ x. nodes_line start head r.entry.tokens.now ≡ sp.spell_mapping x.0 x.1.tokens.now) }
    ensures fits { IfOk result (λ x. f.FitsMapping x.0) }
    ensures shorter { IfOk result (λ x. length x.1.tokens.now < length r.entry.tokens.now) }
{
    let outer = r.depth;
    let (open, r) = r.mark(Mark::OpenParen, Effect::Opening)?;
    if r.is_mark(Mark::Star) {
        let (star, r) = star_behind(outer, open, Mark::CloseParen, r)?;
        return star_end(start, head, Single::Paren(star), r);
    }
    let (first, r) = expression(alloc, false, r)?;
    sizes_in_parens(alloc, start, head, (outer, open), first, r)
}

/// The line of a nodes array, from its word on.
pub fn nodes(alloc: Global, start: Place, r: Reader<'_>) -> Parsed<'_, Mapping>
    ensures goes { Parses (g.rule p.nodes) r.entry result }
    ensures reads { IfOk result (λ x. (t.Pragma at start) ∷ r.entry.tokens.now ≡ sp.spell_mapping x.0 x.1.tokens.now) }
    ensures fits { IfOk result (λ x. f.FitsMapping x.0) }
    ensures shorter { IfOk result (λ x. length x.1.tokens.now < length r.entry.tokens.now) }
{
    let (head, r) = named(alloc, b"nodes", r)?;
    if r.is_mark(Mark::OpenParen) {
        return parenthesised_nodes(alloc, start, head, r);
    }
    bracketed_nodes(alloc, start, head, r)
}
