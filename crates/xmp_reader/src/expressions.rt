// Expressions. `colon` says that a `:` may stand behind one.
ghost use Rattle.std.specs.Prelude.{◌≡◌, ◌≤◌, ◌<◌, suc, IfOk, ◌∷◌, length};
ghost use Rattle.xmp_lex.specs.declared.token.Mark.TheVariants as m;
ghost use Rattle.xmp_lex.specs.declared.token.TokenKind.TheVariants as t;
ghost use Rattle.xmp_syntax.specs.Parts as p;
ghost use Rattle.xmp_syntax.specs.Reading.{part, many, tok, operator, ◌·◌};
ghost use Rattle.xmp_syntax.specs.Grammar as g;
ghost use Rattle.xmp_syntax.specs.Spell.{◌at◌, spell, spell_ref, spell_links, spell_subscripts, spell_image, spell_arguments, spell_rest};
ghost use Rattle.xmp_syntax.specs.Fits.{Fits, FitsRef, FitsLinks, FitsSubscripts, FitsImage, FitsArguments, FitsRest, level_of};
ghost use Rattle.xmp_syntax.specs.View.{expr_view, ref_view, links_view, subscripts_view, image_view, arguments_view, rest_view};
ghost use Rattle.xmp_reader.specs.Going.{Parses};

use crate::effect::Effect;
use crate::joined::{Branches, chain, conditional};
use crate::marks::Class;
use crate::reader::{Parsed, Reader};
use sqlite_items::{Boxed, Items};
use std::alloc::Global;
use xmp_lex::Mark;
use xmp_syntax::{Call, CommaList, Expr, Image, Inside, Link, Next, Reference};

/// The loosest level of binary operators.
const LOOSEST: u32 = 10;

/// An expression.
#[cycle(expr)]
pub fn expression(alloc: Global, colon: bool, r: Reader<'_>) -> Parsed<'_, Expr>
    ensures goes { Parses (part (p.expression colon)) r.entry result }
    ensures reads { IfOk result (λ x. r.entry.tokens.now ≡ spell (expr_view x.0) x.1.tokens.now) }
    ensures fits { IfOk result (λ x. Fits (expr_view x.0)) }
    ensures shorter { IfOk result (λ x. length x.1.tokens.now < length r.entry.tokens.now) }
{
    let (condition, r) = level(alloc, LOOSEST, colon, r)?;
    if !r.is_mark(Mark::Question) {
        return Ok((condition, r));
    }
    let (branches, r) = both_branches(alloc, colon, r)?;
    Ok((conditional(alloc, condition, branches)?, r))
}

/// Both branches of a conditional, from its `?` on.
#[cycle(expr)]
fn both_branches(alloc: Global, colon: bool, r: Reader<'_>) -> Parsed<'_, Branches>
    ensures goes { Parses (tok operator (g.is_mark m.Question) · g.expr_colon · tok operator (g.is_mark m.Colon) · part (p.expression colon)) r.entry result }
    ensures reads { IfOk result (λ x. r.entry.tokens.now ≡ (t.Mark m.Question at x.0.question) ∷ spell (expr_view x.0.yes) ((t.Mark m.Colon at x.0.colon) ∷ spell (expr_view x.0.no) x.1.tokens.now)) }
    ensures fits { IfOk result (λ x. Fits (expr_view x.0.yes) × Fits (expr_view x.0.no)) }
    ensures shorter { IfOk result (λ x. length x.1.tokens.now < length r.entry.tokens.now) }
{
    let (question, r) = r.mark(Mark::Question, Effect::Operator)?;
    let (yes, r) = boxed(alloc, true, r)?;
    let (mark, r) = r.mark(Mark::Colon, Effect::Operator)?;
    let (no, r) = boxed(alloc, colon, r)?;
    let made = Branches {
        question,
        yes,
        colon: mark,
        no,
    };
    Ok((made, r))
}

/// An expression on the heap.
#[cycle(expr)]
fn boxed(alloc: Global, colon: bool, r: Reader<'_>) -> Parsed<'_, Boxed<Expr>>
    ensures goes { Parses (part (p.expression colon)) r.entry result }
    ensures reads { IfOk result (λ x. r.entry.tokens.now ≡ spell (expr_view x.0) x.1.tokens.now) }
    ensures fits { IfOk result (λ x. Fits (expr_view x.0)) }
    ensures shorter { IfOk result (λ x. length x.1.tokens.now < length r.entry.tokens.now) }
{
    let (made, r) = expression(alloc, colon, r)?;
    Ok((Boxed::new(alloc, made)?, r))
}

/// Operands with operators that bind no looser than `n` says.
#[cycle(expr)]
pub fn level(alloc: Global, n: u32, colon: bool, r: Reader<'_>) -> Parsed<'_, Expr>
    requires { n ≤ 10 }
    ensures goes { Parses (part (p.level n colon)) r.entry result }
    ensures reads { IfOk result (λ x. r.entry.tokens.now ≡ spell (expr_view x.0) x.1.tokens.now) }
    ensures fits { IfOk result (λ x. Fits (expr_view x.0)) }
    ensures level { IfOk result (λ x. level_of (expr_view x.0) ≤ n) }
    ensures shorter { IfOk result (λ x. length x.1.tokens.now < length r.entry.tokens.now) }
{
    let (mut made, mut rest) = operand(alloc, colon, r)?;
    for below in 0..n {
        (made, rest) = longer(alloc, below, colon, made, rest)?;
    }
    Ok((made, rest))
}

/// An expression of one level more, of which the first operand is read.
#[cycle(expr)]
#[tactic(auto, using(crate::proofs::Views::chain_fits))]
fn longer(alloc: Global, below: u32, colon: bool, first: Expr, r: Reader<'_>) -> Parsed<'_, Expr>
    requires level { below < 10 }
    requires first { level_of (expr_view first) ≤ below }
    requires fits { Fits (expr_view first) }
    ensures goes { Parses (many (g.binary (suc below)) (tok operator (g.binary (suc below)) · part (p.level below colon))) r.entry result }
    ensures reads { IfOk result (λ x. spell (expr_view first) r.entry.tokens.now ≡ spell (expr_view x.0) x.1.tokens.now) }
    ensures fits { IfOk result (λ x. Fits (expr_view x.0)) }
    ensures level { IfOk result (λ x. level_of (expr_view x.0) ≤ suc below) }
    ensures shorter { IfOk result (λ x. length x.1.tokens.now ≤ length r.entry.tokens.now) }
{
    let (links, r) = links(alloc, below + 1, below, colon, r)?;
    Ok((chain(alloc, first, links)?, r))
}

/// Operators of level `n` with their right operands, which bind tighter.
#[cycle(expr)]
fn links(
    alloc: Global,
    n: u32,
    below: u32,
    colon: bool,
    r: Reader<'_>,
) -> Parsed<'_, Items<Link<Boxed<Expr>>>>
    requires level { n ≤ 10 }
    requires below { n ≡ suc below }
    ensures goes { Parses (many (g.binary n) (tok operator (g.binary n) · part (p.level below colon))) r.entry result }
    ensures reads { IfOk result (λ x. r.entry.tokens.now ≡ spell_links (links_view x.0) x.1.tokens.now) }
    ensures fits { IfOk result (λ x. FitsLinks n (links_view x.0)) }
    ensures shorter { IfOk result (λ x. length x.1.tokens.now ≤ length r.entry.tokens.now) }
{
    let mut links = Items::new(alloc);
    let mut rest = r;
    while rest.is_of(Class::Binary(n)) {
        let (operator, r) = rest.mark_of(Class::Binary(n), Effect::Operator)?;
        let (right, r) = level(alloc, below, colon, r)?;
        let right = Boxed::new(alloc, right)?;
        links.push(Link { operator, right })?;
        rest = r;
    }
    Ok((links, rest))
}

/// An operand, with the unary operators and casts before it.
#[cycle(expr)]
#[tactic(auto, using(crate::proofs::Views::view_number, crate::proofs::Views::view_unary))]
fn operand(alloc: Global, colon: bool, r: Reader<'_>) -> Parsed<'_, Expr>
    ensures goes { Parses (part (p.level 0 colon)) r.entry result }
    ensures reads { IfOk result (λ x. r.entry.tokens.now ≡ spell (expr_view x.0) x.1.tokens.now) }
    ensures fits { IfOk result (λ x. Fits (expr_view x.0)) }
    ensures level { IfOk result (λ x. level_of (expr_view x.0) ≤ 0) }
    ensures shorter { IfOk result (λ x. length x.1.tokens.now < length r.entry.tokens.now) }
{
    if r.is_number() {
        let ((value, ty, at), r) = r.number()?;
        return Ok((Expr::Number(at, value, ty), r));
    }
    if r.is_name() {
        return named(alloc, colon, r);
    }
    if r.is_mark(Mark::OpenParen) {
        return parens_or_cast(alloc, colon, r);
    }
    if !r.is_of(Class::Unary) {
        return Err(r.unexpected());
    }
    let (operator, r) = r.mark_of(Class::Unary, Effect::Operator)?;
    let (operand, r) = operand(alloc, colon, r)?;
    Ok((Expr::Unary(operator, Boxed::new(alloc, operand)?), r))
}

#[cycle(expr)]
#[tactic(auto, using(crate::proofs::Views::view_cast, crate::proofs::Views::view_parens))]
fn parens_or_cast(alloc: Global, colon: bool, r: Reader<'_>) -> Parsed<'_, Expr>
    ensures goes { Parses (g.rule (p.parens_or_cast colon)) r.entry result }
    ensures reads { IfOk result (λ x. r.entry.tokens.now ≡ spell (expr_view x.0) x.1.tokens.now) }
    ensures fits { IfOk result (λ x. Fits (expr_view x.0)) }
    ensures level { IfOk result (λ x. level_of (expr_view x.0) ≤ 0) }
    ensures shorter { IfOk result (λ x. length x.1.tokens.now < length r.entry.tokens.now) }
{
    let outer = r.depth;
    let (open, r) = r.mark(Mark::OpenParen, Effect::Opening)?;
    if r.is_type() {
        let (item, r) = r.cast_type()?;
        let (close, r) = r.mark(Mark::CloseParen, Effect::Cast(outer))?;
        let (operand, r) = operand(alloc, colon, r)?;
        let ty = Inside { open, item, close };
        return Ok((Expr::Cast(ty, Boxed::new(alloc, operand)?), r));
    }
    let (item, r) = boxed(alloc, false, r)?;
    let (close, r) = r.mark(Mark::CloseParen, Effect::Closing(outer))?;
    Ok((Expr::Parens(Inside { open, item, close }), r))
}

/// A call, or a variable or an element.
#[cycle(expr)]
#[tactic(auto, using(crate::proofs::Views::view_read, crate::proofs::Views::view_call))]
fn named(alloc: Global, colon: bool, r: Reader<'_>) -> Parsed<'_, Expr>
    ensures goes { Parses (g.rule (p.named colon)) r.entry result }
    ensures reads { IfOk result (λ x. r.entry.tokens.now ≡ spell (expr_view x.0) x.1.tokens.now) }
    ensures fits { IfOk result (λ x. Fits (expr_view x.0)) }
    ensures level { IfOk result (λ x. level_of (expr_view x.0) ≤ 0) }
    ensures shorter { IfOk result (λ x. length x.1.tokens.now < length r.entry.tokens.now) }
{
    let (name, r) = r.name(alloc)?;
    if r.is_mark(Mark::OpenParen) {
        let (arguments, r) = arguments(alloc, r)?;
        return Ok((Expr::Call(Call { name, arguments }), r));
    }
    let (subscripts, r) = subscripts(alloc, r)?;
    let (image, r) = image(alloc, colon, r)?;
    let reference = Reference {
        name,
        subscripts,
        image,
    };
    Ok((Expr::Read(reference), r))
}

/// The subscripts of an element, none of a variable.
#[cycle(expr)]
pub fn subscripts(alloc: Global, r: Reader<'_>) -> Parsed<'_, Items<Inside<Boxed<Expr>>>>
    requires { r.depth.now ≤ 128 }
    ensures goes { Parses (part p.subscripts) r.entry result }
    ensures reads { IfOk result (λ x. r.entry.tokens.now ≡ spell_subscripts (subscripts_view x.0) x.1.tokens.now) }
    ensures fits { IfOk result (λ x. FitsSubscripts (subscripts_view x.0)) }
    ensures deep { IfOk result (λ x. x.1.depth.now ≤ 128) }
    ensures shorter { IfOk result (λ x. length x.1.tokens.now ≤ length r.entry.tokens.now) }
{
    let mut subscripts = Items::new(alloc);
    let mut rest = r;
    while rest.is_mark(Mark::OpenBracket) {
        let outer = rest.depth;
        let (open, r) = rest.mark(Mark::OpenBracket, Effect::Opening)?;
        let (item, r) = boxed(alloc, false, r)?;
        let (close, r) = r.mark(Mark::CloseBracket, Effect::Closing(outer))?;
        subscripts.push(Inside { open, item, close })?;
        rest = r;
    }
    Ok((subscripts, rest))
}

/// The image behind a reference, where there is one.
#[cycle(expr)]
pub fn image(alloc: Global, colon: bool, r: Reader<'_>) -> Parsed<'_, Option<Image<Boxed<Expr>>>>
    requires { r.depth.now ≤ 128 }
    ensures goes { Parses (part (p.image colon)) r.entry result }
    ensures reads { IfOk result (λ x. r.entry.tokens.now ≡ spell_image (image_view x.0) x.1.tokens.now) }
    ensures fits { IfOk result (λ x. FitsImage (image_view x.0)) }
    ensures shorter { IfOk result (λ x. length x.1.tokens.now ≤ length r.entry.tokens.now) }
{
    if !r.is_image(colon) {
        return Ok((None, r));
    }
    let outer = r.depth;
    let ((mark, open), r) = r.image_open(colon)?;
    let (item, r) = boxed(alloc, false, r)?;
    let (close, r) = r.mark(Mark::CloseBracket, Effect::Closing(outer))?;
    let number = Inside { open, item, close };
    let image = Image {
        colon: mark,
        number,
    };
    Ok((Some(image), r))
}

/// The arguments of a call, in parentheses.
#[cycle(expr)]
pub fn arguments(alloc: Global, r: Reader<'_>) -> Parsed<'_, Inside<Option<CommaList<Boxed<Expr>>>>>
    ensures goes { Parses (part p.arguments) r.entry result }
    ensures reads { IfOk result (λ x. r.entry.tokens.now ≡ (t.Mark m.OpenParen at x.0.open) ∷ spell_arguments (arguments_view x.0.item) ((t.Mark m.CloseParen at x.0.close) ∷ x.1.tokens.now)) }
    ensures fits { IfOk result (λ x. FitsArguments (arguments_view x.0.item)) }
    ensures shorter { IfOk result (λ x. length x.1.tokens.now < length r.entry.tokens.now) }
{
    let outer = r.depth;
    let (open, r) = r.mark(Mark::OpenParen, Effect::Opening)?;
    if r.is_mark(Mark::CloseParen) {
        let (close, r) = r.mark(Mark::CloseParen, Effect::Closing(outer))?;
        let item = None;
        return Ok((Inside { open, item, close }, r));
    }
    let (first, r) = boxed(alloc, false, r)?;
    let (more, r) = more_arguments(alloc, r)?;
    let (close, r) = r.mark(Mark::CloseParen, Effect::Closing(outer))?;
    let item = Some(CommaList { first, more });
    Ok((Inside { open, item, close }, r))
}

#[cycle(expr)]
fn more_arguments(alloc: Global, r: Reader<'_>) -> Parsed<'_, Items<Next<Boxed<Expr>>>>
    ensures goes { Parses (many (g.is_mark m.Comma) (g.comma · g.expr)) r.entry result }
    ensures reads { IfOk result (λ x. r.entry.tokens.now ≡ spell_rest (rest_view x.0) x.1.tokens.now) }
    ensures fits { IfOk result (λ x. FitsRest (rest_view x.0)) }
    ensures shorter { IfOk result (λ x. length x.1.tokens.now ≤ length r.entry.tokens.now) }
{
    let mut more = Items::new(alloc);
    let mut rest = r;
    while rest.is_mark(Mark::Comma) {
        let (comma, r) = rest.mark(Mark::Comma, Effect::Separator)?;
        let (item, r) = boxed(alloc, false, r)?;
        more.push(Next { comma, item })?;
        rest = r;
    }
    Ok((more, rest))
}
