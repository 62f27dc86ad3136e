// Assignments, steps and calls.
ghost use Rattle.std.specs.Prelude.{◌≡◌, ◌≤◌, ◌<◌, false, true, IfOk, ◌∷◌, length};
ghost use Rattle.xmp_lex.specs.declared.token.Mark.TheVariants as m;
ghost use Rattle.xmp_lex.specs.declared.token.TokenKind.TheVariants as t;
ghost use Rattle.xmp_syntax.specs.Parts as p;
ghost use Rattle.xmp_syntax.specs.Reading.{part, choice, tok, plain, ◌·◌};
ghost use Rattle.xmp_syntax.specs.Grammar as g;
ghost use Rattle.xmp_syntax.specs.Spell as sp;
ghost use Rattle.xmp_syntax.specs.Spell.{◌at◌};
ghost use Rattle.xmp_syntax.specs.Fits as f;
ghost use Rattle.xmp_syntax.specs.View.{ref_view};
ghost use Rattle.xmp_reader.specs.Going.{Parses};

use crate::effect::Effect;
use crate::expressions::{arguments, expression, image, subscripts};
use crate::marks::Class;
use crate::reader::{Parsed, Reader};
use sqlite_items::Boxed;
use std::alloc::Global;
use xmp_lex::Mark;
use xmp_syntax::{Call, Expr, Name, Placed, Reference, Simple};

/// A variable or an element, behind which no other colon may stand.
pub fn reference(alloc: Global, r: Reader<'_>) -> Parsed<'_, Reference<Boxed<Expr>>>
    ensures goes { Parses (part (p.reference false)) r.entry result }
    ensures reads { IfOk result (λ x. r.entry.tokens.now ≡ sp.spell_ref (ref_view x.0) x.1.tokens.now) }
    ensures fits { IfOk result (λ x. f.FitsRef (ref_view x.0)) }
    ensures shorter { IfOk result (λ x. length x.1.tokens.now < length r.entry.tokens.now) }
{
    let (name, r) = r.name(alloc)?;
    let (subscripts, r) = subscripts(alloc, r)?;
    let (image, r) = image(alloc, false, r)?;
    let reference = Reference {
        name,
        subscripts,
        image,
    };
    Ok((reference, r))
}

/// `++` or `--` and a reference.
fn prefix(alloc: Global, r: Reader<'_>) -> Parsed<'_, Simple>
    ensures goes { Parses (tok plain g.is_step · part (p.reference false)) r.entry result }
    ensures reads { IfOk result (λ x. r.entry.tokens.now ≡ sp.spell_simple x.0 x.1.tokens.now) }
    ensures fits { IfOk result (λ x. f.FitsSimple x.0) }
    ensures shorter { IfOk result (λ x. length x.1.tokens.now < length r.entry.tokens.now) }
{
    let (operator, r) = r.mark_of(Class::Step, Effect::Plain)?;
    let (target, r) = reference(alloc, r)?;
    Ok((Simple::Prefix(operator, target), r))
}

/// An assignment operator and its value.
fn assigned(alloc: Global, r: Reader<'_>) -> Parsed<'_, (Placed<Mark>, Expr)>
    ensures goes { Parses (tok plain g.is_assign · g.expr) r.entry result }
    ensures reads { IfOk result (λ x. r.entry.tokens.now ≡ (t.Mark x.0.0.what at x.0.0.at) ∷ sp.expr x.0.1 x.1.tokens.now) }
    ensures operator { IfOk result (λ x. g.is_assign (t.Mark x.0.0.what) ≡ true) }
    ensures fits { IfOk result (λ x. f.FitsExpr x.0.1) }
    ensures shorter { IfOk result (λ x. length x.1.tokens.now < length r.entry.tokens.now) }
{
    let (operator, r) = r.mark_of(Class::Assign, Effect::Plain)?;
    let (value, r) = expression(alloc, false, r)?;
    Ok(((operator, value), r))
}

/// A step behind its target.
fn stepped(target: Reference<Boxed<Expr>>, r: Reader<'_>) -> Parsed<'_, Simple>
    requires { f.FitsRef (ref_view target) }
    ensures goes { Parses (tok plain g.is_step) r.entry result }
    ensures reads { IfOk result (λ x. sp.spell_ref (ref_view target) r.entry.tokens.now ≡ sp.spell_simple x.0 x.1.tokens.now) }
    ensures fits { IfOk result (λ x. f.FitsSimple x.0) }
    ensures shorter { IfOk result (λ x. length x.1.tokens.now < length r.entry.tokens.now) }
{
    match r.mark_of(Class::Step, Effect::Plain) {
        Ok((operator, r)) => Ok((Simple::Postfix(target, operator), r)),
        Err(stop) => {
            drop(target);
            Err(stop)
        }
    }
}

/// An assignment or a step, behind its target.
fn change(alloc: Global, target: Reference<Boxed<Expr>>, r: Reader<'_>) -> Parsed<'_, Simple>
    requires { f.FitsRef (ref_view target) }
    ensures goes { Parses (choice g.is_step (tok plain g.is_step) (tok plain g.is_assign · g.expr)) r.entry result }
    ensures reads { IfOk result (λ x. sp.spell_ref (ref_view target) r.entry.tokens.now ≡ sp.spell_simple x.0 x.1.tokens.now) }
    ensures fits { IfOk result (λ x. f.FitsSimple x.0) }
    ensures shorter { IfOk result (λ x. length x.1.tokens.now < length r.entry.tokens.now) }
{
    if r.is_of(Class::Step) {
        return stepped(target, r);
    }
    match assigned(alloc, r) {
        Ok((made, r)) => Ok((Simple::Assign(target, made.0, made.1), r)),
        Err(stop) => {
            drop(target);
            Err(stop)
        }
    }
}

/// An assignment or a step, behind the name of its target.
fn named_change(alloc: Global, name: Name, r: Reader<'_>) -> Parsed<'_, Simple>
    requires { r.depth.now ≤ 128 }
    ensures goes { Parses (part p.subscripts · part (p.image false) · choice g.is_step (tok plain g.is_step) (tok plain g.is_assign · g.expr)) r.entry result }
    ensures reads { IfOk result (λ x. sp.name name r.entry.tokens.now ≡ sp.spell_simple x.0 x.1.tokens.now) }
    ensures fits { IfOk result (λ x. f.FitsSimple x.0) }
    ensures shorter { IfOk result (λ x. length x.1.tokens.now < length r.entry.tokens.now) }
{
    let (subscripts, r) = subscripts(alloc, r)?;
    let (image, r) = image(alloc, false, r)?;
    let target = Reference {
        name,
        subscripts,
        image,
    };
    change(alloc, target, r)
}

/// A call, an assignment or a step that begins with a name.
fn named_simple(alloc: Global, r: Reader<'_>) -> Parsed<'_, Simple>
    ensures goes { Parses (g.name · choice (g.is_mark m.OpenParen) (part p.arguments) (part p.subscripts · part (p.image false) · choice g.is_step (tok plain g.is_step) (tok plain g.is_assign · g.expr))) r.entry result }
    ensures reads { IfOk result (λ x. r.entry.tokens.now ≡ sp.spell_simple x.0 x.1.tokens.now) }
    ensures fits { IfOk result (λ x. f.FitsSimple x.0) }
    ensures shorter { IfOk result (λ x. length x.1.tokens.now < length r.entry.tokens.now) }
{
    let (name, r) = r.name(alloc)?;
    if r.is_mark(Mark::OpenParen) {
        let (arguments, r) = arguments(alloc, r)?;
        return Ok((Simple::Call(Call { name, arguments }), r));
    }
    named_change(alloc, name, r)
}

/// An assignment, a step or a call.
pub fn simple(alloc: Global, r: Reader<'_>) -> Parsed<'_, Simple>
    ensures goes { Parses (part p.simple) r.entry result }
    ensures reads { IfOk result (λ x. r.entry.tokens.now ≡ sp.spell_simple x.0 x.1.tokens.now) }
    ensures fits { IfOk result (λ x. f.FitsSimple x.0) }
    ensures shorter { IfOk result (λ x. length x.1.tokens.now < length r.entry.tokens.now) }
{
    if r.is_of(Class::Step) {
        return prefix(alloc, r);
    }
    named_simple(alloc, r)
}
