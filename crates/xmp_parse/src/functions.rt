// Functions and their bodies.
ghost use Rattle.std.specs.Prelude.{◌≡◌, ◌≤◌, ◌<◌, IfOk, length, not};
ghost use Rattle.xmp_lex.specs.declared.token.Mark.TheVariants as m;
ghost use Rattle.xmp_syntax.specs.Parts as p;
ghost use Rattle.xmp_syntax.specs.Reading.{part, many};
ghost use Rattle.xmp_syntax.specs.Grammar as g;
ghost use Rattle.xmp_syntax.specs.Spell as sp;
ghost use Rattle.xmp_syntax.specs.Fits as f;
ghost use Rattle.xmp_syntax.specs.View.{items_view};
ghost use Rattle.xmp_reader.specs.Going.{Parses};

use crate::blocks::block_item;
use crate::parameter_lists::parameters;
use sqlite_items::Items;
use std::alloc::Global;
use xmp_lex::Mark;
use xmp_reader::{Effect, Parsed, Reader};
use xmp_syntax::{BlockItem, Function, Inside, Name, Stmt, TypeWords};

/// The items of a block, up to its closing brace.
fn body_items(alloc: Global, r: Reader<'_>) -> Parsed<'_, Items<BlockItem<Stmt>>>
    ensures goes { Parses (many (λ k. not (g.is_mark m.CloseBrace k)) (part p.block_item)) r.entry result }
    ensures reads { IfOk result (λ x. r.entry.tokens.now ≡ sp.spell_items (items_view x.0) x.1.tokens.now) }
    ensures fits { IfOk result (λ x. f.FitsItems (items_view x.0)) }
    ensures shorter { IfOk result (λ x. length x.1.tokens.now ≤ length r.entry.tokens.now) }
{
    let mut items = Items::new(alloc);
    let mut rest = r;
    while !rest.is_mark(Mark::CloseBrace) {
        let (item, r) = block_item(alloc, rest)?;
        items.push(item)?;
        rest = r;
    }
    Ok((items, rest))
}

/// The body of a function.
fn body(alloc: Global, r: Reader<'_>) -> Parsed<'_, Inside<Items<BlockItem<Stmt>>>>
    ensures goes { Parses (part p.block) r.entry result }
    ensures reads { IfOk result (λ x. r.entry.tokens.now ≡ sp.body x.0 x.1.tokens.now) }
    ensures fits { IfOk result (λ x. f.FitsItems (items_view x.0.item)) }
    ensures shorter { IfOk result (λ x. length x.1.tokens.now < length r.entry.tokens.now) }
{
    let outer = r.depth;
    let (open, r) = r.mark(Mark::OpenBrace, Effect::Opening)?;
    let (item, r) = body_items(alloc, r)?;
    let (close, r) = r.mark(Mark::CloseBrace, Effect::Closing(outer))?;
    Ok((Inside { open, item, close }, r))
}

/// A function, behind its name.
pub fn function_rest(
    alloc: Global,
    ty: TypeWords,
    name: Name,
    r: Reader<'_>,
) -> Parsed<'_, Function>
    ensures goes { Parses (part p.function_rest) r.entry result }
    ensures reads { IfOk result (λ x. sp.type_words ty (sp.name name r.entry.tokens.now) ≡ sp.function x.0 x.1.tokens.now) }
    ensures fits { IfOk result (λ x. f.FitsItems (items_view x.0.body.item)) }
    ensures shorter { IfOk result (λ x. length x.1.tokens.now < length r.entry.tokens.now) }
{
    let (parameters, r) = parameters(alloc, r)?;
    let (body, r) = body(alloc, r)?;
    let function = Function {
        ty,
        name,
        parameters,
        body,
    };
    Ok((function, r))
}
