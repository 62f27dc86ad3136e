// The tokens of expressions, put down before what follows them.
ghost use Rattle.std.specs.Prelude.{◌≡◌, OnOk};
ghost use Rattle.xmp_syntax.specs.View.{arguments_view, expr_view, image_view, links_view, ref_view, subscripts_view};
ghost use Rattle.xmp_syntax.specs.Spell.{expr, name, spell, spell_arguments, spell_image, spell_links, spell_ref, spell_subscripts, type_word, word};

use crate::rest::Rest;
use sqlite_items::Boxed;
use std::alloc::Global;
use xmp_base::{NoMemory, Place};
use xmp_lex::{Mark, Reserved, TokenKind};
use xmp_num::Ty;
use xmp_syntax::{CommaList, Expr, Image, Inside, Link, Name, Reference};

pub fn put_name(rest: &mut Rest, alloc: Global, x: &Name) -> Result<(), NoMemory>
    ensures { OnOk result (rest.new ≡ name x.now rest.old) }
{
    rest.put_spelled(alloc, x.text.as_slice(), x.at)
}

fn put_type(rest: &mut Rest, ty: Ty, place: Place) -> Result<(), NoMemory>
    ensures { OnOk result (rest.new ≡ word (type_word ty) place rest.old) }
{
    match ty {
        Ty::Int => rest.put_word(Reserved::Int, place),
        Ty::Long => rest.put_word(Reserved::Long, place),
    }
}

#[cycle(expr)]
pub fn put_expr(rest: &mut Rest, alloc: Global, x: &Expr) -> Result<(), NoMemory>
    ensures { OnOk result (rest.new ≡ expr x.now rest.old) }
{
    match x {
        Expr::Number(at, value, ty) => rest.put(TokenKind::Number(*value, *ty), *at),
        Expr::Read(x) => {
            put_image(rest, alloc, &x.image)?;
            put_subscripts(rest, alloc, x.subscripts.as_slice())?;
            put_name(rest, alloc, &x.name)
        }
        Expr::Call(x) => {
            rest.put_sign(Mark::CloseParen, x.arguments.close)?;
            put_arguments(rest, alloc, &x.arguments.item)?;
            rest.put_sign(Mark::OpenParen, x.arguments.open)?;
            put_name(rest, alloc, &x.name)
        }
        Expr::Parens(x) => {
            rest.put_sign(Mark::CloseParen, x.close)?;
            put_expr(rest, alloc, x.item.get())?;
            rest.put_sign(Mark::OpenParen, x.open)
        }
        Expr::Unary(operator, operand) => {
            put_expr(rest, alloc, operand.get())?;
            rest.put_sign(operator.what, operator.at)
        }
        Expr::Cast(ty, operand) => {
            put_expr(rest, alloc, operand.get())?;
            rest.put_sign(Mark::CloseParen, ty.close)?;
            put_type(rest, ty.item.what, ty.item.at)?;
            rest.put_sign(Mark::OpenParen, ty.open)
        }
        Expr::Chain(first, links) => {
            put_links(rest, alloc, links.as_slice())?;
            put_expr(rest, alloc, first.get())
        }
        Expr::Conditional(condition, question, yes, colon, no) => {
            put_expr(rest, alloc, no.get())?;
            rest.put_sign(Mark::Colon, *colon)?;
            put_expr(rest, alloc, yes.get())?;
            rest.put_sign(Mark::Question, *question)?;
            put_expr(rest, alloc, condition.get())
        }
    }
}

#[cycle(expr)]
fn put_links(rest: &mut Rest, alloc: Global, links: &[Link<Boxed<Expr>>]) -> Result<(), NoMemory>
    ensures { OnOk result (rest.new ≡ spell_links (links_view links.now) rest.old) }
{
    'links: for i in (0..links.len()).rev() {
        let link = &links[i];
        put_expr(rest, alloc, link.right.get())?;
        rest.put_sign(link.operator.what, link.operator.at)?;
    }
    Ok(())
}

#[cycle(expr)]
pub fn put_subscripts(
    rest: &mut Rest,
    alloc: Global,
    xs: &[Inside<Boxed<Expr>>],
) -> Result<(), NoMemory>
    ensures { OnOk result (rest.new ≡ spell_subscripts (subscripts_view xs.now) rest.old) }
{
    'subscripts: for i in (0..xs.len()).rev() {
        let x = &xs[i];
        rest.put_sign(Mark::CloseBracket, x.close)?;
        put_expr(rest, alloc, x.item.get())?;
        rest.put_sign(Mark::OpenBracket, x.open)?;
    }
    Ok(())
}

#[cycle(expr)]
pub fn put_image(
    rest: &mut Rest,
    alloc: Global,
    image: &Option<Image<Boxed<Expr>>>,
) -> Result<(), NoMemory>
    ensures { OnOk result (rest.new ≡ spell_image (image_view image.now) rest.old) }
{
    match image {
        Some(image) => {
            rest.put_sign(Mark::CloseBracket, image.number.close)?;
            put_expr(rest, alloc, image.number.item.get())?;
            rest.put_sign(Mark::OpenBracket, image.number.open)?;
            rest.put_sign(Mark::Colon, image.colon)
        }
        None => Ok(()),
    }
}

#[cycle(expr)]
pub fn put_arguments(
    rest: &mut Rest,
    alloc: Global,
    list: &Option<CommaList<Boxed<Expr>>>,
) -> Result<(), NoMemory>
    ensures { OnOk result (rest.new ≡ spell_arguments (arguments_view list.now) rest.old) }
{
    match list {
        Some(list) => {
            let more = list.more.as_slice();
            'more: for i in (0..more.len()).rev() {
                let x = &more[i];
                put_expr(rest, alloc, x.item.get())?;
                rest.put_sign(Mark::Comma, x.comma)?;
            }
            put_expr(rest, alloc, list.first.get())
        }
        None => Ok(()),
    }
}

pub fn put_reference(
    rest: &mut Rest,
    alloc: Global,
    x: &Reference<Boxed<Expr>>,
) -> Result<(), NoMemory>
    ensures { OnOk result (rest.new ≡ spell_ref (ref_view x.now) rest.old) }
{
    put_image(rest, alloc, &x.image)?;
    put_subscripts(rest, alloc, x.subscripts.as_slice())?;
    put_name(rest, alloc, &x.name)
}
