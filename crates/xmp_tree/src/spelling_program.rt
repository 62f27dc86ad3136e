// The tokens of programs.
ghost use Rattle.std.specs.Prelude.{◌≡◌, IfOk, OnOk, map};
ghost use Rattle.xmp_syntax.specs.Spell.{body, each, function, optional, parameter, parameters, spelling, tokens, top_item};

use crate::rest::Rest;
use crate::spelling::put_name;
use crate::spelling_lines::{put_declaration, put_mapping, put_type_words};
use crate::spelling_lists::{Spelled, put_list};
use crate::spelling_statements::put_body;
use std::alloc::Global;
use xmp_base::NoMemory;
use xmp_lex::{Mark, Reserved, TokenKind};
use xmp_syntax::{Function, Inside, Name, Parameters, TopItem, Tree, TypeWords};

fn put_parameter(rest: &mut Rest, alloc: Global, x: &(TypeWords, Name)) -> Result<(), NoMemory>
    ensures { OnOk result (rest.new ≡ parameter x.now rest.old) }
{
    put_name(rest, alloc, &x.1)?;
    put_type_words(rest, x.0)
}

/// Parameters of a function.
struct ParameterKind;

impl Spelled for ParameterKind {
    type Made = (TypeWords, Name);

    ghost text = { parameter };

    fn put(rest: &mut Rest, alloc: Global, x: &(TypeWords, Name)) -> Result<(), NoMemory> {
        put_parameter(rest, alloc, x)
    }
}

fn put_parameters(rest: &mut Rest, alloc: Global, x: &Option<Parameters>) -> Result<(), NoMemory>
    ensures { OnOk result (rest.new ≡ optional parameters x.now rest.old) }
{
    match x {
        Some(Parameters::Void(place)) => rest.put_word(Reserved::Void, *place),
        Some(Parameters::Named(list)) => put_list::<ParameterKind>(rest, alloc, list),
        None => Ok(()),
    }
}

fn put_function(rest: &mut Rest, alloc: Global, x: &Function) -> Result<(), NoMemory>
    ensures { OnOk result (rest.new ≡ function x.now rest.old) }
{
    rest.put_sign(Mark::CloseBrace, x.body.close)?;
    put_body(rest, alloc, x.body.item.as_slice())?;
    rest.put_sign(Mark::OpenBrace, x.body.open)?;
    rest.put_sign(Mark::CloseParen, x.parameters.close)?;
    put_parameters(rest, alloc, &x.parameters.item)?;
    rest.put_sign(Mark::OpenParen, x.parameters.open)?;
    put_name(rest, alloc, &x.name)?;
    put_type_words(rest, x.ty)
}

fn put_top_item(rest: &mut Rest, alloc: Global, x: &TopItem) -> Result<(), NoMemory>
    ensures { OnOk result (rest.new ≡ top_item x.now rest.old) }
{
    match x {
        TopItem::Mapping(x) => put_mapping(rest, alloc, x),
        TopItem::Declaration(x) => put_declaration(rest, alloc, x),
        TopItem::Function(x) => put_function(rest, alloc, x),
    }
}

fn put_top_items(rest: &mut Rest, alloc: Global, xs: &[TopItem]) -> Result<(), NoMemory>
    ensures { OnOk result (rest.new ≡ each top_item xs.now rest.old) }
{
    'items: for i in (0..xs.len()).rev() {
        put_top_item(rest, alloc, &xs[i])?;
    }
    Ok(())
}

fn put_program(alloc: Global, x: &Tree) -> Result<Rest, NoMemory>
    ensures { IfOk result (λ rest. rest ≡ tokens x.now) }
{
    let mut rest = Rest::new(alloc);
    rest.put(TokenKind::Finish, x.finish)?;
    put_top_items(&mut rest, alloc, x.parts.as_slice())?;
    Ok(rest)
}

/// The kinds of a program's tokens in order.
///
/// Time and memory grow with their number; recursion is as deep as the tree.
pub fn tokens_of(alloc: Global, tree: &Tree) -> Result<Vec<TokenKind>, NoMemory>
    ensures { IfOk result (λ kinds. kinds.items ≡ spelling tree.now) }
{
    let mut rest = put_program(alloc, tree)?;
    let mut kinds = Vec::new(alloc);
    'kinds: while let Some(token) = rest.take() {
        kinds.push(token.kind).map_err(|_| NoMemory)?;
    }
    Ok(kinds)
}
