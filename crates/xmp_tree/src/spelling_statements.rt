// The tokens of statements.
ghost use Rattle.std.specs.Prelude.{◌≡◌, OnOk, codes};
ghost use Rattle.xmp_syntax.specs.declared.statement.Plain.TheVariants.{Bcast, Gmove, Print, Reflect, Scan, Sync};
ghost use Rattle.xmp_syntax.specs.View.{call_view, items_view, rest_view, stmt_view, tasks_view};
ghost use Rattle.xmp_syntax.specs.Spell.{directive_line, expr, for_first, for_head, format, in_parens, optional, spell, spell_items, spell_plain, spell_rest, spell_simple, spell_stmt, spell_tasks};

use crate::rest::Rest;
use crate::spelling::{put_arguments, put_expr, put_name, put_reference};
use crate::spelling_lines::{
    put_declaration, put_end, put_loop_line, put_mapping, put_names_inside, put_sections, put_set,
    put_start, put_task_line,
};
use sqlite_items::{Boxed, Items};
use std::alloc::Global;
use xmp_base::{NoMemory, Place};
use xmp_lex::{Mark, Reserved};
use xmp_syntax::{
    BlockItem, Call, CommaList, DirectiveLine, Expr, ForFirst, ForHead, Format, Inside, Name, Next,
    NodesSet, Plain, Reference, Sections, Simple, Stmt, TaskLine,
};

fn put_call(rest: &mut Rest, alloc: Global, x: &Call<Boxed<Expr>>) -> Result<(), NoMemory>
    ensures { OnOk result (rest.new ≡ spell (call_view x.now) rest.old) }
{
    rest.put_sign(Mark::CloseParen, x.arguments.close)?;
    put_arguments(rest, alloc, &x.arguments.item)?;
    rest.put_sign(Mark::OpenParen, x.arguments.open)?;
    put_name(rest, alloc, &x.name)
}

fn put_simple(rest: &mut Rest, alloc: Global, x: &Simple) -> Result<(), NoMemory>
    ensures { OnOk result (rest.new ≡ spell_simple x.now rest.old) }
{
    match x {
        Simple::Assign(target, operator, number) => {
            put_expr(rest, alloc, number)?;
            rest.put_sign(operator.what, operator.at)?;
            put_reference(rest, alloc, target)
        }
        Simple::Postfix(target, operator) => {
            rest.put_sign(operator.what, operator.at)?;
            put_reference(rest, alloc, target)
        }
        Simple::Prefix(operator, target) => {
            put_reference(rest, alloc, target)?;
            rest.put_sign(operator.what, operator.at)
        }
        Simple::Call(call) => put_call(rest, alloc, call),
    }
}

fn put_optional_simple(rest: &mut Rest, alloc: Global, x: &Option<Simple>) -> Result<(), NoMemory>
    ensures { OnOk result (rest.new ≡ optional spell_simple x.now rest.old) }
{
    match x {
        Some(x) => put_simple(rest, alloc, x),
        None => Ok(()),
    }
}

fn put_optional_expr(rest: &mut Rest, alloc: Global, x: &Option<Expr>) -> Result<(), NoMemory>
    ensures { OnOk result (rest.new ≡ optional expr x.now rest.old) }
{
    match x {
        Some(x) => put_expr(rest, alloc, x),
        None => Ok(()),
    }
}

fn put_for_first(rest: &mut Rest, alloc: Global, x: &Option<ForFirst>) -> Result<(), NoMemory>
    ensures { OnOk result (rest.new ≡ optional for_first x.now rest.old) }
{
    match x {
        Some(ForFirst::Assign(target, place, number)) => {
            put_expr(rest, alloc, number)?;
            rest.put_sign(Mark::Assign, *place)?;
            put_reference(rest, alloc, target)
        }
        Some(ForFirst::Declare(int, name, place, number)) => {
            put_expr(rest, alloc, number)?;
            rest.put_sign(Mark::Assign, *place)?;
            put_name(rest, alloc, name)?;
            rest.put_word(Reserved::Int, *int)
        }
        None => Ok(()),
    }
}

fn put_for_head(rest: &mut Rest, alloc: Global, x: &ForHead) -> Result<(), NoMemory>
    ensures { OnOk result (rest.new ≡ for_head x.now rest.old) }
{
    rest.put_sign(Mark::CloseParen, x.close)?;
    put_optional_simple(rest, alloc, &x.next)?;
    rest.put_sign(Mark::Semicolon, x.test_end)?;
    put_optional_expr(rest, alloc, &x.test)?;
    rest.put_sign(Mark::Semicolon, x.first_end)?;
    put_for_first(rest, alloc, &x.first)?;
    rest.put_sign(Mark::OpenParen, x.open)?;
    rest.put_word(Reserved::For, x.word)
}

fn put_values(rest: &mut Rest, alloc: Global, xs: &[Next<Expr>]) -> Result<(), NoMemory>
    ensures { OnOk result (rest.new ≡ spell_rest (rest_view xs.now) rest.old) }
{
    'items: for i in (0..xs.len()).rev() {
        let x = &xs[i];
        put_expr(rest, alloc, &x.item)?;
        rest.put_sign(Mark::Comma, x.comma)?;
    }
    Ok(())
}

fn put_print_list(
    rest: &mut Rest,
    alloc: Global,
    text: &Format,
    values: &[Next<Expr>],
) -> Result<(), NoMemory>
    ensures { OnOk result (rest.new ≡ format text.now (spell_rest (rest_view values.now) rest.old)) }
{
    put_values(rest, alloc, values)?;
    rest.put_text(alloc, text.text.as_slice(), text.at)
}

fn put_print(
    rest: &mut Rest,
    alloc: Global,
    place: Place,
    list: &Inside<(Format, Items<Next<Expr>>)>,
    end: Place,
) -> Result<(), NoMemory>
    ensures { OnOk result (rest.new ≡ spell_plain (Print place list.now end) rest.old) }
{
    rest.put_sign(Mark::Semicolon, end)?;
    rest.put_sign(Mark::CloseParen, list.close)?;
    put_print_list(rest, alloc, &list.item.0, list.item.1.as_slice())?;
    rest.put_sign(Mark::OpenParen, list.open)?;
    rest.put_word(Reserved::Printf, place)
}

fn put_scan(
    rest: &mut Rest,
    alloc: Global,
    place: Place,
    list: &Inside<(Format, Place, Place, Reference<Boxed<Expr>>)>,
    end: Place,
) -> Result<(), NoMemory>
    ensures { OnOk result (rest.new ≡ spell_plain (Scan place list.now end) rest.old) }
{
    rest.put_sign(Mark::Semicolon, end)?;
    rest.put_sign(Mark::CloseParen, list.close)?;
    put_reference(rest, alloc, &list.item.3)?;
    rest.put_sign(Mark::And, list.item.2)?;
    rest.put_sign(Mark::Comma, list.item.1)?;
    rest.put_text(alloc, list.item.0.text.as_slice(), list.item.0.at)?;
    rest.put_sign(Mark::OpenParen, list.open)?;
    rest.put_word(Reserved::Scanf, place)
}

fn put_sync(
    rest: &mut Rest,
    alloc: Global,
    place: Place,
    list: &Inside<(Place, Reference<Boxed<Expr>>)>,
    end: Place,
) -> Result<(), NoMemory>
    ensures { OnOk result (rest.new ≡ spell_plain (Sync place list.now end) rest.old) }
{
    rest.put_sign(Mark::Semicolon, end)?;
    rest.put_sign(Mark::CloseParen, list.close)?;
    put_reference(rest, alloc, &list.item.1)?;
    rest.put_sign(Mark::And, list.item.0)?;
    rest.put_sign(Mark::OpenParen, list.open)?;
    rest.put_word(Reserved::SyncAll, place)
}

fn put_reflect(
    rest: &mut Rest,
    alloc: Global,
    line: DirectiveLine,
    names: &Inside<CommaList<Name>>,
) -> Result<(), NoMemory>
    ensures { OnOk result (rest.new ≡ spell_plain (Reflect line names.now) rest.old) }
{
    put_end(rest, line)?;
    put_names_inside(rest, alloc, names)?;
    put_start(rest, alloc, b"reflect", line)
}

fn put_bcast(
    rest: &mut Rest,
    alloc: Global,
    line: DirectiveLine,
    names: &Inside<CommaList<Name>>,
    from: Place,
    set: &NodesSet,
) -> Result<(), NoMemory>
    ensures { OnOk result (rest.new ≡ spell_plain (Bcast line names.now from set.now) rest.old) }
{
    put_end(rest, line)?;
    put_set(rest, alloc, set)?;
    rest.put_spelled(alloc, b"from", from)?;
    put_names_inside(rest, alloc, names)?;
    put_start(rest, alloc, b"bcast", line)
}

fn put_gmove(
    rest: &mut Rest,
    alloc: Global,
    line: DirectiveLine,
    target: &Sections,
    place: Place,
    source: &Sections,
    end: Place,
) -> Result<(), NoMemory>
    ensures { OnOk result (rest.new ≡ spell_plain (Gmove line target.now place source.now end) rest.old) }
{
    rest.put_sign(Mark::Semicolon, end)?;
    put_sections(rest, alloc, source)?;
    rest.put_sign(Mark::Assign, place)?;
    put_sections(rest, alloc, target)?;
    put_end(rest, line)?;
    put_start(rest, alloc, b"gmove", line)
}

fn put_plain(rest: &mut Rest, alloc: Global, x: &Plain) -> Result<(), NoMemory>
    ensures { OnOk result (rest.new ≡ spell_plain x.now rest.old) }
{
    match x {
        Plain::Empty(end) => rest.put_sign(Mark::Semicolon, *end),
        Plain::Simple(x, end) => {
            rest.put_sign(Mark::Semicolon, *end)?;
            put_simple(rest, alloc, x)
        }
        Plain::Return(place, number, end) => {
            rest.put_sign(Mark::Semicolon, *end)?;
            put_expr(rest, alloc, number)?;
            rest.put_word(Reserved::Return, *place)
        }
        Plain::Print(place, list, end) => put_print(rest, alloc, *place, list, *end),
        Plain::Scan(place, list, end) => put_scan(rest, alloc, *place, list, *end),
        Plain::Sync(place, list, end) => put_sync(rest, alloc, *place, list, *end),
        Plain::Reflect(line, names) => put_reflect(rest, alloc, *line, names),
        Plain::Barrier(line) => {
            put_end(rest, *line)?;
            put_start(rest, alloc, b"barrier", *line)
        }
        Plain::Bcast(line, names, from, set) => put_bcast(rest, alloc, *line, names, *from, set),
        Plain::Gmove(line, target, place, source, end) => {
            put_gmove(rest, alloc, *line, target, *place, source, *end)
        }
    }
}

fn put_tasks_line(rest: &mut Rest, alloc: Global, line: DirectiveLine) -> Result<(), NoMemory>
    ensures { OnOk result (rest.new ≡ directive_line (codes "tasks") (λ r. r) line rest.old) }
{
    put_end(rest, line)?;
    put_start(rest, alloc, b"tasks", line)
}

fn put_condition(rest: &mut Rest, alloc: Global, x: &Inside<Expr>) -> Result<(), NoMemory>
    ensures { OnOk result (rest.new ≡ in_parens expr x.now rest.old) }
{
    rest.put_sign(Mark::CloseParen, x.close)?;
    put_expr(rest, alloc, &x.item)?;
    rest.put_sign(Mark::OpenParen, x.open)
}

#[cycle(stmt)]
pub fn put_stmt(rest: &mut Rest, alloc: Global, x: &Stmt) -> Result<(), NoMemory>
    ensures { OnOk result (rest.new ≡ spell_stmt (stmt_view x.now) rest.old) }
{
    match x {
        Stmt::Plain(x) => put_plain(rest, alloc, x),
        Stmt::Block(x) => {
            rest.put_sign(Mark::CloseBrace, x.close)?;
            put_items(rest, alloc, x.item.as_slice())?;
            rest.put_sign(Mark::OpenBrace, x.open)
        }
        Stmt::If(place, condition, body, None) => {
            put_stmt(rest, alloc, body.get())?;
            put_condition(rest, alloc, condition)?;
            rest.put_word(Reserved::If, *place)
        }
        Stmt::If(place, condition, yes, Some((word, no))) => {
            put_stmt(rest, alloc, no.get())?;
            rest.put_word(Reserved::Else, *word)?;
            put_stmt(rest, alloc, yes.get())?;
            put_condition(rest, alloc, condition)?;
            rest.put_word(Reserved::If, *place)
        }
        Stmt::While(place, condition, body) => {
            put_stmt(rest, alloc, body.get())?;
            put_condition(rest, alloc, condition)?;
            rest.put_word(Reserved::While, *place)
        }
        Stmt::For(head, body) => {
            put_stmt(rest, alloc, body.get())?;
            put_for_head(rest, alloc, head)
        }
        Stmt::Loop(line, head, body) => {
            put_stmt(rest, alloc, body.get())?;
            put_for_head(rest, alloc, head)?;
            put_loop_line(rest, alloc, line)
        }
        Stmt::Task(line, body) => {
            put_stmt(rest, alloc, body.get())?;
            put_task_line(rest, alloc, line)
        }
        Stmt::Tasks(line, x) => {
            rest.put_sign(Mark::CloseBrace, x.close)?;
            put_tasks(rest, alloc, x.item.as_slice())?;
            rest.put_sign(Mark::OpenBrace, x.open)?;
            put_tasks_line(rest, alloc, *line)
        }
    }
}

#[cycle(stmt)]
fn put_items(rest: &mut Rest, alloc: Global, xs: &[BlockItem<Boxed<Stmt>>]) -> Result<(), NoMemory>
    ensures { OnOk result (rest.new ≡ spell_items (items_view xs.now) rest.old) }
{
    'items: for i in (0..xs.len()).rev() {
        match &xs[i] {
            BlockItem::Mapping(x) => put_mapping(rest, alloc, x)?,
            BlockItem::Declaration(x) => put_declaration(rest, alloc, x)?,
            BlockItem::Stmt(x) => put_stmt(rest, alloc, x.get())?,
        }
    }
    Ok(())
}

#[cycle(stmt)]
fn put_tasks(rest: &mut Rest, alloc: Global, xs: &[(TaskLine, Boxed<Stmt>)]) -> Result<(), NoMemory>
    ensures { OnOk result (rest.new ≡ spell_tasks (tasks_view xs.now) rest.old) }
{
    'tasks: for i in (0..xs.len()).rev() {
        let x = &xs[i];
        put_stmt(rest, alloc, x.1.get())?;
        put_task_line(rest, alloc, &x.0)?;
    }
    Ok(())
}

/// The items of a function's block.
pub fn put_body(rest: &mut Rest, alloc: Global, xs: &[BlockItem<Stmt>]) -> Result<(), NoMemory>
    ensures { OnOk result (rest.new ≡ spell_items (items_view xs.now) rest.old) }
{
    'items: for i in (0..xs.len()).rev() {
        match &xs[i] {
            BlockItem::Mapping(x) => put_mapping(rest, alloc, x)?,
            BlockItem::Declaration(x) => put_declaration(rest, alloc, x)?,
            BlockItem::Stmt(x) => put_stmt(rest, alloc, x)?,
        }
    }
    Ok(())
}
