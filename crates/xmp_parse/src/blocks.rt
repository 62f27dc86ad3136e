// Statements, blocks, and the directives that hold statements.
ghost use Rattle.std.specs.Prelude.{◌≡◌, ◌≤◌, ◌<◌, ◌∷◌, IfOk, length, not};
ghost use Rattle.xmp_lex.specs.declared.token.Mark.TheVariants as m;
ghost use Rattle.xmp_lex.specs.declared.token.TokenKind.TheVariants as t;
ghost use Rattle.xmp_lex.specs.declared.token.Reserved.TheVariants as w;
ghost use Rattle.xmp_syntax.specs.Parts as p;
ghost use Rattle.xmp_syntax.specs.Reading.{part, many, tok, plain, ◌·◌};
ghost use Rattle.xmp_syntax.specs.Grammar as g;
ghost use Rattle.xmp_syntax.specs.Spell as sp;
ghost use Rattle.xmp_syntax.specs.Spell.{◌at◌};
ghost use Rattle.xmp_syntax.specs.Fits as f;
ghost use Rattle.xmp_syntax.specs.View.{stmt_view, items_view, tasks_view};
ghost use Rattle.xmp_reader.specs.Going.{Parses};
ghost use Rattle.xmp_line_reader.specs.Lines.{part_of_directive, part_of_mapping, IsPlainWord};
ghost use Rattle.xmp_parse.specs.Blocks.{spell_item, FitsItem, Directs, Holds, LeavesElse};

use crate::declarations::declaration;
use crate::for_heads::{condition, for_head};
use crate::plain_statements::plain;
use sqlite_items::{Boxed, Items};
use std::alloc::{AllocError, Global};
use xmp_base::Place;
use xmp_lex::{Mark, Reserved};
use xmp_line_reader::{
    DirectiveWord, MappingWord, directive_word, loop_line, mapping_line, mapping_word, plain_line,
    task_line, tasks_line,
};
use xmp_reader::{Depth, Effect, Parsed, Reader};
use xmp_syntax::{BlockItem, Expr, ForHead, Inside, Stmt, TaskLine};

/// A statement, or a directive.
#[cycle(statement)]
#[tactic(auto, using(crate::proofs::BlockViews::view_plain, crate::proofs::BlockViews::view_block, crate::proofs::BlockViews::view_for))]
fn statement(alloc: Global, r: Reader<'_>) -> Parsed<'_, Stmt>
    ensures goes { Parses (part p.statement) r.entry result }
    ensures reads { IfOk result (λ x. r.entry.tokens.now ≡ sp.spell_stmt (stmt_view x.0) x.1.tokens.now) }
    ensures fits { IfOk result (λ x. f.FitsStmt (stmt_view x.0)) }
    ensures no_else { IfOk result (λ x. LeavesElse (stmt_view x.0) x.1.tokens.now) }
    ensures shorter { IfOk result (λ x. length x.1.tokens.now < length r.entry.tokens.now) }
{
    if r.is_mark(Mark::OpenBrace) {
        let (block, r) = block(alloc, r)?;
        return Ok((Stmt::Block(block), r));
    }
    if r.is_word(Reserved::If) {
        return if_statement(alloc, r);
    }
    if r.is_word(Reserved::While) {
        return while_statement(alloc, r);
    }
    if r.is_word(Reserved::For) {
        let (parts, r) = for_statement(alloc, r)?;
        return Ok((Stmt::For(parts.0, parts.1), r));
    }
    if r.is_pragma() {
        let (start, r) = r.pragma()?;
        return directive(alloc, start, r);
    }
    let (statement, r) = plain(alloc, r)?;
    Ok((Stmt::Plain(statement), r))
}

fn boxed(alloc: Global, item: BlockItem<Stmt>) -> Result<BlockItem<Boxed<Stmt>>, AllocError>
    ensures { IfOk result (λ x. x ≡ item) }
{
    match item {
        BlockItem::Mapping(mapping) => Ok(BlockItem::Mapping(mapping)),
        BlockItem::Declaration(declaration) => Ok(BlockItem::Declaration(declaration)),
        BlockItem::Stmt(statement) => Ok(BlockItem::Stmt(Boxed::new(alloc, statement)?)),
    }
}

/// The statements, declarations and mappings between braces.
#[cycle(statement)]
fn block(alloc: Global, r: Reader<'_>) -> Parsed<'_, Inside<Items<BlockItem<Boxed<Stmt>>>>>
    ensures goes { Parses (g.rule p.block) r.entry result }
    ensures reads { IfOk result (λ x. r.entry.tokens.now ≡ sp.body x.0 x.1.tokens.now) }
    ensures fits { IfOk result (λ x. f.FitsItems (items_view x.0.item)) }
    ensures shorter { IfOk result (λ x. length x.1.tokens.now < length r.entry.tokens.now) }
{
    let outer = r.depth;
    let (open, r) = r.mark(Mark::OpenBrace, Effect::Opening)?;
    let (item, r) = block_items(alloc, r)?;
    let (close, r) = r.mark(Mark::CloseBrace, Effect::Closing(outer))?;
    Ok((Inside { open, item, close }, r))
}

#[cycle(statement)]
fn block_items(alloc: Global, r: Reader<'_>) -> Parsed<'_, Items<BlockItem<Boxed<Stmt>>>>
    ensures goes { Parses (many (λ k. not (g.is_mark m.CloseBrace k)) (part p.block_item)) r.entry result }
    ensures reads { IfOk result (λ x. r.entry.tokens.now ≡ sp.spell_items (items_view x.0) x.1.tokens.now) }
    ensures fits { IfOk result (λ x. f.FitsItems (items_view x.0)) }
    ensures shorter { IfOk result (λ x. length x.1.tokens.now ≤ length r.entry.tokens.now) }
{
    let mut items = Items::new(alloc);
    let mut rest = r;
    while !rest.is_mark(Mark::CloseBrace) {
        let (item, r) = block_item(alloc, rest)?;
        items.push(boxed(alloc, item)?)?;
        rest = r;
    }
    Ok((items, rest))
}

/// A statement, a declaration or a mapping in a block.
#[cycle(statement)]
pub fn block_item(alloc: Global, r: Reader<'_>) -> Parsed<'_, BlockItem<Stmt>>
    ensures goes { Parses (part p.block_item) r.entry result }
    ensures reads { IfOk result (λ x. r.entry.tokens.now ≡ spell_item x.0 x.1.tokens.now) }
    ensures fits { IfOk result (λ x. FitsItem x.0) }
    ensures shorter { IfOk result (λ x. length x.1.tokens.now < length r.entry.tokens.now) }
{
    if r.is_type() {
        let (declaration, r) = declaration(alloc, r)?;
        return Ok((BlockItem::Declaration(declaration), r));
    }
    if r.is_pragma() {
        return line_in_block(alloc, r);
    }
    let (statement, r) = statement(alloc, r)?;
    Ok((BlockItem::Stmt(statement), r))
}

/// The line of a mapping, or a directive.
#[cycle(statement)]
fn line_in_block(alloc: Global, r: Reader<'_>) -> Parsed<'_, BlockItem<Stmt>>
    ensures goes { Parses (g.rule p.line_in_block) r.entry result }
    ensures reads { IfOk result (λ x. r.entry.tokens.now ≡ spell_item x.0 x.1.tokens.now) }
    ensures fits { IfOk result (λ x. FitsItem x.0) }
    ensures shorter { IfOk result (λ x. length x.1.tokens.now < length r.entry.tokens.now) }
{
    let (start, r) = r.pragma()?;
    match mapping_word(r) {
        Some(word) => mapping_item(alloc, word, start, r),
        None => directive_item(alloc, start, r),
    }
}

fn mapping_item(
    alloc: Global,
    word: MappingWord,
    start: Place,
    r: Reader<'_>,
) -> Parsed<'_, BlockItem<Stmt>>
    ensures goes { Parses (g.rule (part_of_mapping word)) r.entry result }
    ensures reads { IfOk result (λ x. (t.Pragma at start) ∷ r.entry.tokens.now ≡ spell_item x.0 x.1.tokens.now) }
    ensures fits { IfOk result (λ x. FitsItem x.0) }
    ensures shorter { IfOk result (λ x. length x.1.tokens.now < length r.entry.tokens.now) }
{
    let (mapping, r) = mapping_line(alloc, word, start, r)?;
    Ok((BlockItem::Mapping(mapping), r))
}

#[cycle(statement)]
fn directive_item(alloc: Global, start: Place, r: Reader<'_>) -> Parsed<'_, BlockItem<Stmt>>
    ensures goes { Directs r.entry result }
    ensures reads { IfOk result (λ x. (t.Pragma at start) ∷ r.entry.tokens.now ≡ spell_item x.0 x.1.tokens.now) }
    ensures fits { IfOk result (λ x. FitsItem x.0) }
    ensures shorter { IfOk result (λ x. length x.1.tokens.now < length r.entry.tokens.now) }
{
    let (statement, r) = directive(alloc, start, r)?;
    Ok((BlockItem::Stmt(statement), r))
}

/// The statement that a counted statement holds, whose depth is left behind it.
#[cycle(statement)]
fn held(alloc: Global, outer: Depth, r: Reader<'_>) -> Parsed<'_, Boxed<Stmt>>
    ensures goes { Holds outer r.entry result }
    ensures reads { IfOk result (λ x. r.entry.tokens.now ≡ sp.spell_stmt (stmt_view x.0) x.1.tokens.now) }
    ensures fits { IfOk result (λ x. f.FitsStmt (stmt_view x.0)) }
    ensures no_else { IfOk result (λ x. LeavesElse (stmt_view x.0) x.1.tokens.now) }
    ensures shorter { IfOk result (λ x. length x.1.tokens.now < length r.entry.tokens.now) }
{
    let (body, r) = statement(alloc, r)?;
    let body = Boxed::new(alloc, body)?;
    Ok((body, r.leaving(outer)))
}

/// An `else` belongs to the nearest `if`.
#[cycle(statement)]
#[tactic(auto, using(crate::proofs::BlockViews::view_if, crate::proofs::BlockViews::view_else))]
fn if_statement(alloc: Global, r: Reader<'_>) -> Parsed<'_, Stmt>
    ensures goes { Parses (g.rule p.if_statement) r.entry result }
    ensures reads { IfOk result (λ x. r.entry.tokens.now ≡ sp.spell_stmt (stmt_view x.0) x.1.tokens.now) }
    ensures fits { IfOk result (λ x. f.FitsStmt (stmt_view x.0)) }
    ensures no_else { IfOk result (λ x. LeavesElse (stmt_view x.0) x.1.tokens.now) }
    ensures shorter { IfOk result (λ x. length x.1.tokens.now < length r.entry.tokens.now) }
{
    let outer = r.depth;
    let (head, r) = condition(alloc, Reserved::If, r)?;
    match held(alloc, outer, r) {
        Ok((yes, r)) => if_behind(alloc, head, yes, r),
        Err(stop) => {
            drop(head);
            Err(stop)
        }
    }
}

/// An `if` with its condition and its first statement, and the `else` behind them, where one stands there.
#[cycle(statement)]
#[tactic(auto, using(crate::proofs::BlockViews::view_if, crate::proofs::BlockViews::view_else))]
fn if_behind(
    alloc: Global,
    head: (Place, Inside<Expr>),
    yes: Boxed<Stmt>,
    r: Reader<'_>,
) -> Parsed<'_, Stmt>
    requires condition { f.FitsExpr head.1.item }
    requires fits { f.FitsStmt (stmt_view yes) }
    requires no_else { LeavesElse (stmt_view yes) r.tokens.now }
    ensures goes { Parses (g.optional (g.is_word w.Else) (g.counted (g.word w.Else · part p.statement))) r.entry result }
    ensures reads { IfOk result (λ x. sp.word w.If head.0 (sp.in_parens sp.expr head.1 (sp.spell_stmt (stmt_view yes) r.entry.tokens.now)) ≡ sp.spell_stmt (stmt_view x.0) x.1.tokens.now) }
    ensures fits { IfOk result (λ x. f.FitsStmt (stmt_view x.0)) }
    ensures no_else { IfOk result (λ x. LeavesElse (stmt_view x.0) x.1.tokens.now) }
    ensures shorter { IfOk result (λ x. length x.1.tokens.now ≤ length r.entry.tokens.now) }
{
    if !r.is_word(Reserved::Else) {
        return Ok((Stmt::If(head.0, head.1, yes, None), r));
    }
    match else_part(alloc, r) {
        Ok((no, r)) => Ok((Stmt::If(head.0, head.1, yes, Some(no)), r)),
        Err(stop) => {
            drop(head);
            drop(yes);
            Err(stop)
        }
    }
}

/// `else`, and its statement.
#[cycle(statement)]
fn else_part(alloc: Global, r: Reader<'_>) -> Parsed<'_, (Place, Boxed<Stmt>)>
    ensures goes { Parses (g.counted (g.word w.Else · part p.statement)) r.entry result }
    ensures reads { IfOk result (λ x. r.entry.tokens.now ≡ sp.word w.Else x.0.0 (sp.spell_stmt (stmt_view x.0.1) x.1.tokens.now)) }
    ensures fits { IfOk result (λ x. f.FitsStmt (stmt_view x.0.1)) }
    ensures no_else { IfOk result (λ x. LeavesElse (stmt_view x.0.1) x.1.tokens.now) }
    ensures shorter { IfOk result (λ x. length x.1.tokens.now < length r.entry.tokens.now) }
{
    let outer = r.depth;
    let (mark, r) = r.word(Reserved::Else, Effect::Entering)?;
    let (no, r) = held(alloc, outer, r)?;
    Ok(((mark, no), r))
}

#[cycle(statement)]
#[tactic(auto, using(crate::proofs::BlockViews::view_while))]
fn while_statement(alloc: Global, r: Reader<'_>) -> Parsed<'_, Stmt>
    ensures goes { Parses (g.rule p.while_statement) r.entry result }
    ensures reads { IfOk result (λ x. r.entry.tokens.now ≡ sp.spell_stmt (stmt_view x.0) x.1.tokens.now) }
    ensures fits { IfOk result (λ x. f.FitsStmt (stmt_view x.0)) }
    ensures no_else { IfOk result (λ x. LeavesElse (stmt_view x.0) x.1.tokens.now) }
    ensures shorter { IfOk result (λ x. length x.1.tokens.now < length r.entry.tokens.now) }
{
    let outer = r.depth;
    let (head, r) = condition(alloc, Reserved::While, r)?;
    match held(alloc, outer, r) {
        Ok((body, r)) => Ok((Stmt::While(head.0, head.1, body), r)),
        Err(stop) => {
            drop(head);
            Err(stop)
        }
    }
}

/// The head of a `for`, and its statement.
#[cycle(statement)]
fn for_statement(alloc: Global, r: Reader<'_>) -> Parsed<'_, (ForHead, Boxed<Stmt>)>
    ensures goes { Parses (g.rule p.for_statement) r.entry result }
    ensures reads { IfOk result (λ x. r.entry.tokens.now ≡ sp.for_head x.0.0 (sp.spell_stmt (stmt_view x.0.1) x.1.tokens.now)) }
    ensures fits { IfOk result (λ x. f.FitsHead x.0.0 × f.FitsStmt (stmt_view x.0.1)) }
    ensures no_else { IfOk result (λ x. LeavesElse (stmt_view x.0.1) x.1.tokens.now) }
    ensures shorter { IfOk result (λ x. length x.1.tokens.now < length r.entry.tokens.now) }
{
    let outer = r.depth;
    let (head, r) = for_head(alloc, r)?;
    match held(alloc, outer, r) {
        Ok((body, r)) => Ok(((head, body), r)),
        Err(stop) => {
            drop(head);
            Err(stop)
        }
    }
}

/// A directive, from its word on.
#[cycle(statement)]
fn directive(alloc: Global, start: Place, r: Reader<'_>) -> Parsed<'_, Stmt>
    ensures goes { Directs r.entry result }
    ensures reads { IfOk result (λ x. (t.Pragma at start) ∷ r.entry.tokens.now ≡ sp.spell_stmt (stmt_view x.0) x.1.tokens.now) }
    ensures fits { IfOk result (λ x. f.FitsStmt (stmt_view x.0)) }
    ensures no_else { IfOk result (λ x. LeavesElse (stmt_view x.0) x.1.tokens.now) }
    ensures shorter { IfOk result (λ x. length x.1.tokens.now < length r.entry.tokens.now) }
{
    match directive_word(r) {
        Some(word) => directive_line(alloc, word, start, r),
        None => Err(r.unexpected()),
    }
}

/// The directive of a word.
#[cycle(statement)]
fn directive_line(
    alloc: Global,
    word: DirectiveWord,
    start: Place,
    r: Reader<'_>,
) -> Parsed<'_, Stmt>
    ensures goes { Parses (g.rule (part_of_directive word)) r.entry result }
    ensures reads { IfOk result (λ x. (t.Pragma at start) ∷ r.entry.tokens.now ≡ sp.spell_stmt (stmt_view x.0) x.1.tokens.now) }
    ensures fits { IfOk result (λ x. f.FitsStmt (stmt_view x.0)) }
    ensures no_else { IfOk result (λ x. LeavesElse (stmt_view x.0) x.1.tokens.now) }
    ensures shorter { IfOk result (λ x. length x.1.tokens.now < length r.entry.tokens.now) }
{
    match word {
        DirectiveWord::Loop => loop_directive(alloc, start, r),
        DirectiveWord::Task => task_statement(alloc, start, r),
        DirectiveWord::Tasks => tasks(alloc, start, r),
        DirectiveWord::Reflect => plain_directive(alloc, DirectiveWord::Reflect, start, r),
        DirectiveWord::Barrier => plain_directive(alloc, DirectiveWord::Barrier, start, r),
        DirectiveWord::Bcast => plain_directive(alloc, DirectiveWord::Bcast, start, r),
        DirectiveWord::Gmove => plain_directive(alloc, DirectiveWord::Gmove, start, r),
    }
}

/// A directive that holds no statement, from its word on.
#[tactic(auto, using(crate::proofs::BlockViews::view_plain))]
fn plain_directive(
    alloc: Global,
    word: DirectiveWord,
    start: Place,
    r: Reader<'_>,
) -> Parsed<'_, Stmt>
    ensures goes { IsPlainWord word → Parses (g.rule (part_of_directive word)) r.entry result }
    ensures reads { IfOk result (λ x. (t.Pragma at start) ∷ r.entry.tokens.now ≡ sp.spell_stmt (stmt_view x.0) x.1.tokens.now) }
    ensures fits { IfOk result (λ x. f.FitsStmt (stmt_view x.0)) }
    ensures no_else { IfOk result (λ x. LeavesElse (stmt_view x.0) x.1.tokens.now) }
    ensures shorter { IfOk result (λ x. length x.1.tokens.now < length r.entry.tokens.now) }
{
    let (line, r) = plain_line(alloc, word, start, r)?;
    Ok((Stmt::Plain(line), r))
}

#[cycle(statement)]
#[tactic(auto, using(crate::proofs::BlockViews::view_task))]
fn task_statement(alloc: Global, start: Place, r: Reader<'_>) -> Parsed<'_, Stmt>
    ensures goes { Parses (g.rule p.task) r.entry result }
    ensures reads { IfOk result (λ x. (t.Pragma at start) ∷ r.entry.tokens.now ≡ sp.spell_stmt (stmt_view x.0) x.1.tokens.now) }
    ensures fits { IfOk result (λ x. f.FitsStmt (stmt_view x.0)) }
    ensures no_else { IfOk result (λ x. LeavesElse (stmt_view x.0) x.1.tokens.now) }
    ensures shorter { IfOk result (λ x. length x.1.tokens.now < length r.entry.tokens.now) }
{
    let (task, r) = task(alloc, start, r)?;
    Ok((Stmt::Task(task.0, task.1), r))
}

#[cycle(statement)]
#[tactic(auto, using(crate::proofs::BlockViews::view_loop))]
fn loop_directive(alloc: Global, start: Place, r: Reader<'_>) -> Parsed<'_, Stmt>
    ensures goes { Parses (g.rule p.loop) r.entry result }
    ensures reads { IfOk result (λ x. (t.Pragma at start) ∷ r.entry.tokens.now ≡ sp.spell_stmt (stmt_view x.0) x.1.tokens.now) }
    ensures fits { IfOk result (λ x. f.FitsStmt (stmt_view x.0)) }
    ensures no_else { IfOk result (λ x. LeavesElse (stmt_view x.0) x.1.tokens.now) }
    ensures shorter { IfOk result (λ x. length x.1.tokens.now < length r.entry.tokens.now) }
{
    let outer = r.depth;
    let (line, r) = loop_line(alloc, start, r)?;
    let (held, r) = for_statement(alloc, r)?;
    Ok((Stmt::Loop(line, held.0, held.1), r.leaving(outer)))
}

/// The line of a task, and its statement.
#[cycle(statement)]
fn task(alloc: Global, start: Place, r: Reader<'_>) -> Parsed<'_, (TaskLine, Boxed<Stmt>)>
    ensures goes { Parses (g.rule p.task) r.entry result }
    ensures reads { IfOk result (λ x. (t.Pragma at start) ∷ r.entry.tokens.now ≡ sp.task_line x.0.0 (sp.spell_stmt (stmt_view x.0.1) x.1.tokens.now)) }
    ensures fits { IfOk result (λ x. f.FitsSet x.0.0.set × f.FitsStmt (stmt_view x.0.1)) }
    ensures no_else { IfOk result (λ x. LeavesElse (stmt_view x.0.1) x.1.tokens.now) }
    ensures shorter { IfOk result (λ x. length x.1.tokens.now < length r.entry.tokens.now) }
{
    let outer = r.depth;
    let (line, r) = task_line(alloc, start, r)?;
    let (body, r) = held(alloc, outer, r)?;
    Ok(((line, body), r))
}

#[cycle(statement)]
#[tactic(auto, using(crate::proofs::BlockViews::view_tasks))]
fn tasks(alloc: Global, start: Place, r: Reader<'_>) -> Parsed<'_, Stmt>
    ensures goes { Parses (g.rule p.tasks) r.entry result }
    ensures reads { IfOk result (λ x. (t.Pragma at start) ∷ r.entry.tokens.now ≡ sp.spell_stmt (stmt_view x.0) x.1.tokens.now) }
    ensures fits { IfOk result (λ x. f.FitsStmt (stmt_view x.0)) }
    ensures no_else { IfOk result (λ x. LeavesElse (stmt_view x.0) x.1.tokens.now) }
    ensures shorter { IfOk result (λ x. length x.1.tokens.now < length r.entry.tokens.now) }
{
    let outer = r.depth;
    let (line, r) = tasks_line(start, r)?;
    let (tasks, r) = tasks_block(alloc, r)?;
    Ok((Stmt::Tasks(line, tasks), r.leaving(outer)))
}

/// Tasks in braces.
#[cycle(statement)]
fn tasks_block(alloc: Global, r: Reader<'_>) -> Parsed<'_, Inside<Items<(TaskLine, Boxed<Stmt>)>>>
    ensures goes { Parses (g.braces (many g.is_pragma (tok plain g.is_pragma · part p.task))) r.entry result }
    ensures reads { IfOk result (λ x. r.entry.tokens.now ≡ sp.in_braces (λ xs z. sp.spell_tasks (tasks_view xs) z) x.0 x.1.tokens.now) }
    ensures fits { IfOk result (λ x. f.FitsTasks (tasks_view x.0.item)) }
    ensures shorter { IfOk result (λ x. length x.1.tokens.now < length r.entry.tokens.now) }
{
    let outer = r.depth;
    let (open, r) = r.mark(Mark::OpenBrace, Effect::Opening)?;
    let (item, r) = task_items(alloc, r)?;
    let (close, r) = r.mark(Mark::CloseBrace, Effect::Closing(outer))?;
    Ok((Inside { open, item, close }, r))
}

#[cycle(statement)]
fn task_items(alloc: Global, r: Reader<'_>) -> Parsed<'_, Items<(TaskLine, Boxed<Stmt>)>>
    ensures goes { Parses (many g.is_pragma (tok plain g.is_pragma · part p.task)) r.entry result }
    ensures reads { IfOk result (λ x. r.entry.tokens.now ≡ sp.spell_tasks (tasks_view x.0) x.1.tokens.now) }
    ensures fits { IfOk result (λ x. f.FitsTasks (tasks_view x.0)) }
    ensures shorter { IfOk result (λ x. length x.1.tokens.now ≤ length r.entry.tokens.now) }
{
    let mut items = Items::new(alloc);
    let mut rest = r;
    while rest.is_pragma() {
        let (start, r) = rest.pragma()?;
        let (item, r) = task(alloc, start, r)?;
        items.push(item)?;
        rest = r;
    }
    Ok((items, rest))
}
