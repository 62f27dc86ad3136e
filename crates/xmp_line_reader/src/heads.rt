// The lines of directives that hold a statement.
ghost use Rattle.std.specs.Prelude.{◌≡◌, ◌≤◌, ◌<◌, ⊤, List, [], IfOk, ◌∷◌, length, codes};
ghost use Rattle.xmp_lex.specs.declared.token.Mark.TheVariants as m;
ghost use Rattle.xmp_lex.specs.declared.token.TokenKind.TheVariants as t;
ghost use Rattle.xmp_syntax.specs.Parts as p;
ghost use Rattle.xmp_syntax.specs.Reading.{part, many, tok, plain, ◌·◌};
ghost use Rattle.xmp_syntax.specs.Grammar as g;
ghost use Rattle.xmp_syntax.specs.Spell as sp;
ghost use Rattle.xmp_syntax.specs.Spell.{◌at◌};
ghost use Rattle.xmp_syntax.specs.Fits as f;
ghost use Rattle.xmp_reader.specs.Going.{Parses};
ghost use Rattle.xmp_line_reader.specs.Lines.{Heads, ReadsBefore};

use crate::lines::{reductions, set};
use crate::mappings::template_points;
use sqlite_items::Items;
use std::alloc::Global;
use xmp_base::Place;
use xmp_lex::Mark;
use xmp_reader::{Effect, NameLists, Parsed, Reader, in_parens};
use xmp_syntax::{CommaList, DirectiveLine, Inside, LoopLine, Name, Reduction, TaskLine};

/// The names of a loop directive, where there are some.
fn loop_names(alloc: Global, r: Reader<'_>) -> Parsed<'_, Option<Inside<CommaList<Name>>>>
    ensures goes { Parses (g.optional (g.is_mark m.OpenParen) (g.parens (part p.names))) r.entry result }
    ensures reads { IfOk result (λ x. r.entry.tokens.now ≡ sp.optional (sp.in_parens sp.names) x.0 x.1.tokens.now) }
    ensures shorter { IfOk result (λ x. length x.1.tokens.now ≤ length r.entry.tokens.now) }
{
    if !r.is_mark(Mark::OpenParen) {
        return Ok((None, r));
    }
    let (list, r) = in_parens::<NameLists>(alloc, r)?;
    Ok((Some(list), r))
}

/// The reductions of a loop directive, and the end of its line.
fn reductions_end(alloc: Global, r: Reader<'_>) -> Parsed<'_, (Items<Reduction>, Place)>
    ensures goes { ReadsBefore (λ N. many (g.is_spelled (codes "reduction")) (part p.reduction) · g.line_end · N) r.entry result }
    ensures reads { IfOk result (λ x. r.entry.tokens.now ≡ sp.each sp.reduction x.0.0 ((t.Close at x.0.1) ∷ x.1.tokens.now)) }
    ensures fits { IfOk result (λ x. f.Each f.FitsReduction x.0.0) }
    ensures shorter { IfOk result (λ x. length x.1.tokens.now < length r.entry.tokens.now) }
{
    let (reductions, r) = reductions(alloc, r)?;
    let (end, r) = r.line_end()?;
    Ok(((reductions, end), r))
}

/// The line of a loop directive, from its word on.
pub fn loop_line(alloc: Global, start: Place, r: Reader<'_>) -> Parsed<'_, LoopLine>
    ensures goes { Heads p.loop (part p.for_statement) r.entry result }
    ensures reads { IfOk result (λ x. (t.Pragma at start) ∷ r.entry.tokens.now ≡ sp.loop_line x.0 x.1.tokens.now) }
    ensures fits { IfOk result (λ x. f.FitsLoopLine x.0) }
    ensures shorter { IfOk result (λ x. length x.1.tokens.now < length r.entry.tokens.now) }
{
    let (word, r) = r.spelled(b"loop", Effect::Entering)?;
    let (names, r) = loop_names(alloc, r)?;
    let (on, r) = template_points(alloc, b"on", r)?;
    let (last, r) = reductions_end(alloc, r)?;
    let line = DirectiveLine {
        start,
        word,
        end: last.1,
    };
    let made = LoopLine {
        line,
        names,
        on: on.0,
        template: on.1,
        points: on.2,
        reductions: last.0,
    };
    Ok((made, r))
}

/// The line of a task directive, from its word on.
pub fn task_line(alloc: Global, start: Place, r: Reader<'_>) -> Parsed<'_, TaskLine>
    ensures goes { Heads p.task (part p.statement) r.entry result }
    ensures reads { IfOk result (λ x. (t.Pragma at start) ∷ r.entry.tokens.now ≡ sp.task_line x.0 x.1.tokens.now) }
    ensures fits { IfOk result (λ x. f.FitsSet x.0.set) }
    ensures shorter { IfOk result (λ x. length x.1.tokens.now < length r.entry.tokens.now) }
{
    let (word, r) = r.spelled(b"task", Effect::Entering)?;
    let (on, r) = r.spelled(b"on", Effect::Plain)?;
    let (set, r) = set(alloc, r)?;
    let (end, r) = r.line_end()?;
    let line = DirectiveLine { start, word, end };
    Ok((TaskLine { line, on, set }, r))
}

/// The line of a tasks directive, from its word on.
pub fn tasks_line(start: Place, r: Reader<'_>) -> Parsed<'_, DirectiveLine>
    ensures goes { Heads p.tasks (g.braces (many g.is_pragma (tok plain g.is_pragma · part p.task))) r.entry result }
    ensures reads { IfOk result (λ x. (t.Pragma at start) ∷ r.entry.tokens.now ≡ sp.directive_line (codes "tasks") (λ z. z) x.0 x.1.tokens.now) }
    ensures shorter { IfOk result (λ x. length x.1.tokens.now < length r.entry.tokens.now) }
{
    let (word, r) = r.spelled(b"tasks", Effect::Entering)?;
    let (end, r) = r.line_end()?;
    Ok((DirectiveLine { start, word, end }, r))
}
