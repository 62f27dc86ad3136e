// Programs.
ghost use Rattle.std.specs.Prelude.{◌≡◌, ◌≤◌, ◌<◌, ◌&&◌, IfOk, IfErr, List, [], ◌∷◌, length, true};
ghost use Rattle.xmp_lex.specs.declared.token.Token.{Token};
ghost use Rattle.xmp_lex.specs.declared.token.TokenKind.TheVariants as t;
ghost use Rattle.xmp_lex.specs.Lines.{IsFinished};
ghost use Rattle.xmp_base.specs.declared.refusal.Fault.TheVariants as fault;
ghost use Rattle.xmp_syntax.specs.declared.program.Tree.{Tree};
ghost use Rattle.xmp_syntax.specs.Parts as p;
ghost use Rattle.xmp_syntax.specs.Reading.{part, reading};
ghost use Rattle.xmp_syntax.specs.Grammar.{is_finish};
ghost use Rattle.xmp_syntax.specs.Spell as sp;
ghost use Rattle.xmp_syntax.specs.Spell.{◌at◌};
ghost use Rattle.xmp_syntax.specs.Fits as f;
ghost use Rattle.xmp_syntax.specs.Refused.{IsProgram, start, program_rules};
ghost use Rattle.xmp_reader.specs.Effects.{Finishes, Ended};
ghost use Rattle.xmp_reader.specs.Going.{Refused, has_finish};
ghost use Rattle.xmp_reader.specs.Kinds.{next_is};
ghost use Rattle.xmp_parse.specs.Faults.{IsFault};
ghost use Rattle.xmp_parse.specs.Programs.{definition_rule, is_function, LastIs, ReadsPart, ReadsParts, ReadsProgram};

use crate::declarations::declaration_rest;
use crate::functions::function_rest;
use crate::refusals::refusal;
use sqlite_items::Items;
use std::alloc::Global;
use xmp_base::Fault;
use xmp_lex::{Mark, Token};
use xmp_line_reader::mapping;
use xmp_reader::{Effect, Parsed, Reader, Stop, start, type_words};
use xmp_syntax::{TopItem, Tree, never_program_and_refused};

/// A function, or a declaration outside functions.
fn definition(alloc: Global, r: Reader<'_>) -> Parsed<'_, TopItem>
    ensures goes { ReadsPart definition_rule r.entry result }
    ensures reads { IfOk result (λ x. r.entry.tokens.now ≡ sp.top_item x.0 x.1.tokens.now) }
    ensures fits { IfOk result (λ x. f.FitsTop x.0) }
    ensures shorter { IfOk result (λ x. length x.1.tokens.now < length r.entry.tokens.now) }
{
    let (ty, r) = type_words(r)?;
    let (name, r) = r.name(alloc)?;
    if r.is_mark(Mark::OpenParen) {
        let (function, r) = function_rest(alloc, ty, name, r)?;
        return Ok((TopItem::Function(function), r));
    }
    let (declaration, r) = declaration_rest(alloc, ty, name, r)?;
    Ok((TopItem::Declaration(declaration), r))
}

/// A part of a program.
fn top_item(alloc: Global, r: Reader<'_>) -> Parsed<'_, TopItem>
    ensures goes { ReadsPart (part p.program) r.entry result }
    ensures reads { IfOk result (λ x. r.entry.tokens.now ≡ sp.top_item x.0 x.1.tokens.now) }
    ensures fits { IfOk result (λ x. f.FitsTop x.0) }
    ensures shorter { IfOk result (λ x. length x.1.tokens.now < length r.entry.tokens.now) }
{
    if r.is_pragma() {
        let (mapping, r) = mapping(alloc, r)?;
        return Ok((TopItem::Mapping(mapping), r));
    }
    definition(alloc, r)
}

fn is_function(item: &TopItem) -> bool
    ensures { result ≡ is_function item.now }
{
    matches!(item, TopItem::Function(_))
}

/// Whether a program ends here, behind a part that is a function or is none.
fn is_end(function: bool, r: Reader<'_>) -> bool
    ensures { result ≡ function && next_is is_finish r.entry.tokens.now }
{
    function && r.is_finish()
}

/// The parts of a program, up to the end of the text.
fn program_parts(alloc: Global, r: Reader<'_>) -> Parsed<'_, Items<TopItem>>
    ensures goes { ReadsParts r.entry result }
    ensures reads { IfOk result (λ x. r.entry.tokens.now ≡ sp.each sp.top_item x.0 x.1.tokens.now) }
    ensures last { IfOk result (λ x. f.EndsInFunction x.0) }
    ensures fits { IfOk result (λ x. f.Each f.FitsTop x.0) }
{
    let mut parts = Items::new(alloc);
    let mut rest = r;
    let mut function = false;
    while !is_end(function, rest) {
        let (part, r) = top_item(alloc, rest)?;
        function = is_function(&part);
        parts.push(part)?;
        rest = r;
    }
    Ok((parts, rest))
}

/// A program, and the end of the text.
fn program(alloc: Global, r: Reader<'_>) -> Parsed<'_, Tree>
    ensures goes { ReadsProgram r.entry result }
    ensures reads { IfOk result (λ x. r.entry.tokens.now ≡ sp.each sp.top_item x.0.parts ((t.Finish at x.0.finish) ∷ x.1.tokens.now)) }
    ensures fits { IfOk result (λ x. f.FitsTree x.0) }
{
    let (parts, r) = program_parts(alloc, r)?;
    let (finish, r) = r.finish()?;
    Ok((Tree { parts, finish }, r))
}

/// A program, behind which no token stands.
fn whole(alloc: Global, tokens: &[Token]) -> Result<Tree, Stop>
    requires finished { has_finish tokens.now ≡ true }
    ensures program { IfOk result (λ x. IsProgram tokens.now x) }
    ensures refused { IfErr result (λ e. Refused (reading start program_rules tokens.now) e) }
{
    let depth = start();
    let (tree, r) = program(alloc, Reader { tokens, depth })?;
    if r.tokens.is_empty() {
        Ok(tree)
    } else {
        Err(r.unexpected())
    }
}

/// The program that the tokens are, or the first token at which they are none.
fn judged(alloc: Global, tokens: &[Token]) -> Result<Tree, Fault>
    requires finished { IsFinished tokens.now }
    ensures program { IfOk result (λ x. IsProgram tokens.now x) }
    ensures fault { IfErr result (λ e. IsFault tokens.now e) }
{
    match whole(alloc, tokens) {
        Ok(tree) => Ok(tree),
        Err(Stop::NoMemory) => Err(Fault::NoMemory),
        Err(Stop::Unexpected(left)) => Err(refusal(tokens, 1, left)),
        Err(Stop::TooDeep(left)) => Err(refusal(tokens, 2, left)),
    }
}

/// The program that the tokens are. They are refused at the first token at fault: by rule 1 where the tokens up to it
/// begin no program, by rule 2 where it stands at a depth above 128. Want of memory may be answered at any time.
pub fn parse(alloc: Global, tokens: &[Token]) -> Result<Tree, Fault>
    requires finished { IsFinished tokens.now }
    ensures program { IfOk result (λ x. IsProgram tokens.now x) }
    ensures fault { IfErr result (λ e. IsFault tokens.now e) }
    ensures no_other { (x : Tree) → IsProgram tokens.now x → IfErr result (λ e. e ≡ fault.NoMemory) }
{
    never_program_and_refused();
    judged(alloc, tokens)
}
